//! The definitions of what a text is: its tokens, and the tree that its tokens have.
//!
//! It stands on `chill_tree`. The definitions are the files of `specs/`; the functions here have no body, and their
//! contracts are the laws of these definitions. `Extent` is what reading from the front is told.
#![tactic(auto)]

mod extent;
mod grammar;
mod tokens;

pub use extent::Extent;
pub use grammar::one_tree;
pub use tokens::{longest_piece, nothing_begins, one_reading, pieces_joined};
