//! What is defined and seen where in a program (Z.200, chapter on general semantic properties, visibility), and the rules
//! on names.
//!
//! A program is looked at as the parts of its reaches: what they define, use, seize and grant, and which reaches stand in
//! them. The definitions are the files of `specs/`. It stands on `chill_tree`, whose trees have these parts, and below
//! the crates that find the parts and what they see.
#![tactic(auto)]

mod definition;
mod entry;
mod identifier;
mod kind;
mod names;
mod part;
mod sizes;
mod telling;

pub use definition::{Definition, Inside};
pub use entry::Entry;
pub use identifier::{Identifier, Spelling};
pub use kind::{Kind, Need};
pub use names::{Names, Resolved};
pub use part::{Clause, Mention, Part};
pub use sizes::{
    clause_size, clauses_size, elements_size, head_size, names_size, size_of, sizes_of,
    up_to_greatest,
};
pub use telling::push_told;
