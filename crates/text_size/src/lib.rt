//! The size of a text (our own measure): 4 for each node of an expression, 8 for each action and alternative, 16 for each
//! body.
//!
//! It meets `specs/Sizes.antt` and `specs/Nodes.antt`. It stands on `chill_tree`, whose trees it measures, and below
//! `program_numbers`, which keeps the sizes, and `text_to_code`, which refuses a text that is too large.
#![tactic(auto)]

mod items;
mod locals;
mod mode_nodes;
mod nodes;
mod statements;

pub use items::{size_of_program, size_without_inner};
