//! The canonical text of a program: its tokens, each written in one way, which is what `format` writes.
//!
//! It stands on `rules_model`, whose tokens of a text it writes so that they are read again, and below `chill_top`.
#![tactic(auto)]

mod canonical;
mod read_back;
mod same_tree;

pub use canonical::print;
pub use read_back::{read_back_law, written_again_law};
pub use same_tree::{same_program_law, same_text_law, same_tree_law, tree_tokens_law};
