//! From the tokens of a text to its tree, or to why it has none: `parse` meets the definition `Parses`.
//!
//! It stands on `rules_model`, whose reading from the front its readers follow definition by definition, and on the
//! readers of expressions, modes and statements. The laws join that reading with the grammar.
#![tactic(auto)]

mod block;
mod heading;
mod item;
mod nesting;
mod param;
mod program;
mod reading;
mod signal;

pub use expr_parser::ParseRefusal;
pub use nesting::{none_too_deep_law, too_deep_law};
pub use program::parse;
pub use reading::{none_read_law, one_tree_law, read_law};
