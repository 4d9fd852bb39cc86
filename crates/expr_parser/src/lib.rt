//! Expressions are read from tokens: what `rules_model` says of reading from the front, and the longest expression
//! from a place by its grammar.
//!
//! It stands on `rules_model`, and the parser of whole texts stands on it and takes its readers.
#![tactic(auto)]

mod expr;
mod list;
mod location;
mod names;
mod parse;
mod part;
mod reader;
mod refusal;

pub use expr::{read_args, read_expr, read_exprs, read_range, read_ranges, read_value};
pub use list::{Listed, read_list};
pub use location::{read_location, read_location_parts};
pub use names::read_names;
pub use parse::parse_expr;
pub use reader::{
    behind, boxed, less, operator_of, place, read_name, read_sign, read_word, starts, starts_expr,
    starts_name, starts_with,
};
pub use refusal::ParseRefusal;
