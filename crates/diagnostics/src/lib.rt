//! The rules of the language, what is told of a text that breaks them, and the one list of the diagnostics of a phase:
//! in order, each once, in whatever order they were collected.
//!
//! It stands on `chill_base`, and below the crates that check rules.
#![tactic(auto)]

mod diagnostic;
mod order;
mod rule;

pub use diagnostic::{Diagnostic, Diagnostics};
pub use order::{list_once, listed_law, same_list_law};
pub use rule::Rule;

#[cfg(test)]
mod tests;
