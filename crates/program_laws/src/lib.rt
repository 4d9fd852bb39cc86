//! The laws of the elaborated program of a text: that it is there where the text breaks no rule.
//!
//! It stands on `checks_model` and `elaboration_model`, whose definitions it speaks of, and on `expression_laws`. The functions
//! here have no body, and their contracts are the laws. No crate needs it to run.
#![tactic(auto)]

mod laws;

pub use laws::{counters_law, counts_law, program_law};
