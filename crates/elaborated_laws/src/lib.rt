//! The laws of the elaborated program: what of a text that breaks no rule is there, and is what its modes say.
//!
//! It stands on `checks_model` and `elaboration_model`, whose definitions it speaks of. The functions here have no body,
//! and their contracts are the laws. No crate needs it to run.
#![tactic(auto)]

mod laws;

pub use laws::{known_law, table_modes_law};
