//! The laws of the heads and rows of an elaborated program: that they are those of a typed one.
//!
//! It stands on `program_laws`, by which all is known of the names of a text that breaks no rule, and on `source_meaning`,
//! which says what a typed program is. The functions here have no body, and their contracts are the laws. No crate needs it to
//! run.
#![tactic(auto)]

mod laws;

pub use laws::{few_law, heads_law, parameters_law};
