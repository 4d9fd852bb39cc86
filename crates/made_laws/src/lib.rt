//! The laws of the bodies of an elaborated program: that they have few alternatives, that their statements stand as those of
//! a text, and that their numbers are in range where the program is typed.
//!
//! It stands on `program_laws` and `head_laws`, by which all is known of the names of a text that breaks no rule, and on
//! `typed_ranges` and `compilable_laws`, which say what such bodies are good for. The functions here have no body, and their
//! contracts are the laws. No crate needs it to run.
#![tactic(auto)]

mod laws;

pub use laws::{bodies_law, layouts_law, numbers_law};
