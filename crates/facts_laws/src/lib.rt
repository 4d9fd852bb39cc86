//! A law of the facts of a program: those that the compiler makes are those of its text.
//!
//! The crate has definitions and laws. It stands on `code_gen`, which makes the facts, and on `source_meaning`, which says what
//! the facts of a text are.
#![tactic(auto)]

mod laws;

pub use laws::facts_law;
