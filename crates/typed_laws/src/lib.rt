//! The laws of typed expressions: what is elaborated of one is of its class's mode.
//!
//! It stands on `constant_laws`, by which constants are values of their classes' modes, and on `expression_laws`, by which
//! expressions are there. The functions here have no body, and their contracts are the laws. No crate needs it to run.
#![tactic(auto)]

mod laws;

pub use laws::typed_law;
