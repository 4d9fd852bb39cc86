//! The laws of the values of constants: each is one of its class's mode.
//!
//! It stands on `there_laws`, by which constants have values, and on `elaborated_laws`, by which their classes have modes of the
//! language. The functions here have no body, and their contracts are the laws. No crate needs it to run.
#![tactic(auto)]

mod laws;

pub use laws::constants_law;
