//! The laws of typed actions: what an action or the control of a loop is elaborated to is as its modes say.
//!
//! It stands on `typed_laws`, by which expressions are of their classes' modes. The functions here have no body, and their
//! contracts are the laws. No crate needs it to run.
#![tactic(auto)]

mod laws;

pub use laws::action_law;
