//! The laws of typed statements and bodies: what is elaborated of one is as its modes say.
//!
//! It stands on `action_laws`, by which actions that hold no others and controls of loops are. The functions here have no body,
//! and their contracts are the laws. No crate needs it to run.
#![tactic(auto)]

mod laws;

pub use laws::body_law;
