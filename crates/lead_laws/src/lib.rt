//! The laws of what names lead to in an elaborated program: to rows of their modes.
//!
//! It stands on `elaborated_laws`, by which the number of a definition leads to the row that is made of it. The functions here
//! have no body, and their contracts are the laws. No crate needs it to run.
#![tactic(auto)]

mod laws;

pub use laws::lead_law;
