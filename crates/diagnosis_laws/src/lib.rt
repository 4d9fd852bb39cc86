//! The laws of what is told of a text: that the lists of its phases are one list, and that there is one.
//!
//! It stands on `order_laws`, by which a text has its grounds and one alone for modes and constants, and meets
//! `checks_model::BreaksRules`. The function here has no body, and its contract is the laws; what refuses or accepts texts
//! stands above it. No crate needs it to run.
#![tactic(auto)]

mod laws;

pub use laws::diagnosis_law;
