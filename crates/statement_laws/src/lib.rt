//! Laws of what is told of statements and of expressions in them: what a walk tells that goes through an action that holds
//! others in three steps, through a body part by part, and through arguments one by one.
//!
//! It stands on `checks_model`, whose definitions it speaks of. No crate needs it to run.
#![tactic(auto)]

mod laws;

pub use laws::{arguments_law, messages_law, receivers_law, statements_law};
