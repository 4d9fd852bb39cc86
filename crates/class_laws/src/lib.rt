//! The law that an expression in which nothing is told has its class, where what it names is known.
//!
//! It stands on `checks_model`, whose definitions it speaks of. The functions here have no body, and their contracts are
//! the laws. No crate needs it to run.
#![tactic(auto)]

mod laws;

pub use laws::{class_law, receive_law};
