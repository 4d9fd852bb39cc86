//! The law of the layout of the modes that a text writes: their scalars have places, and they aren't too many.
//!
//! It stands on `constant_operators`, whose evaluation keeps what is known of modes. The function here has no body, and its
//! contract is the law. No crate needs it to run.
#![tactic(auto)]

mod laws;

pub use laws::found_modes_law;
