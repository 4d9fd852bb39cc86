//! The laws of the members of powersets in constants: an operation on members is the operation on the numbers whose bits tell
//! of them.
//!
//! It stands on `checks_model`, which has members one by one, and on `scalar_operators`, which has them as bits. The function
//! here has no body, and its contract is the laws. No crate needs it to run.
#![tactic(auto)]

mod laws;

pub use laws::members_law;
