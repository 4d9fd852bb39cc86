//! The law that what a text writes is bytes, where the text is.
//!
//! It stands on `tree_print`, by which the tokens of a text are those of its tree. The function here has no body, and its
//! contract is the law. No crate needs it to run.
#![tactic(auto)]

mod laws;

pub use laws::bytes_law;
