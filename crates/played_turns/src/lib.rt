//! Turns of a machine as tables can hold them: what it has to ask, with how many ticks, and what it is answered.
//!
//! The tests of codes written by hand and of compiled programs play their tables by it. It proves that it returns, and
//! stands on `code_machine`.
#![tactic(auto)]

mod tables;
mod turns;

pub use tables::{Asked, Given, answer_of, request_of, scalars_of};
pub use turns::{Turn, does, ends, started, turns_made};
