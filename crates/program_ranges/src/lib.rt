//! Whether the numbers of a program are in range: what they name is there, and has as many scalars as is asked of it.
//!
//! It meets `AreInRange` of its own `specs/`. It stands on `checked_program` and `modes`, between what elaborates a program
//! and what compiles it.
#![tactic(auto)]

mod actions;
mod around;
mod exprs;
mod messages;
mod program;
mod statements;

pub use program::are_in_range;
