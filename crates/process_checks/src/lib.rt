//! The rules on processes that a program breaks (Z.200, chapter on concurrent execution): what may stand in a region, what
//! an action meets its partners at, priorities, and the locations that take an instance.
//!
//! It stands on `process_names` for what names decide; on `wait_exprs`, `mode_rules`, whose table of modes and classes it asks,
//! and `expr_rules`, which says what a location is, for priorities and for locations that take an instance; and below the top
//! call, which asks it of programs that break no other rule.
#![tactic(auto)]

mod checking;
mod meeting;
mod rules;
mod waiting;

pub use checking::check_processes;
