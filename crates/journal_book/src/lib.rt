//! The journal of a run, with the sum of its units.
//!
//! It stands on `kernel_base`, whose events it keeps in order, and below `kernel_core`.
#![tactic(auto)]

mod journal;

pub use journal::Journal;
