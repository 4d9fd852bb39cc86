//! Regions: who occupies each, which ones a process holds in the order of locking, and who waits to lock one.
//!
//! Its lists are the occupants and the held regions of the world. It stands on `kernel_lists`, and below `kernel_core`.
#![tactic(auto)]

mod regions;

pub use regions::{Lock, Regions};
