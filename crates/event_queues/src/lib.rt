//! Who is delayed on events: when an event is full, who is delayed, and whom CONTINUE chooses, which is one of highest
//! priority and among equals the one that came first.
//!
//! It stands on `wait_queues`, which holds those that are delayed on each event in the order of choice, and below
//! `kernel_core`.
#![tactic(auto)]

mod sets;

pub use sets::{Delayed, EventSets};
