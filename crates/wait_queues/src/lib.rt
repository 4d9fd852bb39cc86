//! Who waits at each of many places, as at an event or a buffer: for each place those that wait there, in the order in
//! which they are chosen, which is by priority and among equals by arrival.
//!
//! It stands on `kernel_lists`, and below `event_queues` and `buffers_signals`.
#![tactic(auto)]

mod queues;
mod waiters;

pub use queues::WaitQueues;
pub use waiters::{Waiter, Waiters};
