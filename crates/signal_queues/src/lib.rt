//! The signals that are pending: for each signal a queue in the order in which they are received, which is by priority
//! and among equals by send number.
//!
//! It stands on `world_model`, whose pending signals it holds, and on `value_queues`, whose order it has, and below
//! `buffers_signals`.
#![tactic(auto)]

mod queues;

pub use queues::SignalQueues;
