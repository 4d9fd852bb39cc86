//! The values that lie in buffers: for each buffer a queue in the order in which they are received, which is by priority
//! and among equals by send number.
//!
//! It stands on `world_model`, whose stored values it holds, and below `buffers_signals`.
#![tactic(auto)]

mod queues;

pub use queues::{ValueQueues, rank};
