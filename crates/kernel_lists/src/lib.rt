//! What several parts of the kernel need, once: the choice by priority and then by arrival, and the words for lists in
//! which each process has at most one entry and for the room of a vector.
//!
//! It stands on `chill_base`, and below `region_kernel`, `event_queues` and `buffers_signals`.
#![tactic(auto)]

mod best;

pub use best::{Best, Rank, better, precedes};
