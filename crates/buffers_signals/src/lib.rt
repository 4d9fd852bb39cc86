//! Values in buffers, pending signals, and who waits to send or to receive them: each value that is sent is handed over
//! or kept once, and a value of highest priority, among equals the one sent first, is received.
//!
//! It stands on `world_model`, whose stored values, pending signals and waiting processes its lists hold, and below
//! `kernel_core`.
#![tactic(auto)]

mod buffers;
mod messages;
mod receiving;
mod signals;
mod taking;
mod waiting;

pub use buffers::Buffers;
pub use messages::{Held, Received, Receiver, Sent};
pub use signals::Signals;
