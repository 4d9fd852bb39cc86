//! The kernel's state, and its steps: one function for each request that is served, over the state.
//!
//! Each step meets `specs/Serving.antt`: it is answered as `world_model` allows, or waits where it must, and the state
//! goes on standing for the world that its journal leaves (`specs/Kept.antt`). It stands on the six parts that hold what
//! the journal leaves, and below `kernel_core`.
#![tactic(auto)]

pub mod answers;
pub mod buffers;
pub mod commits;
pub mod copies;
pub mod input;
pub mod messages;
pub mod noting;
pub mod opening;
pub mod ranges;
pub mod regions;
mod reply;
pub mod seats;
pub mod signals;
pub mod simple;
mod state;
pub mod waking;

pub use reply::{New, Reply};
pub use seats::{Copies, Going, Seats};
pub use state::{Queues, Ready, State};
