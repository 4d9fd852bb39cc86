//! Workers in threads of their own run the processes of a guarded code, over one kernel under a lock.
//!
//! It meets the run of a code and its end, of `code_types` and `world_model`, wherever `gather` gives one. It stands on the
//! kernel, on the machine and on the serial run, below the top call.
#![tactic(auto)]

mod agreement;
mod desk;
mod gathering;
mod log;
mod log_births;
mod log_events;
mod log_places;
mod pool;
mod shared;
mod worker;

pub use gathering::gather;
pub use log::{Log, Logs};
pub use pool::{Pool, run_pool};
