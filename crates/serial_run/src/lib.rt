//! The serial run: one after another, the processes of a guarded code make their bursts and commit what they ask, until the
//! run is over.
//!
//! It meets the run of a code and its end, of `code_types` and `world_model`. It stands on the kernel and on the machine, and
//! below the top call and the pool of workers.
#![tactic(auto)]

mod refusal;
mod runner;
mod serial;
mod serving;
mod stopped;
mod taking;
mod turns;

pub use refusal::{Misfit, RunRefusal};
pub use runner::{Machines, Runner};
pub use serial::{Driven, attempt};
pub use serving::{commit, pause, serve, take_reply};
pub use stopped::{Stopped, attempt_some};
pub use taking::start;
