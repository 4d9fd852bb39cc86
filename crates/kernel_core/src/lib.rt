//! The kernel as its callers see it: processes commit their requests one at a time, and all that was committed stands
//! in a journal.
//!
//! Each call meets its definition in the file `specs/View.antt` of `kernel_steps`, on which this crate stands: there is one function
//! for each request. The pool of workers is to stand on it.
#![tactic(auto)]

mod calls;
mod rooms;
mod serving;
mod taking;

pub use calls::Kernel;
pub use kernel_steps::{New, Reply};
