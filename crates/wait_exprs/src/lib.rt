//! The priorities of a program, and the locations that take an instance.
//!
//! It stands on `checks_model`, whose phase of processes asks P6 and P7 of them, and below the checks, which ask that here.
#![tactic(auto)]

mod items;
mod laws;
mod statements;
mod wait;

pub use items::waits_of;
pub use laws::split_law;
pub use wait::Wait;
