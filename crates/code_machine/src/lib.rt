//! Guarded code runs, burst by burst.
//!
//! A machine is a process of a code that was guarded. A burst is the code's own steps, up to a request or a number of ticks;
//! an answer lets it go on. It stands on the steps of `machine_steps`, and on the laws of `code_safety`, by which guarded
//! code never finds itself without what a step asks.
#![tactic(auto)]

mod answering;
mod burst;
mod machine;
mod starting;
mod stepping;

pub use burst::Stop;
pub use machine::Machine;
