//! The texts that a run writes: its output, and the report of how far each process has come.
//!
//! It stands on `world_model`, whose journals the texts are told of, and on `checked_program`, whose names the report
//! tells; the top call stands on it.
#![tactic(auto)]

mod output;
mod processes;
mod report;
mod words;

pub use output::output_text;
pub use processes::{ProcessState, Processes};
pub use report::report_text;
