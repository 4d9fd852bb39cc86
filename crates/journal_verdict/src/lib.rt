//! Whether a journal's text is a run of a code, and the line that is written of that.
//!
//! The text is read by `journal_text`, and its events are held against the code by `run_checker`. It stands below the top call.
#![tactic(auto)]

mod judging;
mod lines;
#[cfg(test)]
mod tests;

pub use judging::{Judgement, judge_text};
pub use lines::{err_of, out_of, status_of};
