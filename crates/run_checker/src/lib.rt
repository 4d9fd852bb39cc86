//! Whether a journal is a run of a code.
//!
//! Each event is held against the world that those before it leave, by `journal_check`, and against the machine of the instance
//! that did it, which makes the code's own steps. It stands below the word that replays a journal.
#![tactic(auto)]

mod checking;
mod ending;
mod following;
mod verdict;

pub use checking::check_run;
pub use verdict::{CheckRefusal, Verdict};
