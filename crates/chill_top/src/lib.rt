//! The top call: `chill` reads the text that the words name, decides what it says, runs it, and writes what comes of it.
//!
//! It meets the definitions of `specs/Plan.antt`, `specs/Causes.antt` and `specs/Outcomes.antt`: which answer comes, its
//! cause, and what was written with it. It stands on the ports, on all that a text goes through up to its code, on the serial
//! run, on the texts that are written and on the watchers, and below the program, which puts real files and streams behind
//! the ports.
#![tactic(auto)]

mod answer;
mod input;
mod plan;
mod read;
mod replay;
mod run;
mod source;
mod stage;
mod task;
mod top;
mod watching;
mod write;

pub use top::{Outcome, chill, chill_alone};
