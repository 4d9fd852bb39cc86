//! The laws of the table of what is known of definitions: by which names it is looked up, and that there is one.
//!
//! It stands on `checks_model`, whose definitions it speaks of. The functions here have no body, and their contracts are the
//! laws. No crate needs it to run.
#![tactic(auto)]

mod laws;

pub use laws::{constants_frame, entries_frame, modes_frame, one_table_law, told_frame};
