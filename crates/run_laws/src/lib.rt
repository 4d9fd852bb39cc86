//! Laws of the runs of a code: how far a talk has come, that an instance which a machine follows follows the code, how
//! instances are born, and which regions an active one holds.
//!
//! The crate has definitions and laws. It stands on `code_types`, and below the pool of workers.
#![tactic(auto)]

mod laws;

pub use laws::{births_law, code_run_law, follows_law, held_regions_law, reached_law};
