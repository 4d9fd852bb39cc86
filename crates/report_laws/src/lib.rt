//! Laws of the report: what the events tell of each process is what the world says of it.
//!
//! The crate has definitions and laws. It stands on `run_texts`, whose report it speaks of, and on `run_laws`.
#![tactic(auto)]

mod laws;

pub use laws::{report_law, states_law};
