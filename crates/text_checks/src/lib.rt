//! The checks of a text whose names are resolved, phase by phase: modes and constants, statements, processes.
//!
//! It stands on `static_checks` and `process_checks`, whose lists come in this order.
#![tactic(auto)]

mod checking;

pub use checking::check_text;
pub use static_checks::{Evaluation, evaluate};
