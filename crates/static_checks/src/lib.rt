//! The checks of the statements of a program, behind those of its modes and constants.
//!
//! It stands on `mode_rules`, whose list comes first, and on `statement_rules`, which tells what statements break. The rules
//! on processes come behind its list.
#![tactic(auto)]

mod checking;

pub use checking::{check_modes, check_own_statements, check_statements};
pub use mode_rules::{Evaluation, evaluate};
