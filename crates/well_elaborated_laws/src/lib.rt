//! The law that the elaborated program of a text is well elaborated: all that is asked of a program that is compiled and run.
//!
//! It stands on `typed_program_laws`, `made_laws`, `well_made_laws` and `head_laws`, which say the parts of it. The function
//! here has no body, and its contract is the law. No crate needs it to run.
#![tactic(auto)]

mod laws;

pub use laws::well_elaborated_law;
