//! The law that the bodies of an elaborated program are well made: their loops alone set their counters, and their
//! declarations name no parameters.
//!
//! It stands on `within_laws`, by which names in a body stand for no local of another, on `program_laws`, and on `code_laws`,
//! which says what such bodies are good for. The function here has no body, and its contract is the law. No crate needs it
//! to run.
#![tactic(auto)]

mod laws;

pub use laws::well_made_law;
