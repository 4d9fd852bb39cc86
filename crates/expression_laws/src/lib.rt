//! The laws of elaborated expressions, statements and programs: that one in which no rule is broken is there.
//!
//! It stands on `checks_model` and `elaboration_model`, whose definitions it speaks of, and on `there_laws` for what is known of
//! names. The functions here have no body, and their contracts are the laws. No crate needs it to run.
#![tactic(auto)]

mod laws;

pub use laws::{
    exceptions_law, exits_law, expressions_law, named_law, names_law, nodes_law, program_law,
    statements_law,
};
