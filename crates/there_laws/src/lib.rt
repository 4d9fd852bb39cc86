//! The laws of what is there where nothing is told: the values of constants, the modes that a text writes, and what is
//! known of names.
//!
//! It stands on `checks_model`, whose definitions it speaks of, and on `elaborated_laws`. The functions here have no body, and
//! their contracts are the laws. No crate needs it to run.
#![tactic(auto)]

mod laws;

pub use laws::{constants_law, modes_law, names_law, table_law, told_law};
