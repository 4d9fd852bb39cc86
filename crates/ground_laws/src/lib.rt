//! The laws of what the rules of a program are asked against: the list of its uses has at each use what is seen there, and
//! each definition stands under the number of what it is defined by.
//!
//! It stands on `names_laws` and `checks_model`. The definitions to be read are the files of `specs/`; the functions here have
//! no body, and their contracts are the laws.
#![tactic(auto)]

mod laws;

pub use laws::{origins_law, rows_law};
