//! The laws of what a text writes: what grammar, tokens and the number of definitions say of the modes, SETs and text literals
//! of a text that has a tree and breaks no rule on names.
//!
//! It stands on `rules_model`, whose grammar it goes by, and on `elaborated_laws`, which asks of texts what is proved here. The
//! functions here have no body, and their contracts are the laws. No crate needs it to run.
#![tactic(auto)]

mod laws;

pub use laws::written_law;
