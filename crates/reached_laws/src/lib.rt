//! The laws of where the names of a text lead: to what stands in the body around, to what stands directly in modules, and to what
//! a region keeps only inside it.
//!
//! It stands on `names_laws` and `ground_laws`, which say what is seen in a reach and that the list of uses has it. The functions
//! here have no body, and their contracts are the laws. No crate needs it to run.
#![tactic(auto)]

mod laws;

pub use laws::reached_law;
