//! The scheme of compiled code: the instructions of each construct, as functions of its tree.
//!
//! The crate has definitions alone, and examples of them. The crates that make code append exactly what it says.
#![tactic(auto)]
