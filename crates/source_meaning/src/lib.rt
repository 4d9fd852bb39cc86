//! The meaning of texts: what a process of a checked program asks and does, for all answers, and the runs of a program.
//!
//! The crate has definitions, over the trees of `program_trees` and in the words of `world_model`, and a law of them. What
//! compiled code does is held against them.
#![tactic(auto)]

mod laws;

pub use laws::enough_law;
