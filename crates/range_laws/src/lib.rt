//! Laws of programs that are in range: what that says of their trees.
//!
//! The crate has definitions and one law. It stands on `program_ranges`, whose tests it reads, and on `program_trees`.
#![tactic(auto)]

mod laws;

pub use laws::bodies_in_range_law;
