//! The table of instances: of which process each is, how far it has come, and how many are live and active.
//!
//! Its records stand in a slab. It stands on `kernel_base`, and below `kernel_core`.
#![tactic(auto)]

mod phase;
mod records;
mod table;

pub use phase::Phase;
pub use table::Instances;
