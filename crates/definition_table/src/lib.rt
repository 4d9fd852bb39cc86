//! The table of what is known of a program's definitions (Z.200, chapters on modes and on values): each is evaluated once,
//! behind those that it depends on.
//!
//! It stands on `written_modes` and `constant_rules`, which evaluate one mode and one constant, and on `definition_order`.
#![tactic(auto)]

mod clauses;
mod entries;
mod filling;
mod given;
mod received;

pub use entries::synonym_entry;
pub use filling::evaluate;
