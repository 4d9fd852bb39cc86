//! The rules on modes and constants that a program breaks (Z.200, chapters on modes and on values).
//!
//! It stands on `definition_table`, which evaluates the definitions, and on `written_modes` and `constant_rules`, which tell
//! of one mode and of one constant; the checks of statements
//! and of processes and the elaborated program stand on it, and find here what they share of the crates below.
#![tactic(auto)]

mod actions;
mod expressions;
mod items;
mod locals;
mod meeting;
mod phase;
mod statements;
mod too_many;

pub use constant_operators::{Computed, Entry, Evaluation, Known, Measured, Plain, shared};
pub use constant_rules::{TupleValue, has_parts, known, needed};
pub use definition_origins::{CheckRule, Element, Origin, Origins, Owner, Predefined, Told};
pub use definition_table::evaluate;
pub use meeting::{Meeting, meeting_of};
pub use phase::{told_of_modes, told_of_program};
