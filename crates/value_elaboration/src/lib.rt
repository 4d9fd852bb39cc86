//! The values and locations of the elaborated program: each expression, location, call, START and message of a tree
//! becomes that of `checked_program`, with numbers in place of names and constants in place of all that has their form.
//!
//! It meets the comments of `checked_program`, in the meaning that Z.200 gives to values, operations and locations. It
//! stands on `expr_rules`, of which it asks the class of each node, and on the numbers of `program_numbers`; the elaborated
//! statements stand on it. It speaks of programs that break no rule; of others it only says that it returns.
#![tactic(auto)]

mod calls;
mod elaborated;
mod known;
mod locations;
mod operators;
mod tuples;
mod values;

pub use calls::Applied;
pub use locations::Target;
pub use operators::operator_between;
pub use program_numbers::{ElaborationRefusal, Evaluation, Numbering, Predefined, Thing};
pub use values::Values;
