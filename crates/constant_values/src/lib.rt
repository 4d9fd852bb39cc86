//! The values of operators and routines on constants, by the flat scalars of their operands (Z.200, chapters on values and on
//! operations).
//!
//! It stands on `number_operators`, and on `class_operators`, whose operands it takes; it knows no names.
#![tactic(auto)]

mod forms;
mod numbers;
mod operators;
mod routines;
mod sets;

pub use numbers::{GREATEST, single, some_single};
pub use operators::{value_of_binary, value_of_unary};
pub use routines::value_of_routine;
pub use sets::{add_members, empty_set};
