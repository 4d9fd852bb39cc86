//! A program that breaks no rule becomes an elaborated one: its statements with numbers in place of names, its bodies, and
//! with them the rows of all that it defines (Z.200, chapters on program structure, on actions, on exception handling and
//! on concurrent execution).
//!
//! It meets the comments of `checked_program`, whose types it fills, and gives only programs whose numbers are in range, by
//! `AreInRange` of `program_ranges`. It stands on `program_numbers`, which numbers the
//! parts of a program, and on `value_elaboration`, which elaborates its expressions; the compiler stands behind it.
#![tactic(auto)]

mod around;
mod bodies;
mod calls;
mod declarations;
mod elaborating;
mod elaboration;
mod loops;
mod modulions;
mod program;
mod requests;
mod simple;
mod statements;

pub use elaborating::elaborate;
pub use program::Program;
pub use value_elaboration::{ElaborationRefusal, Evaluation};
