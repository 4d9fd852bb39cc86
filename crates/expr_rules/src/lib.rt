//! The class of expressions where statements stand (Z.200, chapters on values, on operations and on locations), and the
//! rules that belong to expressions: S1, S2, S3, S5, S6, S10, S11 and L6, and S4, S7 and S8 as far as they speak of one
//! expression.
//!
//! It stands on `constant_operators`, whose evaluated definitions it asks; the checks of statements and of processes and the
//! elaborated program stand on it. It speaks of programs that break no rule on names, on modes or on constants, so it asks
//! for classes alone, and no value. At each expression its own rules are asked only where nothing was told in its parts, and
//! the rule of the place that receives it only where nothing was told in or at it.
#![tactic(auto)]

mod assignments;
mod calls;
mod classed;
mod classes;
mod formals;
mod local_modes;
mod places;
mod receiving;
mod surroundings;
mod telling;
mod tuples;
mod values;

pub use classed::Classed;
pub use classes::Callee;
pub use formals::Formal;
pub use local_modes::add_local_modes;
pub use places::{Access, Located};
pub use receiving::Receiver;
pub use surroundings::Walk;
pub use telling::{tell_if, tell_wrong_number};
pub use tuples::{Shape, shape_of, uniform_shape_of};
