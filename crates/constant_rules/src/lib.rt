//! What is known of expressions as constants, and the rules on them (Z.200, chapter on values).
//!
//! It stands on `constant_operators`. Each function answers what is known of an expression, and whether nothing is told in
//! it: own rules of an expression are asked only where nothing is told in its parts.
#![tactic(auto)]

mod calls;
mod constants;
mod forms;
mod operators;
mod parts;
mod tuple_value;
mod tuples;

pub use calls::routine;
pub use constants::{known, needed};
pub use parts::has_parts;
pub use tuple_value::TupleValue;
pub use tuples::synonym_value;
