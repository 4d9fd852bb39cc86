//! What is known of the definitions of a program, and the operators and routines on constants: which operands fit, the
//! class and the value of the result (Z.200, chapters on values and on operations).
//!
//! It stands on `definition_origins`, on `modes`, whose tests it asks, and on `layout_map`.
#![tactic(auto)]

mod evaluation;
mod known;
mod laws;
mod literals;
mod measuring;
mod operators;
mod routines;

pub use constant_values::{GREATEST, add_members, empty_set, single};
pub use evaluation::{Entry, Evaluation, Plain, shared};
pub use known::{Known, member_count};
pub use laws::values_law;
pub use measuring::Measured;
pub use operators::Computed;
