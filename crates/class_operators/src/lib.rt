//! Which operands the operators and routines take, and the class of the result (Z.200, chapter on operations).
//!
//! It stands on `modes`, whose tests it asks, and knows no names: an operand is its class.
#![tactic(auto)]

mod classes;
mod parts;
mod predefined;
mod routines;

pub use classes::{
    class_of_binary, class_of_measure, class_of_routine, class_of_unary, copied, goes,
    is_arithmetic, is_logic, is_of_discrete, is_on_sets, measured_mode, mode_is_discrete,
    mode_is_meeting, their_class,
};
pub use parts::{field_in, form_in, mode_in};
pub use predefined::{PREDEFINED, Predefined};
pub use routines::{
    cannot_be_put, gives_no_value, is_measuring, is_routine, is_value_routine, number_of_arguments,
};
