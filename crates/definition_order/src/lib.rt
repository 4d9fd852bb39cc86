//! The order in which the definitions of a program are evaluated: each behind those that it needs (Z.200, chapter on program
//! structure, visibility).
//!
//! It stands on `definition_origins`, which says what each definition is defined by, and on `graph_order`, which finds an order.
#![tactic(auto)]

mod needed;
mod needs;
mod order;

pub use order::in_order;
