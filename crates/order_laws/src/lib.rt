//! The laws of orders: that one leads through the definitions of a program, each behind those that it needs, and that along
//! it a table that knows counters has the same of what is looked up.
//!
//! It stands on `table_laws`, which says what such an order is. The functions here have no body, and their contracts are the
//! laws. No crate needs it to run.
#![tactic(auto)]

mod laws;

pub use laws::{counters_law, ground_law, order_law};
