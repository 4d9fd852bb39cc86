//! The names of the locals of bodies: what is declared, counted and received in them.
//!
//! It stands on `checks_model`, whose rule on the size of a body asks for them; the checks of statements stand above it.
#![tactic(auto)]

mod bodies;
mod items;
mod names;
mod statements;

pub use bodies::{locals_of_procedure, locals_of_process};
pub use items::outermost_locals;
