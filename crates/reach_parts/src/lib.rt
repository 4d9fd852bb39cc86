//! The parts of the reaches of a program are found in its tree: what it defines, uses, seizes and grants, in the order of
//! the text.
//!
//! It stands on `names_model`, which says which parts a tree has.
#![tactic(auto)]

mod clause;
mod control;
mod expr;
mod item;
mod labels;
mod local;
mod mode;
mod part;
mod routine;
mod signal;
mod simple;
mod statement;

pub use item::program_parts;
