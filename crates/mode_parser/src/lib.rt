//! Modes and definitions are read from tokens: what `rules_model` says of reading them from the front.
//!
//! It stands on `expr_parser`, whose readers of expressions, names, signs and words it takes, and the parser of whole
//! texts stands on it.
#![tactic(auto)]

mod base;
mod declaration;
mod discrete;
mod local;
mod mode;
mod place;
mod synonym;

pub use local::read_local;
pub use mode::{read_mode, read_modes};
