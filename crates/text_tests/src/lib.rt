//! Tests of what all crates share and of the tokens of texts: tables of what must come, written by hand.
//!
//! It proves nothing of its own. Tests stand in a crate at the top because a crate with tests is proved twice.
#![tactic(auto)]

#[cfg(test)]
mod base;
#[cfg(test)]
mod tokens;
