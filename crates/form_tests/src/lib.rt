//! Tests of the canonical text of texts, written by hand.
//!
//! It proves nothing of its own. Tests stand in a crate at the top because a crate with tests is proved twice.
#![tactic(auto)]

#[cfg(test)]
mod canonical;
#[cfg(test)]
mod canonical_rows;
