//! Tests of the serial run: journals, machines and ends of small codes, worked out by hand from the code's steps, from what the
//! kernel answers, and from whose turn it is.
//!
//! It proves nothing of its own. Tests stand in a crate at the top because a crate with tests is proved twice.
#![tactic(auto)]

#[cfg(test)]
mod scenes;
#[cfg(test)]
mod stage;
