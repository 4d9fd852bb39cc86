//! Tests of the crates of the kernel's world and of the code: each public call once with ample memory, and tables of what
//! must come, written by hand.
//!
//! It proves nothing of its own. Tests stand in a crate at the top because a crate with tests is proved twice.
#![tactic(auto)]

#[cfg(test)]
mod changes;
#[cfg(test)]
mod guard;
#[cfg(test)]
mod journals;
#[cfg(test)]
mod machine;
#[cfg(test)]
mod tables;
