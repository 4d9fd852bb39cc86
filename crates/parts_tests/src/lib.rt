//! Tests of the six parts of the kernel: each public call once with ample memory.
//!
//! It proves nothing of its own. Tests stand in a crate at the top because a crate with tests is proved twice.
#![tactic(auto)]

#[cfg(test)]
mod messages;
#[cfg(test)]
mod parts;
#[cfg(test)]
mod store;
