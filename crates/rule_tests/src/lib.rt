//! Tests of the rules on modes, constants, statements and processes: each public call once with ample memory. What is told
//! of texts stands as tables in `rows/rules`.
//!
//! It proves nothing of its own. Tests stand in a crate at the top because a crate with tests is proved twice.
#![tactic(auto)]

#[cfg(test)]
mod told;
