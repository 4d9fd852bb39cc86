//! Tests of the texts that a run and `list` write: tables with texts by hand, from the forms in `docs/COMMANDS.md`.
//!
//! It proves nothing of its own. Tests stand in a crate at the top because a crate with tests is proved twice.
#![tactic(auto)]

#[cfg(test)]
mod build;
#[cfg(test)]
mod codes;
#[cfg(test)]
mod journals;
#[cfg(test)]
mod layouts;
#[cfg(test)]
mod programs;
#[cfg(test)]
mod read_journals;
#[cfg(test)]
mod reports;
