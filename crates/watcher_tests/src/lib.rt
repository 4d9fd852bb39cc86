//! Tests of the watchers: a journal by hand, the program's two watchers, one that refuses, and one that has no memory.
//!
//! It proves nothing of its own. Tests stand in a crate at the top because a crate with tests is proved twice.
#![tactic(auto)]

#[cfg(test)]
mod counters;
#[cfg(test)]
mod events;
#[cfg(test)]
mod fakes;
#[cfg(test)]
mod shows;
