//! Tests of the workers: that several run at once, what comes of whole texts, and what isn't gathered.
//!
//! It proves nothing of its own. Tests stand in a crate at the top because a crate with tests is proved twice.
#![tactic(auto)]

#[cfg(test)]
mod at_once;
#[cfg(test)]
mod gathering;
#[cfg(test)]
mod serves;
#[cfg(test)]
mod texts;
#[cfg(test)]
mod unguarded;
