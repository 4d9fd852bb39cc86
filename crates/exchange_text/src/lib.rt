//! The text that `make` writes: a telephone exchange with so many subscribers, which uses a region, an event, a buffer and
//! signals.
//!
//! It meets the definitions of `specs/`. It stands on `chill_base`; the top call stands on it.
#![tactic(auto)]

mod made;
mod parts;
#[cfg(test)]
mod tests;

pub use made::make_text;
