//! The texts that the program writes. So far: the diagnostics of a text that is refused.
//!
//! It stands on `diagnostics`, whose table has the rules' names and texts, and below `chill_top`.
#![tactic(auto)]

mod diagnostic_lines;

pub use diagnostic_lines::diagnostics_text;

#[cfg(test)]
mod tests;
