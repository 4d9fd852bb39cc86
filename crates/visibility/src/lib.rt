//! What each name of a program stands for, or the rules on names that it breaks: `resolve` meets the definition `Resolves`.
//!
//! It stands on `names_model`, whose definitions it meets, on `reach_parts` and `reach_walk`, which find the parts of a
//! program's reaches and what is told of them, and on the crates that tell what depends on itself and put diagnostics
//! into their one list. The checks of later phases stand on it: they have the numbers of definitions from it.
#![tactic(auto)]

mod finding;
mod locations;
mod refusal;
mod resolving;
mod selves;
mod surplus;

pub use refusal::Refusal;
pub use resolving::resolve;
