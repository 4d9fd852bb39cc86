//! The operators of the code on single numbers and on powersets, the frames of the machine, and the instructions that stay in
//! their frame.
//!
//! Each call is the action that the definitions of `code_types` give its instruction. The machine stands on it.
#![tactic(auto)]

mod acting;
mod activation;
mod arithmetic;
mod leading;
mod moving;
pub mod numbers;
mod sets;
mod testing;

pub use acting::act;
pub use activation::{Acted, Activation};
