//! The guard of the code: it accepts exactly the codes that agree, and hands every other back.
//!
//! It meets `Agrees` of `code_types`, and stands between the compiler and the machine: a `Guarded` code never meets a
//! missing operand, a local outside its frame or a place outside the code.
#![tactic(auto)]

mod bodies;
mod effects;
mod guarded;
mod heights;
mod instructions;
mod meeting;

pub use guarded::{GuardRefusal, Guarded, guard};
