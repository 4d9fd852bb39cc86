//! The law of the elaborated program of a text: where the text breaks no rule, it is typed (`IsTyped` of `source_meaning`).
//!
//! It stands on `body_laws`, by which statements and bodies are typed where their names stand for what they have to; on
//! `reached_laws`, by which names lead to what may be named; on `head_laws`, by which heads and rows are typed; and on
//! `made_laws`, by which shared locations have places. The functions here have no body, and their contracts are the laws. No
//! crate needs it to run.
#![tactic(auto)]

mod laws;

pub use laws::typed_program_law;
