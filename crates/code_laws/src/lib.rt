//! Laws by which compiled code has the text's talk: expressions, calls, and the assembly of bodies.
//!
//! The crate has definitions and laws. It stands on `code_scheme` and `follow_laws`.
#![tactic(auto)]

mod laws;

pub use laws::{
    begins_law, call_law, ends_law, expr_law, gives_back_law, law_of_assembly, leaves_law,
    loop_law, prefix_law, raised_again_law, routine_law, same_runs_law, skips_law, talk_joined,
};
