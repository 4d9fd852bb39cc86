//! Laws of compiled code: it agrees, has the text's talks where arguments and answers fit, and has the text's runs.
//!
//! The crate has definitions and laws. It joins `body_code_laws`, `bounds_laws` and `scheme_heights` with `text_laws`.
#![tactic(auto)]

mod laws;

pub use laws::{compilable_agrees_law, compiled_runs_law, compiled_talks_law};
