//! The law by which each value along the talk of a typed program lies in its own bounds, where arguments and answers fit.
//!
//! The crate has a law alone. It stands on `text_laws`, and on `code_laws`, which says what the law is.
#![tactic(auto)]

mod laws;

pub use laws::within_law;
