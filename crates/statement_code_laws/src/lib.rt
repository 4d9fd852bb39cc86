//! Laws by which the code of statements follows their meaning: what stands between two places acts as a construct means.
//!
//! The crate has definitions and laws. It stands on `code_laws`.
#![tactic(auto)]

mod laws;

pub use laws::{
    assignment_law, calling_law, condition_law, declaration_law, joining_law, leaving_law,
    looping_law, plain_law, requesting_law, statements_law,
};
