//! What it is that a machine follows the meaning of a part, and the laws of single instructions, requests, loops and handlers.
//!
//! The crate has definitions and laws. It stands on `source_meaning` and on the steps of `code_types`.
#![tactic(auto)]

mod laws;

pub use laws::{
    assign_law, check_law, contents_law, handled_law, index_law, instruction_law, labelled_law,
    request_law, turns_law,
};
