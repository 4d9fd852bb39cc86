//! The laws of what names in bodies stand for: a name that is used at a node of a body, or defined there, stands for no local
//! of another body, and what is defined there is numbered in the order of its nodes.
//!
//! It stands on `order_laws` and the law crates below it, and on `elaboration_model`, which says what local of which body a
//! definition is. The function here has no body, and its contract is the law. No crate needs it to run.
#![tactic(auto)]

mod laws;

pub use laws::within_law;
