//! Which rules a program breaks in its modes and constants, its statements and its processes: the definitions of these
//! rules, of the lists of these phases, and of what is told of a text (Z.200, chapters on modes, values, actions and
//! concurrent execution).
//!
//! The definitions are the files of `specs/`. It stands on `names_model`, which says what names stand for, and on `modes`
//! and `layout_map`, whose tests the rules ask.
#![tactic(auto)]

mod laws;

pub use laws::tests_law;
