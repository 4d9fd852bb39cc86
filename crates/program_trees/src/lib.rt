//! Checked programs as trees of definitions, without where they lie in memory: what `elaborated` gives of a text, and what
//! the meaning of texts and the scheme of the compiler speak of.
//!
//! The crate has definitions alone. It stands on `checked_program`.
#![tactic(auto)]
