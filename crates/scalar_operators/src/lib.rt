//! What the operators and routines of the language make of the flat scalars of values: numbers of INT, truth values, texts
//! and powersets.
//!
//! The crate has definitions alone, and stands on nothing. By them constants are computed, and the meaning of texts is
//! told.
#![tactic(auto)]
