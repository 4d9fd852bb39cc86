//! What a reach of a program sees (Z.200, chapter on general semantic properties, visibility), said as a relation, and the
//! laws of visibility; and that the places of the uses and of the definitions in a program
//! rise.
//!
//! It stands on `names_model`, whose definitions of visibility are lists that compute, and on `rules_model`, whose grammar says
//! which tokens a program's tree has. The definitions to be read are the files of `specs/`; the functions here have no body,
//! and their contracts are the laws.
#![tactic(auto)]

mod laws;
mod rising;

pub use laws::{granting_back_law, one_definition_law, seeing_law};
pub use rising::rising_places_law;
