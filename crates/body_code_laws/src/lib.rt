//! Laws by which the code of bodies follows their meaning: modules, processes and procedures.
//!
//! The crate has definitions and laws. It stands on `statement_code_laws`.
#![tactic(auto)]

mod laws;

pub use laws::{
    bodies_joined, bodies_law, initialisations_joined, items_law, plain_bodies_law,
    raises_known_law, returns_never_law,
};
