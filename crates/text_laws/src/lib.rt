//! Laws of the runs of a text: its facts are sound, what its processes ask and get has the modes that the text gives it, and a
//! code with the text's talks where answers fit suits these facts and has the text's runs.
//!
//! The crate has definitions and laws. It stands on `source_meaning` and `run_laws`.
#![tactic(auto)]

mod laws;

pub use laws::{
    asks_fit_law, facts_are_sound_law, run_fits_law, same_runs_law, suits_law, talk_grows_law,
    world_keeps_law,
};
