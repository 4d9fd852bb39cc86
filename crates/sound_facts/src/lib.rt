//! Whether facts are sound, so that a run may start from them: it is decided before each run.
//!
//! It meets `IsSound` of `kernel_base`. It stands on `world_check`, which tells the scalars of a value, between the facts
//! that the compiler makes and the run that the top call starts.
#![tactic(auto)]

mod deciding;
mod layouts;
mod powersets;

pub use deciding::are_sound;
