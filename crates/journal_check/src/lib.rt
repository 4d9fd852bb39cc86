//! Which journals are allowed: whether an event is allowed in a world, and the first event of a list that isn't.
//!
//! It meets `IsAllowed` and `IsRun` of `world_model`, and stands on `world_check`, whose decisions it puts together.
//! Tests and a checker of given journals stand on it.
#![tactic(auto)]

mod asking;
mod journals;
mod offers;
mod receiving;

pub use asking::is_allowed;
pub use journals::allowed;
