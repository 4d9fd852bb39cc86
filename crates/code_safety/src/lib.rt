//! Guarded code is never stuck: whatever a process of a code that agrees reaches, it stands well, and its next step finds what
//! it asks.
//!
//! The crate has definitions and laws. It stands on `code_guard`, and the machine stands on it.
#![tactic(auto)]

mod laws;
mod leading;
mod needs;
mod talks;
mod weights;

pub use laws::{
    answer_preservation_law, lead_preservation_law, progress_and_preservation_law,
    reach_safety_law, start_safety_law,
};
pub use leading::{answer_leads_law, move_leads_law, no_move_leads_law};
pub use needs::{enter_law, hold_law, land_law, make_law, placed_law, return_law};
pub use talks::{talk_exists_law, talk_prefix_law};
pub use weights::{fall_law, weight_law};
