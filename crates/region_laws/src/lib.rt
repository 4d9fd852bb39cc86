//! Laws of regions in the runs of a text: an active process holds exactly the regions that its text has open, and a region's
//! locations are read and written by its occupant alone.
//!
//! The crate has definitions and laws. It stands on `source_meaning` and on `run_laws`.
#![tactic(auto)]

mod laws;

pub use laws::{asks_inside_law, region_locations_law, text_regions_law};
