//! Shows a journal to watchers, drops those that refuse one of its events, and has the program's two watchers, which count.
//!
//! Watchers are shown as folds over the events. It stands on `outside_ports`, whose trait says what a watcher is, and
//! below `chill_top`.
#![tactic(auto)]

mod event_counter;
mod region_counter;
mod show;
mod text;

pub use event_counter::EventCounter;
pub use region_counter::RegionCounter;
pub use show::{Shown, show_all, tell_all};
