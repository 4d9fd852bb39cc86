//! The world of all processes: which events are allowed in it and what they do, when a run is over, and the laws of a
//! journal.
//!
//! It stands on `chill_base` and `kernel_base` alone. The meaning of a text, the code and the kernel all stand on it.
#![tactic(auto)]

mod changes;
mod events;
mod input;
mod laws;
mod waiting;
mod world;

pub use input::{separators_len, word_len};
pub use laws::{
    each_value_once_law, freed_region_law, given_answers_law, one_occupant_law, over_law,
    prefix_law, priority_law, worked_journals,
};
pub use waiting::{
    Offer, Waiter, buffer_receiver, may_receive, number_at, number_for, signal_receiver, sleeper,
    sleeper_in,
};
pub use world::{PendingSignal, Phase, StoredValue, World};
