//! The opening world in code, and the parts of the decision whether an event is allowed in a world: the ranges of its
//! numbers, who may ask and go on, and the answers to each kind of request but the receipt from buffers.
//!
//! It decides what `world_model` defines. `journal_check` puts the decisions together.
#![tactic(auto)]

mod choices;
mod flat;
mod going;
mod laws;
mod numbers;
mod opening;
mod pending;
mod ranges;
mod requests;

pub use choices::{continues, has_room, nobody_receives, sends_signal, sends_to_buffer};
pub use going::{is_active, may_ask, may_go};
pub use laws::sound_facts_law;
pub use numbers::{gets, next_number};
pub use opening::{have_few_members, opening_world};
pub use pending::{Receipt, is_value, no_signal_pends, receives_signal};
pub use ranges::event_in_range;
pub use requests::{
    are_equal, fails_with, is_done, is_full, is_taken, may_enter, reads, starts, tells_scalars,
};
