//! What names decide of the rules on processes (Z.200, chapter on concurrent execution): what may stand in a region and what a
//! region grants, at what an action may meet its partners, and where events and buffers are declared.
//!
//! It stands on `met_names`, which says what processes meet at under names. The phase, which asks the rules on priorities and
//! on locations to be set besides, stands above it.
#![tactic(auto)]

mod actions;
mod granted;
mod items;
mod laws;
mod listed;
mod locals;
mod rules;
mod statements;

pub use items::tell_in_program;
pub use laws::names_law;
