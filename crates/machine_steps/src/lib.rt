//! The single steps of a process of a code.
//!
//! A process that is held is seen as a process of the code, and each step that it makes is the step of the definitions of
//! `code_types`. The machine stands on it.
#![tactic(auto)]

mod answering;
mod asking;
mod calls;
mod ending;
mod local;
mod operands;
mod process;
mod putting;
mod raising;
mod receiving;
mod regions;
mod requests;
mod room;
mod sending;
mod starting;
mod taking;

pub use process::{Doing, Process, RegionEntry, SlotEntry, Stepped};
pub use raising::landing;
pub use room::Room;
pub use starting::greatest_height;
