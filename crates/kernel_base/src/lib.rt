//! What the kernel and the processes of a program tell one another: values, the facts of a program, requests of processes
//! to the kernel, answers to them, and the events of a journal with their units.
//!
//! It stands on `chill_base`, and below the world of all processes and the code.
#![tactic(auto)]

mod answer;
mod ends;
mod event;
mod facts;
mod fitting;
mod request;
mod units;
mod value;

pub use answer::Answer;
pub use ends::{Exc, How, Over};
pub use event::{Event, Events};
pub use facts::Facts;
pub use fitting::fits;
pub use request::{Alternative, Alternatives, Place, Request};
pub use units::event_units;
pub use value::{ScalarKind, Value, Values};
