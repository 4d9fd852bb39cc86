//! A message sequence chart of a part of a journal, as SVG: a line for each instance, and a row for each event.
//!
//! It draws what the events say, of whatever events. It stands on `kernel_base`, whose events they are, and below the program
//! `journal_chart`.
#![tactic(auto)]

mod cast;
mod drawing;
mod labels;
mod lives;
mod marks;
mod names;
mod shapes;

pub use drawing::{MOST_EVENTS, draw};
pub use names::Names;
