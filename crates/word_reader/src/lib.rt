//! What the words of a command line mean: `read_words` meets the definition `said`.
//!
//! A decision over the words comes first, and is exactly the definition; where they are a command, `clap` reads the same
//! words and gives what stands in them. It stands on `chill_base`; the top call stands on it.
#![tactic(auto)]

mod app;
mod command;
mod deciding;
mod number;
mod reading;
mod refusal;
mod word_reading;

pub use command::{Command, FileName};
pub use refusal::WordRefusal;
pub use word_reading::read_words;
