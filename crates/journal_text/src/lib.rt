//! The text of a journal: written exactly, and read exactly or refused for the first line that can't stand there.
//!
//! It stands on `kernel_base`, whose events it tells, on `world_model`, whose ranges their numbers have, and on
//! `code_types`, which numbers exceptions.
#![tactic(auto)]

mod answers_read;
mod events_read;
mod fields_read;
mod fields_written;
mod kinds;
mod lists_read;
mod reading;
mod refusal;
mod requests_read;
mod unread;
mod writing;

pub use reading::{one_journal_law, read_journal};
pub use refusal::JournalRefusal;
pub use writing::write_journal;
