// Why a text isn't read as a journal.
ghost use Rattle.std.specs.Prelude.{◌≡◌};
ghost use Rattle.journal_text.specs.declared.refusal.JournalRefusal.TheVariants as refusals;

use std::alloc::{AllocError, AllocFailed};
use thiserror::Error;

/// Why a text isn't read as a journal.
#[derive(Debug, Clone, Copy, PartialEq, Eq, Error)]
pub enum JournalRefusal {
    /// The first line that can't stand there, counted from 1. It may be missing.
    #[error("journal line {line}: no event")]
    BadLine { line: u32 },
    #[error("out of memory")]
    Memory,
}

impl From<AllocError> for JournalRefusal {
    ghost from_gives = { λ _ e. e ≡ refusals.Memory };

    fn from(_: AllocError) -> JournalRefusal {
        JournalRefusal::Memory
    }
}

impl<T: Drop> From<AllocFailed<T>> for JournalRefusal {
    ghost from_gives = { λ _ e. e ≡ refusals.Memory };

    fn from(_: AllocFailed<T>) -> JournalRefusal {
        JournalRefusal::Memory
    }
}
