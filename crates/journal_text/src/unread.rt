// Why what stands at the front of bytes isn't read.
ghost use Rattle.std.specs.Prelude.{◌≡◌};
ghost use Rattle.journal_text.specs.declared.unread.Unread.TheVariants as faults;

use chill_base::Memory;
use std::alloc::{AllocError, AllocFailed};

/// Why it isn't read.
#[derive(Clone, Copy, PartialEq, Eq)]
pub(crate) enum Unread {
    /// It can't stand there.
    NoEvent,
    Memory,
}

impl From<AllocError> for Unread {
    ghost from_gives = { λ _ e. e ≡ faults.Memory };

    fn from(_: AllocError) -> Unread {
        Unread::Memory
    }
}

impl<T: Drop> From<AllocFailed<T>> for Unread {
    ghost from_gives = { λ _ e. e ≡ faults.Memory };

    fn from(_: AllocFailed<T>) -> Unread {
        Unread::Memory
    }
}

impl From<Memory> for Unread {
    ghost from_gives = { λ _ e. e ≡ faults.Memory };

    fn from(_: Memory) -> Unread {
        Unread::Memory
    }
}
