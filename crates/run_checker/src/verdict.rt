// What is told of a list of events.
ghost use Rattle.std.specs.Prelude.{◌≡◌};

use chill_base::Memory;
use kernel_base::Over;

/// What a list of events is to a code.
#[derive(Drop)]
pub enum Verdict {
    /// A run: how many events there are, and how it is over, where it is over and wasn't before.
    Yes { count: u32, over: Option<Over> },
    /// None: the place, counted from 0, of the first event that no run has behind those before it.
    No { at: u32 },
}

/// Why a list of events isn't held against a code.
#[derive(Drop)]
pub enum CheckRefusal {
    /// It has more units than are held against a code.
    TooLong,
    /// There was no memory.
    Memory,
}

impl From<Memory> for CheckRefusal {
    ghost use Rattle.run_checker.specs.declared.verdict.CheckRefusal.TheVariants as refusals;

    ghost from_gives = { λ memory refusal. refusal ≡ refusals.Memory };

    fn from(_: Memory) -> CheckRefusal {
        CheckRefusal::Memory
    }
}
