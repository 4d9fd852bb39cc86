// Why there is no run.
ghost use Rattle.std.specs.Prelude.{◌≡◌};

use chill_base::Memory;

/// Something that a process asks, or an answer or a start that it is given, doesn't fit.
#[derive(Drop)]
pub struct Misfit;

/// Why there is no run.
#[derive(Drop)]
pub enum RunRefusal {
    /// The code doesn't suit the facts.
    Misfit,
    /// There was no memory.
    Memory,
}

impl From<Misfit> for RunRefusal {
    ghost use Rattle.serial_run.specs.declared.refusal.RunRefusal.TheVariants as refusals;

    ghost from_gives = { λ _ refusal. refusal ≡ refusals.Misfit };

    fn from(_: Misfit) -> RunRefusal {
        RunRefusal::Misfit
    }
}

impl From<Memory> for RunRefusal {
    ghost use Rattle.serial_run.specs.declared.refusal.RunRefusal.TheVariants as refusals;

    ghost from_gives = { λ _ refusal. refusal ≡ refusals.Memory };

    fn from(_: Memory) -> RunRefusal {
        RunRefusal::Memory
    }
}
