// Why a part of a program has no code.
use chill_base::Memory;

/// Why a part of a program has no code.
#[derive(Clone, Copy, Debug, PartialEq, Eq)]
pub enum PartRefusal {
    /// No memory was to be had.
    Memory,
}

impl From<Memory> for PartRefusal {
    ghost use Rattle.expr_gen.specs.declared.refusal.PartRefusal.TheVariants.{Memory};

    ghost from_gives = { λ _ e. e ≡ Memory };

    ghost use Rattle.std.specs.Prelude.{◌≡◌};

    fn from(_: Memory) -> PartRefusal {
        PartRefusal::Memory
    }
}
