// Why a program isn't elaborated.
use chill_base::Memory;

/// Why a program, or a part of one, isn't elaborated.
#[derive(Clone, Copy, Debug, PartialEq, Eq)]
pub enum ElaborationRefusal {
    /// No memory was to be had.
    Memory,
    /// The program breaks a rule: something that each program without a broken rule has isn't there.
    Unsound,
}

impl From<Memory> for ElaborationRefusal {
    ghost use Rattle.program_numbers.specs.declared.refusal.ElaborationRefusal.TheVariants.{Memory};

    ghost from_gives = { λ _ e. e ≡ Memory };

    ghost use Rattle.std.specs.Prelude.{◌≡◌};

    fn from(_: Memory) -> ElaborationRefusal {
        ElaborationRefusal::Memory
    }
}
