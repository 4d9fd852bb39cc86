// Why tokens have no tree.
use chill_base::{Memory, Pos};

/// Why tokens have no tree.
#[derive(Clone, Copy, Debug, PartialEq, Eq)]
pub enum ParseRefusal {
    /// The nesting is too deep at a token.
    TooDeep { at: Pos },
    /// A token doesn't fit, or the end of the tokens where no place is given.
    NoProgram { at: Option<Pos> },
    /// No memory was to be had.
    Memory,
}

impl From<Memory> for ParseRefusal {
    ghost use Rattle.expr_parser.specs.declared.refusal.ParseRefusal.TheVariants.{Memory};

    ghost from_gives = { λ _ e. e ≡ Memory };

    ghost use Rattle.std.specs.Prelude.{◌≡◌};

    fn from(_: Memory) -> ParseRefusal {
        ParseRefusal::Memory
    }
}
