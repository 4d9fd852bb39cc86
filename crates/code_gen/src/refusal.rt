// Why a program has no code or no facts.
ghost use Rattle.std.specs.Prelude.{◌≢◌};

use chill_base::Memory;
use expr_gen::PartRefusal;

/// Why a program has no code.
#[derive(Clone, Copy, Debug, PartialEq, Eq)]
pub enum CodeRefusal {
    /// The size of its text is above 65,536.
    CodeTooLong,
    /// No memory was to be had.
    Memory,
}

/// Why a program has no code of which a part has none.
pub fn refusal_of(refusal: PartRefusal) -> CodeRefusal
    ensures { result ≢ CodeRefusal.CodeTooLong }
{
    match refusal {
        PartRefusal::Memory => CodeRefusal::Memory,
    }
}

/// Why a program has no facts.
#[derive(Clone, Copy, Debug, PartialEq, Eq)]
pub enum FactsRefusal {
    /// A location has no layout.
    NoLayout,
    /// No memory was to be had.
    Memory,
}

impl From<Memory> for FactsRefusal {
    ghost use Rattle.code_gen.specs.declared.refusal.FactsRefusal.TheVariants.{Memory};

    ghost from_gives = { λ _ e. e ≡ Memory };

    ghost use Rattle.std.specs.Prelude.{◌≡◌};

    fn from(_: Memory) -> FactsRefusal {
        FactsRefusal::Memory
    }
}
