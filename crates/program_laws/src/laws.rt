// Laws of the elaborated program. Each is a fact about the definitions, which a caller learns by calling the function.
ghost use Rattle.program_laws.specs.Counters.{CountersThereLaw};
ghost use Rattle.program_laws.specs.Counts.{CountsLaw};
ghost use Rattle.program_laws.specs.Text.{ElaboratedThereLaw};

/// In a text that breaks no rule the counter of each loop has a mode.
pub fn counters_law()
    ensures { CountersThereLaw }
{}

/// A text that breaks no rule has an elaborated program.
pub fn program_law()
    ensures { ElaboratedThereLaw }
{}

/// An elaborated expression has as many scalars as a value of its class, and the bounds of the root of its class's mode.
pub fn counts_law()
    ensures { CountsLaw }
{}
