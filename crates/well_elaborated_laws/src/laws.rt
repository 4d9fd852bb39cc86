// The law of well elaborated programs: a fact about the definitions, which a caller learns by calling the function.
ghost use Rattle.well_elaborated_laws.specs.WellElaborated.{WellElaboratedLaw};

/// The elaborated program of a text of bytes that breaks no rule and isn't too large is typed, has few bodies and few things,
/// its numbers are in range, and its bodies are well made.
pub fn well_elaborated_law()
    ensures { WellElaboratedLaw }
{}
