// The law of well made bodies: a fact about the definitions, which a caller learns by calling the function.
ghost use Rattle.well_made_laws.specs.WellMade.{WellMadeLaw};

/// In the elaborated program of a text that breaks no rule each loop of a body alone sets its counter, and the declarations of
/// a body name none of its parameters.
pub fn well_made_law()
    ensures { WellMadeLaw }
{}
