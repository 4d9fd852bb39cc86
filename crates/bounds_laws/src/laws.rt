// The law of own bounds. It is a fact about the definitions, which a caller learns by calling the function.
ghost use Rattle.code_laws.specs.Talk.{WithinLaw};

/// With arguments and answers that fit each value along the talk of a typed program lies in its own bounds.
pub fn within_law()
    ensures { WithinLaw }
{}
