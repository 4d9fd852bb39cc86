// A law of the facts of a program, which a caller learns by calling the function.
ghost use Rattle.facts_laws.specs.Laws.{FactsLaw};

/// The facts that are made of a typed program are those of its text, and each of its locations has a layout.
pub fn facts_law()
    ensures { FactsLaw }
{}
