// Laws of the meaning. Each is a fact about the definitions, which a caller learns by calling the function.
ghost use Rattle.source_meaning.specs.Laws.{EnoughLaw};

/// As many turns and calls are looked at as a talk can come to.
pub fn enough_law()
    ensures { EnoughLaw }
{}
