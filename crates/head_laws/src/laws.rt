// Laws of heads and rows. Each is a fact about the definitions, which a caller learns by calling the function.
ghost use Rattle.head_laws.specs.Few.{FewThingsLaw};
ghost use Rattle.head_laws.specs.Heads.{HeadsLaw};
ghost use Rattle.head_laws.specs.Parameters.{FormalsLaw, StartedLaw};

/// The heads of the bodies of an elaborated program, their locals and the rows of its locations, buffers and signals are those
/// of a typed program, where the text breaks no rule.
pub fn heads_law()
    ensures { HeadsLaw }
{}

/// The first locals of the body of a procedure have the modes of what its arguments go to, in order, and so have those of a
/// process.
pub fn parameters_law()
    ensures called { FormalsLaw }
    ensures started { StartedLaw }
{}

/// An elaborated program has at most 4,096 locations, events, buffers and signals, and one body more.
pub fn few_law()
    ensures { FewThingsLaw }
{}
