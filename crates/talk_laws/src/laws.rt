// Laws of compiled code. Each is a fact about the definitions, which a caller learns by calling the function.
ghost use Rattle.talk_laws.specs.Laws.{CompilableAgreesLaw, CompiledRunsLaw, CompiledTalksLaw};

/// The code of a program that may be compiled agrees, in all that a guard asks.
pub fn compilable_agrees_law()
    ensures { CompilableAgreesLaw }
{}

/// The code of such a program has the text's talks, with arguments and answers that fit.
pub fn compiled_talks_law()
    ensures { CompiledTalksLaw }
{}

/// From the program's facts the runs of its code are the text's, and it suits these facts.
pub fn compiled_runs_law()
    ensures { CompiledRunsLaw }
{}
