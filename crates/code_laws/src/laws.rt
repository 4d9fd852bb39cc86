// Laws of compiled code. Each is a fact about the definitions, which a caller learns by calling the function.
ghost use Rattle.code_laws.specs.Operators.{PrefixLaw, RoutineLaw};
ghost use Rattle.code_laws.specs.Expressions.{ExprLaw};
ghost use Rattle.code_laws.specs.Calls.{CallLaw};
ghost use Rattle.code_laws.specs.Bodies.{BeginsLaw, SkipsLaw, GivesBackLaw};
ghost use Rattle.code_laws.specs.Leaving.{LeavesLaw};
ghost use Rattle.code_laws.specs.Loops.{LoopLaw};
ghost use Rattle.code_laws.specs.Regions.{RaisedAgainLaw};
ghost use Rattle.code_laws.specs.Assembly.{EndsLaw, LawOfAssembly, SameRunsLaw};
ghost use Rattle.code_laws.specs.Talk.{TalkJoined};

/// Operators of one operand.
pub fn prefix_law()
    ensures { PrefixLaw }
{}

/// Routines of one argument.
pub fn routine_law()
    ensures { RoutineLaw }
{}

/// The instructions of an expression follow its meaning.
pub fn expr_law()
    ensures { ExprLaw }
{}

/// So does a call, once its arguments are on the stack.
pub fn call_law()
    ensures { CallLaw }
{}

/// A part that names a local in no place where it is set leaves it as it is.
pub fn leaves_law()
    ensures { LeavesLaw }
{}

/// The instructions of a loop follow its meaning, where those of its condition and of its actions follow theirs.
pub fn loop_law()
    ensures { LoopLaw }
{}

/// A body's frame comes to its first store.
pub fn begins_law()
    ensures { BeginsLaw }
{}

/// The declarations without a value with which a body begins change nothing.
pub fn skips_law()
    ensures { SkipsLaw }
{}

/// A procedure gives its result and its parameters back.
pub fn gives_back_law()
    ensures { GivesBackLaw }
{}

/// Each exception that can arise in a region is raised again behind its release.
pub fn raised_again_law()
    ensures { RaisedAgainLaw }
{}

/// A process ends behind its body, or with an exception that goes out of it.
pub fn ends_law()
    ensures { EndsLaw }
{}

/// A code whose bodies do what they mean has the program's talk.
pub fn law_of_assembly()
    ensures { LawOfAssembly }
{}

/// Of journals in which a code has the program's talk, its runs are the program's.
pub fn same_runs_law()
    ensures { SameRunsLaw }
{}

/// The code of a program has its talk, where its bodies do what they mean and each value lies in its own bounds.
pub fn talk_joined()
    ensures { TalkJoined }
{}
