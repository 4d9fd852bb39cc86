// Laws of runs. Each is a fact about the definitions, which a caller learns by calling the function.
ghost use Rattle.run_laws.specs.Laws.{BirthsLaw, CodeRunLaw, FollowsLaw, HeldRegionsLaw, ReachedLaw};

/// What a process reaches begins its talk, whatever is answered behind.
pub fn reached_law()
    ensures { ReachedLaw }
{}

/// An instance whose line is reached with some of its answers follows the code.
pub fn follows_law()
    ensures { FollowsLaw }
{}

/// Each instance of a journal was born as the world has it; one that wasn't made did nothing.
pub fn births_law()
    ensures { BirthsLaw }
{}

/// A journal that is allowed is a run of the code, where each instance has reached what it did.
pub fn code_run_law()
    ensures { CodeRunLaw }
{}

/// An active process holds exactly the regions that its state has open, in order.
pub fn held_regions_law()
    ensures { HeldRegionsLaw }
{}
