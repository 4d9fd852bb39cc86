// Laws of guarded code. Each is a fact about the definitions, which a caller learns by calling the function.
ghost use Rattle.code_safety.specs.Laws.{AnswerPreservationLaw, LeadPreservationLaw, ProgressAndPreservationLaw, ReachSafetyLaw, StartSafetyLaw};

/// A process that is started stands well.
pub fn start_safety_law()
    ensures { StartSafetyLaw }
{}

/// What stands well is never stuck, and comes to what stands well.
pub fn progress_and_preservation_law()
    ensures { ProgressAndPreservationLaw }
{}

/// An answer that fits leaves what stands well standing well.
pub fn answer_preservation_law()
    ensures { AnswerPreservationLaw }
{}

/// What leads from a state that stands well comes to one.
pub fn lead_preservation_law()
    ensures { LeadPreservationLaw }
{}

/// What a started process reaches stands well.
pub fn reach_safety_law()
    ensures { ReachSafetyLaw }
{}
