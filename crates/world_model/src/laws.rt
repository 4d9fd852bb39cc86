// The laws of a journal. Each is a fact about the definitions, which a caller learns by calling the function.
ghost use Rattle.world_model.specs.Examples.{WorkedJournals};
ghost use Rattle.world_model.specs.Laws.{PrefixLaw, OverLaw, PriorityLaw, OneOccupantLaw, FreedRegionLaw, GivenAnswersLaw, EachValueOnceLaw};

/// Of a journal that is allowed each prefix is one, and each event is allowed in the world that those before it leave.
pub fn prefix_law()
    ensures { PrefixLaw }
{}

/// Where nobody who was chosen can go on, either somebody is active or the run is over.
pub fn over_law()
    ensures { OverLaw }
{}

/// Wherever a process, a value, a signal or a sender was chosen by priority, no candidate had a higher one.
pub fn priority_law()
    ensures { PriorityLaw }
{}

/// Between two events that lock one region for different processes stands an event that frees it of the first.
pub fn one_occupant_law()
    ensures { OneOccupantLaw }
{}

/// A wait frees the region that was locked last, and the process does nothing before it has locked that region again.
pub fn freed_region_law()
    ensures { FreedRegionLaw }
{}

/// In a journal from sound facts each answer of an instance is one that can come for the request that it answers.
pub fn given_answers_law()
    ensures { GivenAnswersLaw }
{}

/// Each value that is got was sent by an earlier event, and no send number is got twice.
pub fn each_value_once_law()
    ensures { EachValueOnceLaw }
{}

/// Two journals by hand: a buffer of length 2 that is refilled, and a process that delays for ever.
pub fn worked_journals()
    ensures { WorkedJournals }
{}
