// Laws of the steps. Each is a fact about the definitions, which a caller learns by calling the function.
ghost use Rattle.code_types.specs.Laws.{GivesLaw, LeadsOnLaw, OneTalkLaw};

/// A process of the code has one talk.
pub fn one_talk_law()
    ensures { OneTalkLaw }
{}

/// The test of an answer tells whether it can come for its request.
pub fn gives_law()
    ensures { GivesLaw }
{}

/// What leads from one state to a second, and from there to a third, leads from the first to the third.
pub fn leads_on_law()
    ensures { LeadsOnLaw }
{}
