// A fact about the definitions, which a caller learns by calling the function.
ghost use Rattle.world_check.specs.Opening.{SoundFactsLaw};

/// Each powerset in the store of sound facts has no more members than its member mode has values, as the opening asks.
pub fn sound_facts_law()
    ensures { SoundFactsLaw }
{}
