// Talks of guarded code. Each is a fact about the definitions.
ghost use Rattle.code_safety.specs.Talks.{TalkExistsLaw, TalkPrefixLaw};

/// Whatever is started, and whatever is answered, guarded code has a talk.
pub fn talk_exists_law()
    ensures { TalkExistsLaw }
{}

/// With further answers and more ticks a talk begins as before.
pub fn talk_prefix_law()
    ensures { TalkPrefixLaw }
{}
