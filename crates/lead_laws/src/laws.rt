// Laws of what names lead to. Each is a fact about the definitions, which a caller learns by calling the function.
ghost use Rattle.lead_laws.specs.Leads.{NameLeadsLaw};

/// In the elaborated program of a text a name that is used leads to a location or a local of its mode, where what it names is
/// reached, to a buffer of its elements, to an event, or to a signal of its parts.
pub fn lead_law()
    ensures names { NameLeadsLaw }
{}
