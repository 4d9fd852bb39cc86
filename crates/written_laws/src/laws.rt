// Laws of what a text writes. Each is a fact about the definitions, which a caller learns by calling the function.
ghost use Rattle.written_laws.specs.Written.{DeclarationsLaw, DefinedSoLaw, PathsLaw, ShortTextsLaw, WrittenSoLaw};

/// The text literals in a text's expressions have at most 256 bytes, and what stands before a field and before brackets is a
/// name with parts; each declaration has a name. Where a text breaks no rule on names, what defines something in it is written as grammar, tokens and the
/// number of definitions allow: its SETs have at most 4,096 elements and its structures a field; and the elements of its SETs
/// are defined, and the names of the modes that SETs are the whole of.
pub fn written_law()
    ensures texts { ShortTextsLaw }
    ensures paths { PathsLaw }
    ensures declarations { DeclarationsLaw }
    ensures written { WrittenSoLaw }
    ensures defined { DefinedSoLaw }
{}
