// The law of programs in range. It is a fact about the definitions, which a caller learns by calling the function.
ghost use Rattle.range_laws.specs.Laws.{BodiesInRangeLaw};

/// The bodies of a program in range are in range as trees.
pub fn bodies_in_range_law()
    ensures { BodiesInRangeLaw }
{}
