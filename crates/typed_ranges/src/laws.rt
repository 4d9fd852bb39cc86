// The law of typed programs. It is a fact about the definitions, which a caller learns by calling the function.
ghost use Rattle.typed_ranges.specs.Laws.{TypedInRangeLaw};

/// The bodies of a typed program are in range as trees, where the exceptions that its statements name are there, the locals that
/// get what comes have numbers one behind the other, and modules and regions stand among the items of a body alone.
pub fn typed_in_range_law()
    ensures { TypedInRangeLaw }
{}
