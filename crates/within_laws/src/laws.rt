// The law of names in bodies: a fact about the definitions, which a caller learns by calling the function.
ghost use Rattle.within_laws.specs.Within.{WithinLaw};

/// In a text that breaks no rule on names a name that is used at a node of a body stands for no local of another body; what
/// is defined at its nodes is one of its own, and numbered in their order.
pub fn within_law()
    ensures { WithinLaw }
{}
