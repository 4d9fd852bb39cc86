// A law of what names lead to. It is a fact about the definitions, which a caller learns by calling the function.
ghost use Rattle.reached_laws.specs.Reached.{ReachedLaw};

/// In a text that breaks no rule on names and on processes a name in a body leads to no local of another body, and to what a
/// region keeps only inside the region.
pub fn reached_law()
    ensures { ReachedLaw }
{}
