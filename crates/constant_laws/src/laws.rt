// Laws of the values of constants. Each is a fact about the definitions, which a caller learns by calling the function.
ghost use Rattle.constant_laws.specs.Constants.{ConstantFitsLaw};
ghost use Rattle.constant_laws.specs.Text.{NamesFitLaw};

/// The value of a constant in which nothing is told is one of its class's mode: within its bounds, and of as many members and
/// parts. Of each name of a text that breaks no rule on modes and constants all is known that this needs, where its synonyms
/// have bytes.
pub fn constants_law()
    ensures fits { ConstantFitsLaw }
    ensures names { NamesFitLaw }
{}
