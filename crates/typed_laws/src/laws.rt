// Laws of typed expressions. Each is a fact about the definitions, which a caller learns by calling the function.
ghost use Rattle.typed_laws.specs.Typed.{ExprTypedLaw};

/// What an expression is elaborated to, in which nothing is told, is of its class's mode: as many scalars, the bounds of the
/// mode's root, and an operation that gives its values, down to the smallest part.
pub fn typed_law()
    ensures expressions { ExprTypedLaw }
{}
