// The laws of what is told of a text. Each is a fact about the definitions, which a caller learns by calling the function.
ghost use Rattle.diagnosis_laws.specs.Lists.{OneListLaw, OneStatementGroundLaw, SomeListLaw};

/// A text that breaks no rule on names has one ground for the phases of statements and processes. So of a text with a tree
/// one list is told, its size left aside: that of the first phase in which it breaks a rule; and there is one.
pub fn diagnosis_law()
    ensures ground { OneStatementGroundLaw }
    ensures one { OneListLaw }
    ensures some { SomeListLaw }
{}
