// Laws of visibility. Each is a fact about the definitions, which a caller learns by calling the function.
ghost use Rattle.names_laws.specs.Laws.{SeeingLaw, OneDefinitionLaw, ToldLaw, UpWithoutSeizesLaw, GivenWithoutSeizesLaw, NothingGrantedLaw};

/// The list of what is seen under a name has exactly the definitions of that name that the reach sees.
pub fn seeing_law()
    ensures { SeeingLaw }
{}

/// Where N1 is told nowhere in a program, each of its reaches sees at most one definition under a name; and it is told nowhere
/// exactly where it isn't among what is told of the program's names.
pub fn one_definition_law()
    ensures one { OneDefinitionLaw }
    ensures told { ToldLaw }
{}

/// What a modulion gives doesn't depend on what it seizes: it is the same without SEIZE statements, and granting a name that
/// the modulion hasn't from its parts enters nothing.
pub fn granting_back_law()
    ensures has { UpWithoutSeizesLaw }
    ensures gives { GivenWithoutSeizesLaw }
    ensures nothing { NothingGrantedLaw }
{}
