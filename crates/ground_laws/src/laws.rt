// Laws of the ground. Each is a fact about the definitions, which a caller learns by calling the function.
ghost use Rattle.ground_laws.specs.Rows.{EachUseLaw, EachRowLaw};
ghost use Rattle.ground_laws.specs.Defining.{OriginsLaw};

/// In a program whose names break no rule, each use has a row: at its place the list of the uses has the one definition that
/// the reach of the use sees. The list has nothing else.
pub fn rows_law()
    ensures uses { EachUseLaw }
    ensures rows { EachRowLaw }
{}

/// What a program's definitions are defined by stands under their numbers.
pub fn origins_law()
    ensures { OriginsLaw }
{}
