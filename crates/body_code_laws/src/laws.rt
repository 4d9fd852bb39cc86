// Laws of the code of bodies. Each is a fact about the definitions, which a caller learns by calling the function.
ghost use Rattle.body_code_laws.specs.Initialisations.{InitialisationsJoined, RaisesKnown, ReturnsNever};
ghost use Rattle.body_code_laws.specs.Items.{ItemsLaw};
ghost use Rattle.body_code_laws.specs.PlainBodies.{BodiesJoined, PlainBodiesLaw};
ghost use Rattle.code_laws.specs.Talk.{BodiesLaw};

/// Statements and modules with their handlers act as they mean, where the regions among them do.
pub fn items_law()
    ensures { ItemsLaw }
{}

/// The bodies of the code of a program that initialises no region do what they mean, critical procedures among them.
pub fn plain_bodies_law()
    ensures { PlainBodiesLaw }
{}

/// The bodies of the code of any program do, where each exception that the code of statements raises is one of the program.
pub fn bodies_joined()
    ensures { BodiesJoined }
{}

/// The initialisations of a region act as they mean, where each exception that their code raises is one of the program.
pub fn initialisations_joined()
    ensures { InitialisationsJoined }
{}

/// Statements that are typed outside procedures never return.
pub fn returns_never_law()
    ensures { ReturnsNever }
{}

/// Each exception that the code of statements with their handler raises is one of the program.
pub fn raises_known_law()
    ensures { RaisesKnown }
{}

/// The bodies of the code of any program that may be compiled do what they mean, as code that agrees.
pub fn bodies_law()
    ensures { BodiesLaw }
{}
