// Laws of elaborated expressions, statements and programs. Each is a fact about the definitions, which a caller learns by
// calling the function.
ghost use Rattle.expression_laws.specs.Exceptions.{ExceptionsLaw};
ghost use Rattle.expression_laws.specs.Exits.{ExitsLaw};
ghost use Rattle.expression_laws.specs.Expressions.{ExprThereLaw};
ghost use Rattle.expression_laws.specs.Named.{NodesNamedLaw, WellNamedLaw};
ghost use Rattle.expression_laws.specs.Nodes.{NodesLaw};
ghost use Rattle.expression_laws.specs.Placed.{MeetsOutsideLaw, RowsPlacedLaw};
ghost use Rattle.expression_laws.specs.Program.{ProgramThereLaw};
ghost use Rattle.expression_laws.specs.Statements.{ActionThereLaw, BodyThereLaw, HandlerThereLaw, StatementThereLaw};
ghost use Rattle.expression_laws.specs.Text.{TextElaboratedLaw};
ghost use Rattle.expression_laws.specs.Things.{NamesKnownLaw, ThingsLaw};

/// An expression in which nothing is told, and whose class is one of values, is there as it is elaborated.
pub fn expressions_law()
    ensures { ExprThereLaw }
{}

/// An action and a statement of which nothing is told are there as they are elaborated, and so are a body and a handler.
pub fn statements_law()
    ensures action { ActionThereLaw }
    ensures statement { StatementThereLaw }
    ensures body { BodyThereLaw }
    ensures handler { HandlerThereLaw }
{}

/// A program at none of whose nodes anything is told has an elaborated program; in a text that breaks no rule on names this
/// needs nothing more of bodies and EXITs.
pub fn program_law()
    ensures rows { ProgramThereLaw }
    ensures text { TextElaboratedLaw }
{}

/// Where the rows of definitions stand as a text has them, what names stand for is in the lists of the elaborated program:
/// locations and other places of values, events, buffers, signals and bodies. So all is known of a name that elaborated
/// expressions need, where the ground tells what it does of the names of a text. In a text in which no event and no buffer is
/// declared in a body the rows stand so, and none is where nothing is told of processes.
pub fn names_law()
    ensures things { ThingsLaw }
    ensures known { NamesKnownLaw }
    ensures placed { RowsPlacedLaw }
    ensures outside { MeetsOutsideLaw }
{}

/// Each exception of a text has its number.
pub fn exceptions_law()
    ensures { ExceptionsLaw }
{}

/// In a text that breaks no rule on names each EXIT has the label of an action around it.
pub fn exits_law()
    ensures { ExitsLaw }
{}

/// Each definition of a text stands at nodes of it: a declaration, the control of a loop, what is received, and the nodes of a
/// body.
pub fn nodes_law()
    ensures { NodesLaw }
{}

/// In a text that breaks no rule on names these stand for what they have to at its nodes; so its expressions are as a text has
/// them, where nothing is told of processes.
pub fn named_law()
    ensures named { NodesNamedLaw }
    ensures well { WellNamedLaw }
{}
