// Laws of the code of statements. Each is a fact about the definitions, which a caller learns by calling the function.
ghost use Rattle.code_laws.specs.Statements.{StatementsLaw};
ghost use Rattle.statement_code_laws.specs.Conditions.{ConditionLaw};
ghost use Rattle.statement_code_laws.specs.Actions.{AssignmentLaw, CallingLaw, DeclarationLaw, LeavingLaw, PlainLaw, RequestingLaw};
ghost use Rattle.statement_code_laws.specs.StatementForms.{JoiningLaw, LoopsAct};

/// The instructions of a condition follow its meaning, and control goes where it has to.
pub fn condition_law()
    ensures { ConditionLaw }
{}

/// Values that are dropped or put out, ASSERT, CAUSE and STOP act as they mean.
pub fn plain_law()
    ensures { PlainLaw }
{}

/// So do assignments, with an operator and without.
pub fn assignment_law()
    ensures { AssignmentLaw }
{}

/// So do RESULT, RETURN and EXIT.
pub fn leaving_law()
    ensures { LeavingLaw }
{}

/// So do declarations, with a value and without.
pub fn declaration_law()
    ensures { DeclarationLaw }
{}

/// So do calls and starts whose values are dropped.
pub fn calling_law()
    ensures { CallingLaw }
{}

/// So do DELAY, CONTINUE and SEND.
pub fn requesting_law()
    ensures { RequestingLaw }
{}

/// What holds statements acts where these do: statements behind each other, BEGIN, IF, CASE, waits, labels and handlers.
pub fn joining_law()
    ensures { JoiningLaw }
{}

/// A DO acts where its actions do.
pub fn looping_law()
    ensures { LoopsAct }
{}

/// The instructions of all statements follow their meaning.
pub fn statements_law()
    ensures { StatementsLaw }
{}
