// Laws of typed statements and bodies. Each is a fact about the definitions, which a caller learns by calling the function.
ghost use Rattle.body_laws.specs.Statements.{StatementTypedLaw, BodyTypedLaw, HandlerTypedLaw};
ghost use Rattle.body_laws.specs.Rows.{ProcedureTypedLaw, ProcessTypedLaw};

/// What a statement, a body or a handler is elaborated to, at none of whose nodes anything is told, is as its modes say; so is what
/// the body of a procedure or a process does.
pub fn body_law()
    ensures statements { StatementTypedLaw }
    ensures bodies { BodyTypedLaw }
    ensures handlers { HandlerTypedLaw }
    ensures procedures { ProcedureTypedLaw }
    ensures processes { ProcessTypedLaw }
{}
