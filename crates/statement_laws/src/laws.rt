// Laws of what is told. Each is a fact about the definitions, which a caller learns by calling the function.
ghost use Rattle.statement_laws.specs.Laws.{BracketedLaw, ExceptionsLaw, BodyLaw, SameReceiverLaw, NoReceiversLaw, AlikeLaw, MessagesLaw};

/// What is told at the nodes of an action that holds others is told in what it evaluates first, in what it holds and in its
/// ELSE; in those of a handler's alternatives, alternative by alternative; and in those of a body, part by part.
#[tactic(auto, using(crate::proofs::Statements::bracketed_told, crate::proofs::Statements::exceptions_told, crate::proofs::Statements::body_more))]
pub fn statements_law()
    ensures bracketed { BracketedLaw }
    ensures exceptions { ExceptionsLaw }
    ensures body { BodyLaw }
{}

/// Arguments that all go to one receiver, or have none, are told of one by one.
#[tactic(auto, using(crate::proofs::Arguments::args_same, crate::proofs::Arguments::args_none))]
pub fn arguments_law()
    ensures same { SameReceiverLaw }
    ensures none { NoReceiversLaw }
{}

/// Where its receiver has no mode, the same is told in an expression whatever receives it.
#[tactic(auto, using(crate::proofs::Arguments::alike))]
pub fn receivers_law()
    ensures { AlikeLaw }
{}

/// The parts of a message are those of the signal, or the one of the buffer.
#[tactic(auto, using(crate::proofs::Arguments::messages))]
pub fn messages_law()
    ensures { MessagesLaw }
{}
