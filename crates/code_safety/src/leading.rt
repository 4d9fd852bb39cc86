// What a single move leads to, and a single answer. Each is a fact about the definitions.
ghost use Rattle.code_safety.specs.Leading.{AnswerLeadsLaw, MoveLeadsLaw, NoMoveLeadsLaw};

/// A move leads to the state that it makes; one that asks leaves the process waiting for the answer.
pub fn move_leads_law()
    ensures { MoveLeadsLaw }
{}

/// An answer that fits leads to the state that it leaves.
pub fn answer_leads_law()
    ensures { AnswerLeadsLaw }
{}

/// Without a move a state leads to itself.
pub fn no_move_leads_law()
    ensures { NoMoveLeadsLaw }
{}
