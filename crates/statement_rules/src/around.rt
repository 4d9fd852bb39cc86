// What the rules on a statement ask of the body that it stands in.
ghost use Rattle.std.specs.Prelude.{◌≡◌};
ghost use Rattle.checks_model.specs.ActionRules.{not_allowed, result_receiver};
ghost use Rattle.checks_model.specs.Phases.{returning_of};
ghost use Rattle.expr_rules.specs.Views.{receiver_tree};
ghost use Rattle.statement_rules.specs.Grounds.{ground_at, IsGrounded};
ghost use Rattle.statement_rules.specs.Views.{around_tree, returning_tree};

use crate::walk::Statements;
use chill_tree::tree::Procedure;
use expr_rules::Receiver;
use modes::Mode;
use std::rc::Rc;

/// What a statement stands in.
#[derive(Clone, Copy)]
pub enum Around<'r> {
    /// A procedure, or its handler.
    Procedure(&'r Procedure),
    NoProcedure,
}

/// What the body that a statement stands in gives back.
#[derive(Clone, Copy)]
pub enum Returning<'r> {
    /// It is no procedure.
    NoProcedure,
    /// A procedure without RETURNS.
    NoValue,
    /// A procedure that returns a value of the mode, where that is there.
    Value(Option<&'r Rc<Mode>>),
}

impl<'r> Returning<'r> {
    /// What receives a value that is given back. Where none may be, that is told by itself.
    pub fn receiver(&self) -> Receiver<'r>
        ensures { receiver_tree result ≡ result_receiver (returning_tree self.now) }
    {
        match self {
            Returning::Value(mode) => Receiver::Mode(*mode),
            Returning::NoProcedure | Returning::NoValue => Receiver::Mode(None),
        }
    }
}

/// Rule S9: RETURN outside a procedure, or a value in RETURN or RESULT where none is returned.
pub fn is_not_allowed(returning: Returning<'_>, has_value: bool) -> bool
    ensures { result ≡ not_allowed (returning_tree returning.entry) has_value }
{
    match returning {
        Returning::NoProcedure => true,
        Returning::NoValue => has_value,
        Returning::Value(_) => false,
    }
}

impl<'a, 'b> Statements<'a, 'b> {
    /// What is given back by what a statement stands in.
    pub fn returning_of(&self, around: Around<'_>) -> Returning<'b>
        ensures { IsGrounded self.now → returning_tree result ≡ returning_of (ground_at self.now) (around_tree around.entry) }
    {
        match around {
            Around::NoProcedure => Returning::NoProcedure,
            Around::Procedure(own) => match &own.returns {
                None => Returning::NoValue,
                Some(_) => Returning::Value(self.walk.evaluation.mode_defined(&own.name)),
            },
        }
    }
}
