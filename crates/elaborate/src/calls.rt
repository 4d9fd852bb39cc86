// Calls that stand as actions (Z.200, chapter on actions; the routines for texts are our own choice).
use crate::elaboration::{Elaboration, boxed};
use checked_program::Action;
use chill_tree::tree;
use class_operators::is_measuring;
use expr_rules::{Callee, Receiver};
use value_elaboration::{Applied, ElaborationRefusal, Predefined};

impl<'a, 'b, 'c> Elaboration<'a, 'b, 'c> {
    /// The call of a procedure or routine.
    pub fn call_action(
        &self,
        name: &tree::Name,
        args: &[tree::Expr],
    ) -> Result<Box<Action>, ElaborationRefusal> {
        match self.values.walk.callee_named(name) {
            Callee::Procedure(name) => {
                let call = boxed(self.alloc(), self.values.call(name, args)?)?;
                self.boxed(Action::Call(call))
            }
            Callee::Routine(own) => self.routine_action(own, args),
            Callee::Nothing => Err(ElaborationRefusal::Unsound),
        }
    }

    // The call of a predefined routine.
    fn routine_action(
        &self,
        own: Predefined,
        args: &[tree::Expr],
    ) -> Result<Box<Action>, ElaborationRefusal> {
        match (own, args) {
            (Predefined::PutInt, [arg]) => {
                let value = self.values.value(arg, Receiver::Nothing)?;
                self.boxed(Action::PutInt(value))
            }
            (Predefined::PutText, [arg]) => {
                let value = self.values.value(arg, Receiver::Nothing)?;
                self.boxed(Action::PutText(value))
            }
            (Predefined::PutLine, _) => self.boxed(Action::PutLine),
            (Predefined::GetInt, _) => self.evaluated(own, args),
            (_, [arg]) if !is_measuring(own) => {
                let Applied { routine, argument } = self.values.applied(own, arg)?;
                self.boxed(Action::Routine { routine, argument })
            }
            _ => self.evaluated(own, args),
        }
    }

    // GET_INT, or UPPER, LOWER or SIZE.
    fn evaluated(
        &self,
        own: Predefined,
        args: &[tree::Expr],
    ) -> Result<Box<Action>, ElaborationRefusal> {
        let value = self.values.routine(own, args)?;
        self.boxed(Action::Evaluate(value))
    }
}
