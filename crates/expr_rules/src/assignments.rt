// Assignments, and the rules on them (Z.200, chapter on actions).
ghost use Rattle.std.specs.Prelude.{◌≡◌, ◌++◌, OnOk};
ghost use Rattle.chill_tree.specs.ExprTree.{expr_tree};
ghost use Rattle.expr_rules.specs.Grounds.{ground_in, HasItsGround};
ghost use Rattle.expr_rules.specs.Steps.{assignment_told, update_told};

use crate::receiving::Receiver;
use crate::surroundings::Walk;
use chill_base::{Memory, Pos};
use chill_tree::tree::{Expr, Operator};
use definition_origins::Told;

impl<'a, 'b> Walk<'a, 'b> {
    /// Tells what an assignment breaks.
    #[tactic(auto, using(crate::proofs::Gates::gates))]
    pub fn assignment(&self, target: &Expr, value: &Expr, told: &mut Told) -> Result<(), Memory>
        ensures { HasItsGround self.now → OnOk result (told.new ≡ told.old ++ assignment_told (ground_in self.now) (expr_tree target.now) (expr_tree value.now)) }
    {
        let located = self.target(target, told)?;
        let _ = self.value(value, located.receiver(), told)?;
        Ok(())
    }

    /// Tells what an assignment with an operator breaks, which stands at a sign: rule S1 goes by the classes of both sides.
    #[tactic(auto, using(crate::proofs::Gates::gates))]
    pub fn update(
        &self,
        target: &Expr,
        operator: Operator,
        sign: Pos,
        value: &Expr,
        told: &mut Told,
    ) -> Result<(), Memory>
        ensures { HasItsGround self.now → OnOk result (told.new ≡ told.old ++ update_told (ground_in self.now) (expr_tree target.now) operator sign (expr_tree value.now)) }
    {
        let located = self.target(target, told)?;
        let known = self.value(value, Receiver::Nothing, told)?;
        let _ = self.between(operator, sign, &located.class()?, &known.class, told)?;
        Ok(())
    }
}
