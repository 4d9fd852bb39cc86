// The walk through the statements of a program, and the values in them.
ghost use Rattle.std.specs.Prelude.{◌≡◌, ◌++◌, IfOk, OnOk, option_map};
ghost use Rattle.chill_tree.specs.ExprTree.{expr_tree, boxed_expr};
ghost use Rattle.checks_model.specs.ValueRules.{told_value, told_some_value};
ghost use Rattle.checks_model.specs.ActionRules.{clean};
ghost use Rattle.checks_model.specs.ValueRules as model;
ghost use Rattle.checks_model.specs.Phases.{told_alone};
ghost use Rattle.expr_rules.specs.Views.{own_class, receiver_tree};
ghost use Rattle.statement_rules.specs.Grounds.{ground_at, IsGrounded};

use chill_base::Memory;
use chill_tree::tree::Expr;
use definition_origins::Told;
use expr_rules::{Classed, Receiver, Walk};

/// The walk through the statements of a program.
#[derive(Clone, Copy)]
pub struct Statements<'a, 'b> {
    /// What expressions are asked against.
    pub walk: Walk<'a, 'b>,
}

impl<'a, 'b> Statements<'a, 'b> {
    /// What is told of a value for what receives it.
    pub fn tell_value(
        &self,
        value: &Expr,
        receiver: Receiver<'_>,
        told: &mut Told,
    ) -> Result<(), Memory>
        ensures { IsGrounded self.now → OnOk result (told.new ≡ told.old ++ told_value (ground_at self.now) (receiver_tree receiver.entry) (expr_tree value.now)) }
    {
        let _ = self.walk.value(value, receiver, told)?;
        Ok(())
    }

    /// What is told of a value for what receives it, where there is one.
    pub fn tell_some_value(
        &self,
        value: &Option<Box<Expr>>,
        receiver: Receiver<'_>,
        told: &mut Told,
    ) -> Result<(), Memory>
        ensures { IsGrounded self.now → OnOk result (told.new ≡ told.old ++ told_some_value (ground_at self.now) (receiver_tree receiver.entry) (option_map boxed_expr value.now)) }
    {
        match value {
            None => Ok(()),
            Some(value) => self.tell_value(value, receiver, told),
        }
    }

    /// What is told of an expression that goes nowhere.
    pub fn tell_alone(&self, expr: &Expr, told: &mut Told) -> Result<(), Memory>
        ensures { IsGrounded self.now → OnOk result (told.new ≡ told.old ++ told_alone (ground_at self.now) (expr_tree expr.now)) }
    {
        self.tell_value(expr, Receiver::Nothing, told)
    }

    /// What is told of the selector of a CASE, and what is known of it.
    #[tactic(auto, using(statement_laws::proofs::Arguments::alike))]
    pub fn tell_selector(&self, selector: &Expr, told: &mut Told) -> Result<Classed, Memory>
        ensures told { IsGrounded self.now → OnOk result (told.new ≡ told.old ++ told_value (ground_at self.now) model.selector (expr_tree selector.now)) }
        ensures class { IsGrounded self.now → IfOk result (λ k. own_class k.class ≡ clean (ground_at self.now) (expr_tree selector.now)) }
    {
        self.walk.value(selector, Receiver::Selector, told)
    }

    /// What is told of the start or the end of a loop, and what is known of it.
    #[tactic(auto, using(statement_laws::proofs::Arguments::alike))]
    pub fn tell_bound(&self, bound: &Expr, told: &mut Told) -> Result<Classed, Memory>
        ensures told { IsGrounded self.now → OnOk result (told.new ≡ told.old ++ told_value (ground_at self.now) model.bound (expr_tree bound.now)) }
        ensures class { IsGrounded self.now → IfOk result (λ k. own_class k.class ≡ clean (ground_at self.now) (expr_tree bound.now)) }
    {
        self.walk.value(bound, Receiver::Bound, told)
    }
}
