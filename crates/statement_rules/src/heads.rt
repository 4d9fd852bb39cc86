// What is evaluated before the actions of an action that holds some (Z.200, chapters on actions and on concurrent execution).
ghost use Rattle.std.specs.Prelude.{◌≡◌, ◌++◌, ℕ, not, ◌==◌, OnOk, IfOk, option_map, length};
ghost use Rattle.chill_tree.specs.ExprTree.{boxed_expr};
ghost use Rattle.chill_tree.specs.StatementTree.{bracketed_tree};
ghost use Rattle.checks_model.specs.Told.{holds_of};
ghost use Rattle.checks_model.specs.ActionRules.{count_received, told_received_names};
ghost use Rattle.checks_model.specs.Sites.{at_set, at_priority, some_site};
ghost use Rattle.expr_rules.specs.Views.{own_class};
ghost use Rattle.statement_laws.specs.Steps.{told_at_all, evaluated_sites};
ghost use Rattle.statement_rules.specs.Grounds.{ground_at, IsGrounded};
ghost use Rattle.statement_rules.specs.Steps.{selector_class};

use crate::walk::Statements;
use chill_base::{List, Memory};
use chill_tree::tree::{Bracketed, Expr, Name};
use definition_origins::{CheckRule, Told};
use expr_rules::{Classed, Receiver, tell_if};

impl<'a, 'b> Statements<'a, 'b> {
    /// What is told of what is evaluated before the actions that an action holds. Of a selector this is known.
    #[tactic(auto, using(local_names::proofs::BodyViews::statement_views, crate::proofs::Lists::lists))]
    pub fn tell_evaluated(&self, action: &Bracketed, told: &mut Told) -> Result<Classed, Memory>
        ensures told { IsGrounded self.now → OnOk result (told.new ≡ told.old ++ told_at_all (ground_at self.now) (evaluated_sites (bracketed_tree action.now))) }
        ensures selector { IsGrounded self.now → IfOk result (λ k. own_class k.class ≡ selector_class (ground_at self.now) (bracketed_tree action.now)) }
    {
        match action {
            Bracketed::Case { selector, .. } => self.tell_selector(selector, told),
            Bracketed::If { condition, .. } => {
                self.tell_value(condition, Receiver::Condition, told)?;
                Ok(Classed::clean(None))
            }
            Bracketed::Do { control, .. } => {
                self.tell_control(control, told)?;
                Ok(Classed::clean(None))
            }
            Bracketed::Begin { .. } => Ok(Classed::clean(None)),
            Bracketed::DelayCase { set, priority, .. } => {
                self.tell_set(set, told)?;
                self.tell_priority(priority, told)?;
                Ok(Classed::clean(None))
            }
            Bracketed::ReceiveCase { set, .. } => {
                self.tell_set(set, told)?;
                Ok(Classed::clean(None))
            }
        }
    }

    // The location behind SET, whose indices alone are asked here.
    #[tactic(auto, using(crate::proofs::Lists::lists))]
    fn tell_set(&self, set: &Option<Box<Expr>>, told: &mut Told) -> Result<(), Memory>
        ensures { IsGrounded self.now → OnOk result (told.new ≡ told.old ++ told_at_all (ground_at self.now) (some_site at_set (option_map boxed_expr set.now))) }
    {
        match set {
            None => Ok(()),
            Some(set) => self.walk.tell_in_location(set, told),
        }
    }

    #[tactic(auto, using(crate::proofs::Lists::lists))]
    fn tell_priority(&self, priority: &Option<Box<Expr>>, told: &mut Told) -> Result<(), Memory>
        ensures { IsGrounded self.now → OnOk result (told.new ≡ told.old ++ told_at_all (ground_at self.now) (some_site at_priority (option_map boxed_expr priority.now))) }
    {
        match priority {
            None => Ok(()),
            Some(priority) => self.tell_alone(priority, told),
        }
    }

    /// The names that an alternative gives to what is received from a source.
    #[tactic(auto, using(crate::proofs::Lists::received))]
    pub fn tell_received(
        &self,
        source: &Name,
        received: &Option<List<Name>>,
        told: &mut Told,
    ) -> Result<(), Memory>
        ensures { IsGrounded self.now → OnOk result (told.new ≡ told.old ++ told_received_names (ground_at self.now) source.now received.now) }
    {
        let names = number_received(received);
        let parts = self.walk.number_of_parts(source);
        let _ = tell_if(
            has_wrong_number(names, parts),
            CheckRule::S5,
            source.at,
            told,
        )?;
        Ok(())
    }
}

fn number_received(received: &Option<List<Name>>) -> usize
    ensures { result ≡ count_received received.now }
{
    match received {
        None => 0,
        Some(names) => names.len(),
    }
}

// Rule S5 of a list of received names: there are more or fewer than a message has parts, where that is known.
fn has_wrong_number(names: usize, parts: Option<usize>) -> bool
    ensures { result ≡ holds_of (λ n. not (n == names)) parts }
{
    match parts {
        None => false,
        Some(parts) => parts != names,
    }
}
