// DO actions (Z.200, chapter on actions).
ghost use Rattle.std.specs.Prelude.{◌≡◌, ◌++◌, ◌||◌, not, OnOk, IfOk, option_map};
ghost use Rattle.chill_tree.specs.ExprTree.{expr_tree, boxed_expr, place_of};
ghost use Rattle.chill_tree.specs.SimpleTree.{control_tree};
ghost use Rattle.modes.specs.Form as forms;
ghost use Rattle.diagnostics.specs.declared.rule.Rule.TheVariants as rules;
ghost use Rattle.checks_model.specs.Alike.{is_int, class_is};
ghost use Rattle.checks_model.specs.Told.{tell_at, told_if, holds_of, holds_of_both};
ghost use Rattle.checks_model.specs.ValueRules as model;
ghost use Rattle.checks_model.specs.ActionRules.{clean, bounds_misfit, counter_of_both, told_step, told_control};
ghost use Rattle.expr_rules.specs.Views.{own_class, own_mode};
ghost use Rattle.statement_rules.specs.Grounds.{ground_at, IsGrounded};
ghost use Rattle.statement_rules.specs.Steps.{step_told};

use crate::choices::are_compatible;
use crate::walk::Statements;
use chill_base::Memory;
use chill_tree::tree::{Control, Expr};
use class_operators::{form_in, is_of_discrete};
use definition_origins::{CheckRule, Told};
use expr_rules::{Receiver, tell_if};
use modes::{Class, Form, Mode, form_of};
use std::rc::Rc;

impl<'a, 'b> Statements<'a, 'b> {
    /// What is told of what controls a loop.
    #[tactic(auto, using(crate::proofs::Lists::lists))]
    pub fn tell_control(&self, control: &Control, told: &mut Told) -> Result<(), Memory>
        ensures { IsGrounded self.now → OnOk result (told.new ≡ told.old ++ told_control (ground_at self.now) (control_tree control.now)) }
    {
        match control {
            Control::While { condition, .. } => {
                self.tell_value(condition, Receiver::Condition, told)
            }
            Control::Forever { .. } => Ok(()),
            Control::Members { set, condition, .. } => {
                self.tell_value(set, Receiver::Members, told)?;
                self.tell_some_value(condition, Receiver::Condition, told)
            }
            Control::Steps {
                start,
                step,
                end,
                condition,
                ..
            } => {
                let mode = self.tell_bounds(start, end, told)?;
                self.tell_step(step, &mode, told)?;
                self.tell_some_value(condition, Receiver::Condition, told)
            }
        }
    }

    // What is told of the start and the end of a loop; the mode of its counter, where they fit each other.
    #[tactic(auto, using(crate::proofs::Lists::lists))]
    fn tell_bounds(
        &self,
        start: &Expr,
        end: &Expr,
        told: &mut Told,
    ) -> Result<Option<Rc<Mode>>, Memory>
        ensures told { IsGrounded self.now → OnOk result (let g = ground_at self.now in let s = expr_tree start.now in let e = expr_tree end.now in
            told.new ≡ told.old ++ ((model.told_value g model.bound s ++ model.told_value g model.bound e) ++ told_if (holds_of_both bounds_misfit (clean g s) (clean g e)) (tell_at rules.S8 (place_of e)))) }
        ensures mode { IsGrounded self.now → IfOk result (λ m. own_mode m ≡ counter_of_both (clean (ground_at self.now) (expr_tree start.now)) (clean (ground_at self.now) (expr_tree end.now))) }
    {
        let first = self.tell_bound(start, told)?;
        let last = self.tell_bound(end, told)?;
        let _ = tell_if(
            bounds_misfit(&first.class, &last.class),
            CheckRule::S8,
            end.at(),
            told,
        )?;
        self.walk.mode_of_steps(&first.class, &last.class)
    }

    fn tell_step(
        &self,
        step: &Option<Box<Expr>>,
        counter: &Option<Rc<Mode>>,
        told: &mut Told,
    ) -> Result<(), Memory>
        ensures { IsGrounded self.now → OnOk result (told.new ≡ told.old ++ told_step (ground_at self.now) (own_mode counter.now) (option_map boxed_expr step.now)) }
    {
        match step {
            None => Ok(()),
            Some(step) => self.tell_own_step(step, counter, told),
        }
    }

    #[tactic(auto, using(crate::proofs::Lists::gates))]
    fn tell_own_step(
        &self,
        step: &Expr,
        counter: &Option<Rc<Mode>>,
        told: &mut Told,
    ) -> Result<(), Memory>
        ensures { IsGrounded self.now → OnOk result (told.new ≡ told.old ++ step_told (ground_at self.now) (own_mode counter.now) (expr_tree step.now)) }
    {
        let known = self.walk.value(step, Receiver::Nothing, told)?;
        if known.is_clean {
            let _ = tell_if(
                step_misfits(&known.class, counter),
                CheckRule::S8,
                step.at(),
                told,
            )?;
        }
        Ok(())
    }
}

// Rule S8 of two bounds that are discrete: they aren't compatible.
fn bounds_misfit(first: &Option<Class>, last: &Option<Class>) -> bool
    ensures { result ≡ holds_of_both bounds_misfit (own_class first.now) (own_class last.now) }
{
    match (first, last) {
        (Some(first), Some(last)) => {
            is_of_discrete(first) && is_of_discrete(last) && !are_compatible(first, last)
        }
        (Some(_), None) | (None, _) => false,
    }
}

// Rule S8 of a step: it isn't of INT, or the bounds fit each other and aren't.
fn step_misfits(step: &Option<Class>, counter: &Option<Rc<Mode>>) -> bool
    ensures { result ≡ (holds_of (λ c. not (class_is is_int c)) (own_class step.now) || holds_of (λ m. not (is_int (forms.form_of m))) (own_mode counter.now)) }
{
    is_of_another(step) || counts_another(counter)
}

// Whether a class isn't of INT.
fn is_of_another(class: &Option<Class>) -> bool
    ensures { result ≡ holds_of (λ c. not (class_is is_int c)) (own_class class.now) }
{
    match class {
        None => false,
        Some(class) => !matches!(form_in(class), Some(Form::Int)),
    }
}

// Whether a counter isn't of INT.
fn counts_another(counter: &Option<Rc<Mode>>) -> bool
    ensures { result ≡ holds_of (λ m. not (is_int (forms.form_of m))) (own_mode counter.now) }
{
    match counter {
        None => false,
        Some(mode) => !matches!(form_of(mode), Form::Int),
    }
}
