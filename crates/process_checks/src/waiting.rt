// What is told of priorities and of locations that take an instance, each only where nothing is told in it.
ghost use Rattle.std.specs.Prelude.{◌≡◌, ◌++◌, [], not, IfOk, OnOk, flat_map};
ghost use Rattle.chill_tree.specs.ExprTree.{expr_tree};
ghost use Rattle.checks_model.specs.Told.{is_none_told};
ghost use Rattle.met_names.specs.Facts.{told_source};
ghost use Rattle.met_names.specs.Sources.{over_expr};
ghost use Rattle.wait_exprs.specs.Waits.{set_of, priority_of};
ghost use Rattle.wait_exprs.specs.Views.{wait_tree, wait_trees};
ghost use Rattle.checks_model.specs.Classes.{class_of};
ghost use Rattle.checks_model.specs.Constants.{constant_of};
ghost use Rattle.checks_model.specs.ConstantRules.{told_needed};
ghost use Rattle.checks_model.specs.ProcessRules.{takes_instance};
ghost use Rattle.checks_model.specs.ValueRules.{place};
ghost use Rattle.wait_exprs.specs.Split.{told_wait};
ghost use Rattle.process_checks.specs.Telling.{could_be_told, IsToldMore};
ghost use Rattle.process_checks.specs.Waiting.{IsNeeded, AreNeeded, misfits_as_priority};
ghost use Rattle.process_checks.specs.Asked.{ground_for, IsWaiting};

use crate::rules::{is_no_instance_location, is_priority_out_of_limits};
use chill_base::Memory;
use chill_tree::tree::Expr;
use constant_operators::Evaluation;
use constant_rules::known;
use definition_origins::{CheckRule, Told};
use expr_rules::Walk;
use met_names::Meetings;
use wait_exprs::Wait;

/// What priorities and locations are asked against.
#[derive(Clone, Copy)]
pub struct Waiting<'a, 'b> {
    pub evaluation: &'b Evaluation<'a>,
    pub meetings: &'b Meetings<'b>,
}

impl<'a, 'b> Waiting<'a, 'b> {
    /// Rule P6 of each priority, rule P7 of each location to be set.
    pub fn tell_waits(&self, waits: &[Wait<'_>], told: &mut Told) -> Result<(), Memory>
        ensures more { OnOk result (IsToldMore (flat_map (could_be_told self.now.meetings.now) (wait_trees waits.now)) told.old told.new) }
        ensures exact { IsWaiting self.now → AreNeeded (ground_for self.now) (wait_trees waits.now) → OnOk result (told.new ≡ told.old ++ flat_map (told_wait (ground_for self.now)) (wait_trees waits.now)) }
    {
        for wait in waits {
            self.tell_wait(*wait, told)?;
        }
        Ok(())
    }

    fn tell_wait(&self, wait: Wait<'_>, told: &mut Told) -> Result<(), Memory>
        ensures more { OnOk result (IsToldMore (could_be_told self.now.meetings.now (wait_tree wait.entry)) told.old told.new) }
        ensures exact { IsWaiting self.now → IsNeeded (ground_for self.now) (wait_tree wait.entry) → OnOk result (told.new ≡ told.old ++ told_wait (ground_for self.now) (wait_tree wait.entry)) }
    {
        match wait {
            Wait::Priority(priority) => self.tell_priority(priority, told),
            Wait::Set(set) => self.tell_set(set, told),
        }
    }

    // Whether nothing is told in an expression.
    fn is_clean(&self, expr: &Expr) -> Result<bool, Memory>
        ensures inside { IfOk result (λ clean. clean ≡ is_none_told (over_expr (told_source self.now.meetings.now) (expr_tree expr.now))) }
    {
        let mut told = Told::new(self.evaluation.alloc);
        self.meetings.tell_in(expr, &mut told)?;
        Ok(told.into_list().is_empty())
    }

    #[tactic(auto, using(process_names::proofs::Phase::source_told))]
    fn tell_priority(&self, priority: &Expr, told: &mut Told) -> Result<(), Memory>
        ensures more { OnOk result (IsToldMore (could_be_told self.now.meetings.now (priority_of (expr_tree priority.now))) told.old told.new) }
        ensures exact { IsWaiting self.now → IsNeeded (ground_for self.now) (priority_of (expr_tree priority.now)) → OnOk result (told.new ≡ told.old ++ told_wait (ground_for self.now) (priority_of (expr_tree priority.now))) }
    {
        if !self.is_clean(priority)? {
            return Ok(());
        }
        if !self.is_out_of_limits(priority)? {
            return Ok(());
        }
        told.tell(CheckRule::P6, priority.at())
    }

    #[tactic(auto, using(process_names::proofs::Phase::source_told))]
    fn tell_set(&self, set: &Expr, told: &mut Told) -> Result<(), Memory>
        ensures more { OnOk result (IsToldMore (could_be_told self.now.meetings.now (set_of (expr_tree set.now))) told.old told.new) }
        ensures exact { IsWaiting self.now → IsNeeded (ground_for self.now) (set_of (expr_tree set.now)) → OnOk result (told.new ≡ told.old ++ told_wait (ground_for self.now) (set_of (expr_tree set.now))) }
    {
        if !self.is_clean(set)? {
            return Ok(());
        }
        if !self.takes_no_instance(set)? {
            return Ok(());
        }
        told.tell(CheckRule::P7, set.at())
    }

    // The phase of modes and constants told what is told here, which is nothing.
    #[tactic(auto, using(crate::proofs::Needed::needed))]
    fn is_out_of_limits(&self, priority: &Expr) -> Result<bool, Memory>
        ensures { IsWaiting self.now → told_needed (ground_for self.now) (expr_tree priority.now) ≡ [] → IfOk result (λ out. out ≡ misfits_as_priority (class_of (ground_for self.now) (expr_tree priority.now)) (constant_of (ground_for self.now) (expr_tree priority.now))) }
    {
        let mut told_before = Told::new(self.evaluation.alloc);
        let known = known(self.evaluation, priority, &mut told_before)?;
        Ok(is_priority_out_of_limits(&known, &self.evaluation.plain.int))
    }

    fn takes_no_instance(&self, set: &Expr) -> Result<bool, Memory>
        ensures { IsWaiting self.now → IfOk result (λ none. none ≡ not (takes_instance (place (ground_for self.now) (expr_tree set.now)))) }
    {
        let walk = Walk {
            evaluation: self.evaluation,
        };
        let located = walk.place(set)?;
        Ok(is_no_instance_location(&located))
    }
}
