// Actions that hold no others (Z.200, chapters on actions and on concurrent execution).
ghost use Rattle.std.specs.Prelude.{◌≡◌, ◌++◌, true, is_some, Some, OnOk, option_map};
ghost use Rattle.chill_tree.specs.ExprTree.{expr_tree, boxed_expr, expr_trees};
ghost use Rattle.chill_tree.specs.SimpleTree.{simple_tree};
ghost use Rattle.modes.specs.ModeTree.{instance};
ghost use Rattle.diagnostics.specs.declared.rule.Rule.TheVariants as rules;
ghost use Rattle.checks_model.specs.Ground.{message_parts};
ghost use Rattle.checks_model.specs.Told.{tell_at, told_if};
ghost use Rattle.checks_model.specs.ValueRules.{of_mode, told_value, told_some_value};
ghost use Rattle.checks_model.specs.ActionRules.{not_allowed, result_receiver, args_in, told_message, told_simple};
ghost use Rattle.checks_model.specs.Phases.{returning_of};
ghost use Rattle.statement_rules.specs.Grounds.{ground_at, IsGrounded};
ghost use Rattle.statement_rules.specs.Views.{around_tree};

use crate::around::{Around, is_not_allowed};
use crate::walk::Statements;
use chill_base::{List, Memory, Pos};
use chill_tree::tree::{Expr, Name, Simple};
use definition_origins::{CheckRule, Told};
use expr_rules::{Receiver, tell_if};

impl<'a, 'b> Statements<'a, 'b> {
    /// What is told of an action that holds no others.
    #[tactic(auto, using(crate::proofs::Lists::lists))]
    pub fn tell_in_simple(
        &self,
        action: &Simple,
        around: Around<'_>,
        told: &mut Told,
    ) -> Result<(), Memory>
        ensures { IsGrounded self.now → OnOk result (told.new ≡ told.old ++ told_simple (ground_at self.now) (returning_of (ground_at self.now) (around_tree around.entry)) (simple_tree action.now)) }
    {
        match action {
            Simple::Assign { target, value, .. } => self.walk.assignment(target, value, told),
            Simple::Update {
                target,
                operator,
                sign,
                value,
                ..
            } => { self.walk.update(target, *operator, *sign, value, told) }
            Simple::Call { name, args, .. } => self.walk.call_action(name, args.as_slice(), told),
            Simple::Return { at, value } => self.tell_return(*at, value, around, told),
            Simple::Result { at, value } => self.tell_result(*at, value, around, told),
            Simple::Assert { condition, .. } => {
                self.tell_value(condition, Receiver::Condition, told)
            }
            Simple::Start { process, args, .. } => {
                self.walk.start_action(process, args.as_slice(), told)
            }
            Simple::Delay { priority, .. } => {
                self.tell_some_value(priority, Receiver::Nothing, told)
            }
            Simple::Send {
                target,
                args,
                receiver,
                priority,
                ..
            } => {
                self.tell_message(target, args, told)?;
                self.tell_receiver(receiver, told)?;
                self.tell_some_value(priority, Receiver::Nothing, told)
            }
            Simple::Exit { .. }
            | Simple::Cause { .. }
            | Simple::Stop { .. }
            | Simple::Continue { .. } => Ok(()),
        }
    }

    // What is sent, in brackets or without.
    fn tell_message(
        &self,
        target: &Name,
        args: &Option<List<Expr>>,
        told: &mut Told,
    ) -> Result<(), Memory>
        ensures { IsGrounded self.now → OnOk result (told.new ≡ told.old ++ told_message (ground_at self.now) (message_parts (ground_at self.now) target.now) (args_in (option_map expr_trees args.now)) target.now.at) }
    {
        match args {
            None => self.walk.message(target, &[], told),
            Some(args) => self.walk.message(target, args.as_slice(), told),
        }
    }

    // The instance that a signal is sent to.
    fn tell_receiver(&self, receiver: &Option<Box<Expr>>, told: &mut Told) -> Result<(), Memory>
        ensures { IsGrounded self.now → OnOk result (told.new ≡ told.old ++ told_some_value (ground_at self.now) (of_mode (Some instance)) (option_map boxed_expr receiver.now)) }
    {
        let instance = &self.walk.evaluation.plain.instance;
        self.tell_some_value(receiver, Receiver::Mode(Some(instance)), told)
    }

    #[tactic(auto, using(crate::proofs::Lists::lists))]
    fn tell_return(
        &self,
        at: Pos,
        value: &Option<Box<Expr>>,
        around: Around<'_>,
        told: &mut Told,
    ) -> Result<(), Memory>
        ensures { IsGrounded self.now → OnOk result (let back = returning_of (ground_at self.now) (around_tree around.entry) in let v = option_map boxed_expr value.now in
            told.new ≡ told.old ++ (told_if (not_allowed back (is_some v)) (tell_at rules.S9 at) ++ told_some_value (ground_at self.now) (result_receiver back) v)) }
    {
        let back = self.returning_of(around);
        let _ = tell_if(
            is_not_allowed(back, value.is_some()),
            CheckRule::S9,
            at,
            told,
        )?;
        self.tell_some_value(value, back.receiver(), told)
    }

    #[tactic(auto, using(crate::proofs::Lists::lists))]
    fn tell_result(
        &self,
        at: Pos,
        value: &Expr,
        around: Around<'_>,
        told: &mut Told,
    ) -> Result<(), Memory>
        ensures { IsGrounded self.now → OnOk result (let back = returning_of (ground_at self.now) (around_tree around.entry) in
            told.new ≡ told.old ++ (told_if (not_allowed back true) (tell_at rules.S9 at) ++ told_value (ground_at self.now) (result_receiver back) (expr_tree value.now))) }
    {
        let back = self.returning_of(around);
        let _ = tell_if(is_not_allowed(back, true), CheckRule::S9, at, told)?;
        self.tell_value(value, back.receiver(), told)
    }
}
