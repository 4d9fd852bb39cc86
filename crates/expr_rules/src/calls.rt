// Calls, STARTs and messages, and the rules on them.
ghost use Rattle.std.specs.Prelude.{◌≡◌, ◌++◌, ◌&&◌, true, false, [], Some, IfOk, OnOk, IsTrue, map, length, option_map, option_and_then};
ghost use Rattle.chill_tree.specs.ExprTree.{expr_tree, expr_trees, expr_nodes};
ghost use Rattle.modes.specs.ModeTree.{value, derived, instance};
ghost use Rattle.diagnostics.specs.declared.rule.Rule.TheVariants as rules;
ghost use Rattle.class_operators.specs.Predefined.{predefined_tree};
ghost use Rattle.checks_model.specs.Ground.{mode_of_entry, entry_of, origin_of, message_parts};
ghost use Rattle.checks_model.specs.Told.{tell_at, told_if, is_none_told, then_told, holds_of};
ghost use Rattle.checks_model.specs.Operations.{argument_misfits, arguments_of};
ghost use Rattle.checks_model.specs.Operations as table;
ghost use Rattle.checks_model.specs.Classes.{class_of, class_of_call, class_of_measured, measured, measured_misfits, measured_first, class_of_first, count_exprs, callee_named};
ghost use Rattle.checks_model.specs.ValueRules.{told_in, told_in_args, told_inside_each, told_number, returns_none, receivers_of, each_receiver};
ghost use Rattle.checks_model.specs.ValueRules as model;
ghost use Rattle.checks_model.specs.Classes as model_callees;
ghost use Rattle.checks_model.specs.ActionRules.{told_arguments, told_in_routine, told_routine, told_message};
ghost use Rattle.statement_laws.specs.Steps.{told_in_all};
ghost use Rattle.expr_rules.specs.Grounds.{ground_in, HasItsGround};
ghost use Rattle.expr_rules.specs.Known.{IsKnown, IsOwn};
ghost use Rattle.expr_rules.specs.Views.{own_class, receiver_tree, formal_receiver};
ghost use Rattle.expr_rules.specs.Steps.{called_told, started_told, routine_call_told, told_of_argument, only_class, told_of_routine};

use crate::classed::Classed;
use crate::classes::Callee;
use crate::formals::Formal;
use crate::receiving::Receiver;
use crate::surroundings::Walk;
use crate::telling::{tell_if, tell_wrong_number};
use crate::values::tell_unfit;
use chill_base::{Memory, Pos};
use chill_tree::tree::{Expr, Name};
use class_operators::{
    cannot_be_put, class_of_measure, class_of_routine, gives_no_value, is_measuring,
    number_of_arguments,
};
use constant_operators::Measured;
use definition_origins::{CheckRule, Predefined, Told};
use modes::Class;

impl<'a, 'b> Walk<'a, 'b> {
    /// Tells what arguments break; whether it is nothing. Each goes to its formal, or to a place of no known mode where their
    /// number is wrong.
    #[tactic(auto, using(crate::proofs::Arguments::arguments))]
    #[cycle(expr)]
    pub fn arguments(
        &self,
        args: &[Expr],
        formals: &[Formal<'_>],
        told: &mut Told,
    ) -> Result<bool, Memory>
        ensures told { HasItsGround self.now → OnOk result (told.new ≡ told.old ++ told_in_args (ground_in self.now) (each_receiver (map formal_receiver formals.now) (count_exprs (expr_nodes (expr_trees args.now)))) (expr_nodes (expr_trees args.now))) }
        ensures clean { HasItsGround self.now → IfOk result (λ clean. clean ≡ is_none_told (told_in_args (ground_in self.now) (each_receiver (map formal_receiver formals.now) (count_exprs (expr_nodes (expr_trees args.now)))) (expr_nodes (expr_trees args.now)))) }
    {
        if args.len() == formals.len() {
            self.each_to_its_own(args, formals, told)
        } else {
            self.all_to(args, Receiver::Mode(None), told)
        }
    }

    // What arguments break, each of which goes to its formal; whether it is nothing.
    #[tactic(auto, using(crate::proofs::Arguments::loops))]
    #[cycle(expr)]
    fn each_to_its_own(
        &self,
        args: &[Expr],
        formals: &[Formal<'_>],
        told: &mut Told,
    ) -> Result<bool, Memory>
        ensures told { HasItsGround self.now → OnOk result (told.new ≡ told.old ++ told_in_args (ground_in self.now) (map formal_receiver formals.now) (expr_nodes (expr_trees args.now))) }
        ensures clean { HasItsGround self.now → IfOk result (λ clean. clean ≡ is_none_told (told_in_args (ground_in self.now) (map formal_receiver formals.now) (expr_nodes (expr_trees args.now)))) }
    {
        let mut is_clean = true;
        let mut rest = formals;
        for arg in args {
            let known = self.value(arg, first_receiver(rest), told)?;
            is_clean = is_clean && known.is_clean;
            rest = behind_first(rest);
        }
        Ok(is_clean)
    }

    // What arguments break that all go to one receiver; whether it is nothing.
    #[tactic(auto, using(crate::proofs::Arguments::loops))]
    #[cycle(expr)]
    pub(crate) fn all_to(
        &self,
        args: &[Expr],
        receiver: Receiver<'_>,
        told: &mut Told,
    ) -> Result<bool, Memory>
        ensures told { HasItsGround self.now → OnOk result (told.new ≡ told.old ++ told_in_all (ground_in self.now) (receiver_tree receiver.entry) (expr_nodes (expr_trees args.now))) }
        ensures clean { HasItsGround self.now → IfOk result (λ clean. clean ≡ is_none_told (told_in_all (ground_in self.now) (receiver_tree receiver.entry) (expr_nodes (expr_trees args.now)))) }
    {
        let mut is_clean = true;
        for arg in args {
            let known = self.value(arg, receiver, told)?;
            is_clean = is_clean && known.is_clean;
        }
        Ok(is_clean)
    }

    // What is broken in expressions that are measured, and so are no values; whether it is nothing.
    #[tactic(auto, using(crate::proofs::Arguments::loops))]
    #[cycle(expr)]
    pub(crate) fn tell_inside(&self, args: &[Expr], told: &mut Told) -> Result<bool, Memory>
        ensures told { HasItsGround self.now → OnOk result (told.new ≡ told.old ++ told_inside_each (ground_in self.now) (expr_nodes (expr_trees args.now))) }
        ensures clean { HasItsGround self.now → IfOk result (λ clean. clean ≡ is_none_told (told_inside_each (ground_in self.now) (expr_nodes (expr_trees args.now)))) }
    {
        let mut is_clean = true;
        for arg in args {
            let known = self.node(arg, Receiver::Nothing, told)?;
            is_clean = is_clean && known.is_clean;
        }
        Ok(is_clean)
    }

    // A call of a procedure that stands as a value.
    #[tactic(auto, using(crate::proofs::Gates::gates, crate::proofs::Arguments::counts))]
    #[cycle(expr)]
    pub(crate) fn called(
        &self,
        args: &[Expr],
        name: &Name,
        told: &mut Told,
    ) -> Result<Classed, Memory>
        ensures told { HasItsGround self.now → OnOk result (told.new ≡ told.old ++ called_told (ground_in self.now) name.now (expr_nodes (expr_trees args.now))) }
        ensures known { HasItsGround self.now → IfOk result (IsOwn (called_told (ground_in self.now) name.now (expr_nodes (expr_trees args.now))) (option_map value (mode_of_entry (entry_of (ground_in self.now) name.now)))) }
    {
        let formals = self.formals_of(name)?;
        if !self.arguments(args, formals.as_slice(), told)? {
            return Ok(Classed::broken());
        }
        let has_number = tell_wrong_number(args.len(), formals.len(), name.at, told)?;
        let gives_value = tell_if(self.returns_none(name), CheckRule::S10, name.at, told)?;
        if !has_number || !gives_value {
            return Ok(Classed::broken());
        }
        Ok(Classed::clean(self.class_of_result(name)?))
    }

    // A call of a routine that stands as a value.
    #[tactic(auto, using(crate::proofs::Gates::gates, crate::proofs::Routines::routines))]
    #[cycle(expr)]
    pub(crate) fn routine_called(
        &self,
        args: &[Expr],
        at: Pos,
        own: Predefined,
        told: &mut Told,
    ) -> Result<Classed, Memory>
        ensures told { HasItsGround self.now → OnOk result (told.new ≡ told.old ++ routine_call_told (ground_in self.now) (predefined_tree own) (expr_nodes (expr_trees args.now)) at) }
        ensures known { HasItsGround self.now → IfOk result (IsOwn (routine_call_told (ground_in self.now) (predefined_tree own) (expr_nodes (expr_trees args.now)) at)
            (class_of_call (predefined_tree own) (measured_first (ground_in self.now) (expr_nodes (expr_trees args.now))) (class_of_first (ground_in self.now) (expr_nodes (expr_trees args.now))))) }
    {
        let known = self.routine_arguments(args, own, told)?;
        if !known.is_clean {
            return Ok(Classed::broken());
        }
        let gives_value = tell_if(gives_no_value(own), CheckRule::S10, at, told)?;
        let result = self.routine(own, args, &known, at, told)?;
        if !gives_value {
            return Ok(Classed::broken());
        }
        Ok(result)
    }

    // What is told in a routine's arguments, and what is known of the only one.
    #[tactic(auto, using(crate::proofs::Gates::gates, crate::proofs::Arguments::arguments, crate::proofs::RangeViews::only_none))]
    #[cycle(expr)]
    fn routine_arguments(
        &self,
        args: &[Expr],
        own: Predefined,
        told: &mut Told,
    ) -> Result<Classed, Memory>
        ensures told { HasItsGround self.now → OnOk result (told.new ≡ told.old ++ told_in_routine (ground_in self.now) (predefined_tree own) (expr_nodes (expr_trees args.now))) }
        ensures clean { HasItsGround self.now → IfOk result (λ k. k.is_clean ≡ is_none_told (told_in_routine (ground_in self.now) (predefined_tree own) (expr_nodes (expr_trees args.now)))) }
        ensures class { HasItsGround self.now → IfOk result (λ k. own_class k.class ≡ only_class (ground_in self.now) (expr_nodes (expr_trees args.now))) }
    {
        if let [arg] = args {
            return self.routine_argument(arg, own, told);
        }
        let is_clean = if is_measuring(own) {
            self.tell_inside(args, told)?
        } else {
            self.all_to(args, Receiver::Nothing, told)?
        };
        Ok(Classed {
            class: None,
            is_clean,
        })
    }

    // What is told in an argument of a routine. What UPPER, LOWER and SIZE measure is no value.
    #[cycle(expr)]
    fn routine_argument(
        &self,
        arg: &Expr,
        own: Predefined,
        told: &mut Told,
    ) -> Result<Classed, Memory>
        ensures told { HasItsGround self.now → OnOk result (told.new ≡ told.old ++ told_of_argument (ground_in self.now) (predefined_tree own) (expr_tree arg.now)) }
        ensures known { HasItsGround self.now → IfOk result (IsKnown (told_in (ground_in self.now) model.nothing_asked (expr_tree arg.now)) (told_of_argument (ground_in self.now) (predefined_tree own) (expr_tree arg.now)) (class_of (ground_in self.now) (expr_tree arg.now))) }
    {
        if is_measuring(own) {
            return self.node(arg, Receiver::Nothing, told);
        }
        self.value(arg, Receiver::Nothing, told)
    }

    // What a routine gives of arguments, of the only one of which this is known. Tells rules S5 and S1.
    #[tactic(auto, using(crate::proofs::Gates::gates, crate::proofs::Routines::routines))]
    fn routine(
        &self,
        own: Predefined,
        args: &[Expr],
        known: &Classed,
        at: Pos,
        told: &mut Told,
    ) -> Result<Classed, Memory>
        ensures told { HasItsGround self.now → OnOk result (told.new ≡ told.old ++ told_of_routine (ground_in self.now) (predefined_tree own) (expr_nodes (expr_trees args.now)) known.now.is_clean (own_class known.now.class) at) }
        ensures known { HasItsGround self.now → known.now.is_clean ≡ true → IfOk result (IsOwn (told_of_routine (ground_in self.now) (predefined_tree own) (expr_nodes (expr_trees args.now)) true (own_class known.now.class) at)
            (class_of_call (predefined_tree own) (measured_first (ground_in self.now) (expr_nodes (expr_trees args.now))) (own_class known.now.class))) }
    {
        if !tell_wrong_number(args.len(), number_of_arguments(own), at, told)? {
            return Ok(Classed::broken());
        }
        match args.first() {
            None => Ok(Classed::clean(self.class_without_argument(own)?)),
            Some(arg) => {
                if is_measuring(own) {
                    self.measuring_routine(own, arg, known, at, told)
                } else {
                    self.value_routine(own, &known.class, at, told)
                }
            }
        }
    }

    // NUM and the like, PUT_INT and PUT_TEXT, of an argument of a class.
    #[tactic(auto, using(crate::proofs::Gates::gates, crate::proofs::Routines::values))]
    fn value_routine(
        &self,
        own: Predefined,
        class: &Option<Class>,
        at: Pos,
        told: &mut Told,
    ) -> Result<Classed, Memory>
        ensures told { arguments_of (predefined_tree own) ≡ 1 → OnOk result (told.new ≡ told.old ++ told_if (holds_of (argument_misfits (predefined_tree own)) (own_class class.now)) (tell_at rules.S1 at)) }
        ensures known { arguments_of (predefined_tree own) ≡ 1 → IfOk result (IsOwn (told_if (holds_of (argument_misfits (predefined_tree own)) (own_class class.now)) (tell_at rules.S1 at)) (option_and_then (table.class_of_routine (predefined_tree own)) (own_class class.now))) }
    {
        let Some(class) = class else {
            return Ok(Classed::clean(None));
        };
        if !gives_no_value(own) {
            let found = class_of_routine(self.evaluation.alloc, own, class)?;
            return tell_unfit(found, at, told);
        }
        let is_clean = tell_if(cannot_be_put(own, class), CheckRule::S1, at, told)?;
        Ok(Classed {
            class: None,
            is_clean,
        })
    }

    // UPPER, LOWER or SIZE of a mode, or of a location or parameter with its parts.
    #[tactic(auto, using(crate::proofs::Gates::gates))]
    fn measuring_routine(
        &self,
        own: Predefined,
        arg: &Expr,
        known: &Classed,
        at: Pos,
        told: &mut Told,
    ) -> Result<Classed, Memory>
        ensures told { HasItsGround self.now → OnOk result (told.new ≡ told.old ++ told_if (known.now.is_clean && measured_misfits (predefined_tree own) (measured (ground_in self.now) (expr_tree arg.now)) (own_class known.now.class)) (tell_at rules.S1 at)) }
        ensures known { HasItsGround self.now → known.now.is_clean ≡ true → IfOk result (IsOwn (told_if (measured_misfits (predefined_tree own) (measured (ground_in self.now) (expr_tree arg.now)) (own_class known.now.class)) (tell_at rules.S1 at)) (class_of_measured (predefined_tree own) (measured (ground_in self.now) (expr_tree arg.now)))) }
    {
        if !known.is_clean {
            return Ok(Classed::broken());
        }
        match self.evaluation.measured(arg)? {
            Measured::Mode(mode) => tell_unfit(
                class_of_measure(self.evaluation.alloc, own, &mode)?,
                at,
                told,
            ),
            Measured::Misfit => tell_unfit(None, at, told),
            Measured::Broken => Ok(Classed::clean(None)),
            Measured::Other => {
                let is_clean = tell_if(known.class.is_some(), CheckRule::S1, at, told)?;
                Ok(Classed {
                    class: None,
                    is_clean,
                })
            }
        }
    }

    // The instance that START gives as a value.
    #[tactic(auto, using(crate::proofs::Gates::gates, crate::proofs::Arguments::counts))]
    #[cycle(expr)]
    pub(crate) fn started(
        &self,
        process: &Name,
        args: &[Expr],
        told: &mut Told,
    ) -> Result<Classed, Memory>
        ensures told { HasItsGround self.now → OnOk result (told.new ≡ told.old ++ started_told (ground_in self.now) process.now (expr_nodes (expr_trees args.now))) }
        ensures known { HasItsGround self.now → IfOk result (IsOwn (started_told (ground_in self.now) process.now (expr_nodes (expr_trees args.now))) (Some (derived instance))) }
    {
        let formals = self.formals_of(process)?;
        if !self.arguments(args, formals.as_slice(), told)? {
            return Ok(Classed::broken());
        }
        if !tell_wrong_number(args.len(), formals.len(), process.at, told)? {
            return Ok(Classed::broken());
        }
        Ok(Classed::clean(Some(self.class_of_instance()?)))
    }

    /// Tells what a call breaks that stands as an action. Its result, if it has one, is dropped.
    pub fn call_action(&self, name: &Name, args: &[Expr], told: &mut Told) -> Result<(), Memory>
        ensures { HasItsGround self.now → OnOk result (told.new ≡ told.old ++ told_routine (ground_in self.now) (callee_named (ground_in self.now) name.now) (expr_nodes (expr_trees args.now)) name.now.at) }
    {
        match self.callee_named(name) {
            Callee::Procedure(name) => self.arguments_of(name, args, told),
            Callee::Routine(own) => self.routine_action(name, own, args, told),
            Callee::Nothing => Ok(()),
        }
    }

    // A call of a routine that stands as an action. Rule S1 goes by the argument's class, which is there also where the
    // argument has too many scalars for a value.
    #[tactic(auto, using(crate::proofs::Routines::routines))]
    fn routine_action(
        &self,
        name: &Name,
        own: Predefined,
        args: &[Expr],
        told: &mut Told,
    ) -> Result<(), Memory>
        ensures { HasItsGround self.now → OnOk result (told.new ≡ told.old ++ told_routine (ground_in self.now) (model_callees.routine (predefined_tree own)) (expr_nodes (expr_trees args.now)) name.now.at) }
    {
        let known = self.routine_arguments(args, own, told)?;
        let _ = self.routine(own, args, &known, name.at, told)?;
        Ok(())
    }

    /// Tells what a START breaks that stands as an action.
    pub fn start_action(&self, process: &Name, args: &[Expr], told: &mut Told) -> Result<(), Memory>
        ensures { HasItsGround self.now → OnOk result (told.new ≡ told.old ++ told_arguments (ground_in self.now) (receivers_of (ground_in self.now) process.now) (expr_nodes (expr_trees args.now)) process.now.at) }
    {
        self.arguments_of(process, args, told)
    }

    // What is told of the arguments of a procedure or process, and of their number.
    fn arguments_of(&self, name: &Name, args: &[Expr], told: &mut Told) -> Result<(), Memory>
        ensures { HasItsGround self.now → OnOk result (told.new ≡ told.old ++ told_arguments (ground_in self.now) (receivers_of (ground_in self.now) name.now) (expr_nodes (expr_trees args.now)) name.now.at) }
    {
        let formals = self.formals_of(name)?;
        self.all_arguments(args, formals.as_slice(), name.at, told)
    }

    // What is told of arguments, and of their number.
    #[tactic(auto, using(crate::proofs::Arguments::counts))]
    fn all_arguments(
        &self,
        args: &[Expr],
        formals: &[Formal<'_>],
        at: Pos,
        told: &mut Told,
    ) -> Result<(), Memory>
        ensures { HasItsGround self.now → OnOk result (told.new ≡ told.old ++ told_arguments (ground_in self.now) (map formal_receiver formals.now) (expr_nodes (expr_trees args.now)) at) }
    {
        let _ = self.arguments(args, formals, told)?;
        let _ = tell_wrong_number(args.len(), formals.len(), at, told)?;
        Ok(())
    }

    /// Tells what the parts of a SEND break, of which there are none where it has no brackets.
    #[tactic(auto, using(statement_laws::proofs::Arguments::args_none))]
    pub fn message(&self, target: &Name, args: &[Expr], told: &mut Told) -> Result<(), Memory>
        ensures { HasItsGround self.now → OnOk result (told.new ≡ told.old ++ told_message (ground_in self.now) (message_parts (ground_in self.now) target.now) (expr_nodes (expr_trees args.now)) target.now.at) }
    {
        match self.formals_of_message(target)? {
            None => {
                let _ = self.all_to(args, Receiver::Mode(None), told)?;
                Ok(())
            }
            Some(formals) => self.all_arguments(args, formals.as_slice(), target.at, told),
        }
    }
}

// What receives the first argument: a place of no known mode where there is no formal for it.
fn first_receiver<'f>(formals: &[Formal<'f>]) -> Receiver<'f>
    ensures { receiver_tree result ≡ model.head_or_none (map formal_receiver formals.now) }
{
    match formals.first() {
        None => Receiver::Mode(None),
        Some(formal) => formal.receiver(),
    }
}

// The formals behind the first.
fn behind_first<'k, 'f>(formals: &'k [Formal<'f>]) -> &'k [Formal<'f>]
    ensures { map formal_receiver result.now ≡ model.rest_of (map formal_receiver formals.now) }
{
    if formals.is_empty() {
        return formals;
    }
    &formals[1..]
}
