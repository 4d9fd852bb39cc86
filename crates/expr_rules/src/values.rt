// The walk over expressions: the class of each, and the rules that it breaks.
ghost use Rattle.std.specs.Prelude.{◌≡◌, ◌++◌, ◌&&◌, ◌==◌, not, is_some, IfOk, OnOk, option_map, option_and_then};
ghost use Rattle.chill_tree.specs.ExprTree.{expr_tree, expr_trees, expr_nodes, place_of, prefixed as prefixed_tree};
ghost use Rattle.diagnostics.specs.declared.rule.Rule.TheVariants as rules;
ghost use Rattle.checks_model.specs.Told.{tell_at, told_if, is_none_told, holds_of, holds_of_both};
ghost use Rattle.checks_model.specs.Operations as table;
ghost use Rattle.checks_model.specs.Classes.{class_as, class_of, both_classes};
ghost use Rattle.checks_model.specs.ValueRules.{nothing_asked, received_mode, told_in, told_value, index_mode, index_receiver, is_too_large, bare};
ghost use Rattle.expr_rules.specs.Grounds.{ground_in, HasItsGround};
ghost use Rattle.expr_rules.specs.Known.{IsKnown, IsOwn};
ghost use Rattle.expr_rules.specs.Views.{own_class, receiver_tree};
ghost use Rattle.expr_rules.specs.Steps.{told_of_apply, class_of_apply, told_of_binary, class_of_binary, value_own_told, told_in_index, is_clean_index, class_in_index, args_in_index};

use crate::classed::Classed;
use crate::classes::Callee;
use crate::receiving::Receiver;
use crate::surroundings::Walk;
use crate::telling::tell_if;
use chill_base::{Memory, Pos};
use chill_tree::tree::{Expr, Name, Operator, Prefix};
use class_operators::{class_of_binary, class_of_unary, mode_in};
use definition_origins::{CheckRule, Told};
use modes::{Class, number_of_scalars};

// How many scalars a value may have.
const SCALARS: u32 = 256;

impl<'a, 'b> Walk<'a, 'b> {
    /// What is known of an expression that something receives; tells its own rules, and the rule of its receiver where
    /// nothing was told in or at it.
    #[tactic(auto, using(crate::proofs::Gates::gates, crate::proofs::Nodes::received))]
    #[cycle(expr)]
    pub fn value(
        &self,
        expr: &Expr,
        receiver: Receiver<'_>,
        told: &mut Told,
    ) -> Result<Classed, Memory>
        ensures told { HasItsGround self.now → OnOk result (told.new ≡ told.old ++ told_value (ground_in self.now) (receiver_tree receiver.entry) (expr_tree expr.now)) }
        ensures known { HasItsGround self.now → IfOk result (IsKnown (told_in (ground_in self.now) (receiver_tree receiver.entry) (expr_tree expr.now)) (told_value (ground_in self.now) (receiver_tree receiver.entry) (expr_tree expr.now))
            (class_as (ground_in self.now) (received_mode (receiver_tree receiver.entry)) (expr_tree expr.now))) }
    {
        let known = self.own_value(expr, receiver, told)?;
        if !known.is_clean {
            return Ok(known);
        }
        let is_clean = self.tell_received(expr, &known.class, receiver, told)?;
        Ok(known.told(is_clean))
    }

    // What is known of an expression that stands as a value, with its own rules alone. Rule L6 stands behind parentheses.
    #[tactic(auto, using(crate::proofs::Gates::gates))]
    #[cycle(expr)]
    fn own_value(
        &self,
        expr: &Expr,
        receiver: Receiver<'_>,
        told: &mut Told,
    ) -> Result<Classed, Memory>
        ensures told { HasItsGround self.now → OnOk result (told.new ≡ told.old ++ value_own_told (ground_in self.now) (receiver_tree receiver.entry) (expr_tree expr.now)) }
        ensures known { HasItsGround self.now → IfOk result (IsKnown (told_in (ground_in self.now) (receiver_tree receiver.entry) (expr_tree expr.now)) (value_own_told (ground_in self.now) (receiver_tree receiver.entry) (expr_tree expr.now))
            (class_as (ground_in self.now) (received_mode (receiver_tree receiver.entry)) (expr_tree expr.now))) }
    {
        let known = self.node(expr, receiver, told)?;
        if !known.is_clean {
            return Ok(known);
        }
        let is_clean = tell_if(
            is_too_large(&known.class),
            CheckRule::L6,
            bare_place(expr),
            told,
        )?;
        Ok(known.told(is_clean))
    }

    // What is known of an expression, which may also be only a part of a value: its own rules but L6.
    #[tactic(auto, using(chill_tree::proofs::ExprViews::expr_built, crate::proofs::Gates::gates))]
    #[cycle(expr)]
    pub(crate) fn node(
        &self,
        expr: &Expr,
        receiver: Receiver<'_>,
        told: &mut Told,
    ) -> Result<Classed, Memory>
        ensures told { HasItsGround self.now → OnOk result (told.new ≡ told.old ++ told_in (ground_in self.now) (receiver_tree receiver.entry) (expr_tree expr.now)) }
        ensures known { HasItsGround self.now → IfOk result (IsOwn (told_in (ground_in self.now) (receiver_tree receiver.entry) (expr_tree expr.now)) (class_as (ground_in self.now) (received_mode (receiver_tree receiver.entry)) (expr_tree expr.now))) }
    {
        match expr {
            Expr::Whole { .. } => Ok(Classed::clean(Some(self.class_of_whole()?))),
            Expr::Char { .. } => Ok(Classed::clean(Some(self.class_of_character()?))),
            Expr::Text { value, .. } => Ok(Classed::clean(Some(self.class_of_text(value)?))),
            Expr::This { .. } => Ok(Classed::clean(Some(self.class_of_instance()?))),
            Expr::Paren { inner, .. } => self.node(inner, receiver, told),
            Expr::Receive { buffer, .. } => Ok(Classed::clean(self.class_of_received(buffer)?)),
            Expr::Start { process, args, .. } => self.started(process, args.as_slice(), told),
            Expr::Tuple {
                mode,
                bracket,
                parts,
                ..
            } => self.tuple(parts.as_slice(), mode, *bracket, receiver, told),
            Expr::Uniform {
                mode,
                bracket,
                value,
                ..
            } => self.uniform(value, mode, *bracket, receiver, told),
            Expr::Name(name) => Ok(Classed::clean(self.class_of_name(name)?)),
            Expr::Apply { .. } => self.applied(expr, told),
            Expr::Field { of, field, .. } => self.field_of(of, field, told),
            Expr::Prefixed {
                at,
                operator,
                operand,
            } => self.prefixed(operand, *operator, *at, told),
            Expr::Binary { .. } => self.operands(expr, told),
        }
    }

    // A call, or an element: brackets behind an expression, which is handed down whole, since both it and what is in the
    // brackets are parts.
    #[tactic(auto, using(chill_tree::proofs::ExprViews::expr_built, crate::proofs::Applied::brackets, crate::proofs::Gates::gates))]
    #[cycle(expr)]
    fn applied(&self, expr: &Expr, told: &mut Told) -> Result<Classed, Memory>
        ensures told { HasItsGround self.now → OnOk result (told.new ≡ told.old ++ told_of_apply (ground_in self.now) (expr_tree expr.now)) }
        ensures known { HasItsGround self.now → IfOk result (IsOwn (told_of_apply (ground_in self.now) (expr_tree expr.now)) (class_of_apply (ground_in self.now) (expr_tree expr.now))) }
    {
        match expr {
            Expr::Apply { of, args, .. } => match self.callee(of) {
                Callee::Procedure(name) => self.called(args.as_slice(), name, told),
                Callee::Routine(own) => self.routine_called(args.as_slice(), of.at(), own, told),
                Callee::Nothing => {
                    let base = self.node(of, Receiver::Nothing, told)?;
                    self.indexed(args.as_slice(), of.at(), &base, told)
                }
            },
            Expr::Whole { .. }
            | Expr::Char { .. }
            | Expr::Text { .. }
            | Expr::This { .. }
            | Expr::Paren { .. }
            | Expr::Receive { .. }
            | Expr::Start { .. }
            | Expr::Tuple { .. }
            | Expr::Uniform { .. }
            | Expr::Name(_)
            | Expr::Field { .. }
            | Expr::Prefixed { .. }
            | Expr::Binary { .. } => Ok(Classed::clean(None)),
        }
    }

    // An element of something that begins at a place.
    #[tactic(auto, using(crate::proofs::Gates::gates, crate::proofs::Arguments::counts))]
    #[cycle(expr)]
    pub(crate) fn indexed(
        &self,
        args: &[Expr],
        at: Pos,
        base: &Classed,
        told: &mut Told,
    ) -> Result<Classed, Memory>
        ensures told { HasItsGround self.now → OnOk result (told.new ≡ told.old ++ told_in_index (ground_in self.now) (expr_nodes (expr_trees args.now)) at (own_class base.now.class) base.now.is_clean) }
        ensures clean { HasItsGround self.now → IfOk result (λ k. k.is_clean ≡ is_clean_index (ground_in self.now) (expr_nodes (expr_trees args.now)) at (own_class base.now.class) base.now.is_clean) }
        ensures class { HasItsGround self.now → IfOk result (λ k. own_class k.class ≡ class_in_index (ground_in self.now) (expr_nodes (expr_trees args.now)) at (own_class base.now.class) base.now.is_clean) }
    {
        let is_clean = (&*self).tell_in_indices(args, &*base, told)?;
        if !base.is_clean || !is_clean {
            return Ok(Classed::broken());
        }
        if !tell_if(
            self.has_wrong_number(base, args.len()),
            CheckRule::S5,
            at,
            told,
        )? {
            return Ok(Classed::broken());
        }
        Ok(Classed::clean(self.class_of_some_element(&base.class)?))
    }

    // The class of an element of something, where that has a class.
    fn class_of_some_element(&self, of: &Option<Class>) -> Result<Option<Class>, Memory>
        ensures { HasItsGround self.now → IfOk result (λ c. own_class c ≡ option_map (table.part_of_class table.element_of_form) (own_class of.now)) }
    {
        match of {
            None => Ok(None),
            Some(class) => Ok(Some(self.class_of_element(class)?)),
        }
    }

    // What is told in indices; whether it is nothing.
    #[tactic(auto, using(crate::proofs::Arguments::indices, crate::proofs::RangeViews::args_counted))]
    #[cycle(expr)]
    fn tell_in_indices<'k>(
        &'k self,
        args: &[Expr],
        base: &'k Classed,
        told: &mut Told,
    ) -> Result<bool, Memory>
        ensures told { HasItsGround self.now → OnOk result (told.new ≡ told.old ++ args_in_index (ground_in self.now) (expr_nodes (expr_trees args.now)) (own_class base.now.class)) }
        ensures clean { HasItsGround self.now → IfOk result (λ clean. clean ≡ is_none_told (args_in_index (ground_in self.now) (expr_nodes (expr_trees args.now)) (own_class base.now.class))) }
    {
        let receiver = self.index_receiver(base, args.len());
        self.all_to(args, receiver, told)
    }

    // What receives indices, of which there are so many. Where there isn't exactly one, none has a mode that it should go with.
    fn index_receiver<'k>(&'k self, base: &'k Classed, count: usize) -> Receiver<'k>
        ensures { HasItsGround self.now → receiver_tree result ≡ index_receiver (own_class base.now.class) count }
    {
        if count == 1 {
            Receiver::Mode(self.index_mode(base.class.as_ref()))
        } else {
            Receiver::Mode(None)
        }
    }

    // Rule S5 of an array or a text: not exactly one index.
    fn has_wrong_number(&self, base: &Classed, count: usize) -> bool
        ensures { HasItsGround self.now → result ≡ is_some (index_mode (own_class base.now.class)) && not (count == 1) }
    {
        self.index_mode(base.class.as_ref()).is_some() && count != 1
    }

    // A field of something.
    #[tactic(auto, using(crate::proofs::Gates::mapped))]
    #[cycle(expr)]
    fn field_of(&self, of: &Expr, field: &Name, told: &mut Told) -> Result<Classed, Memory>
        ensures told { HasItsGround self.now → OnOk result (told.new ≡ told.old ++ told_in (ground_in self.now) nothing_asked (expr_tree of.now)) }
        ensures known { HasItsGround self.now → IfOk result (IsOwn (told_in (ground_in self.now) nothing_asked (expr_tree of.now)) (option_map (table.part_of_class (table.field_of_form field.now.text)) (class_of (ground_in self.now) (expr_tree of.now)))) }
    {
        let base = self.node(of, Receiver::Nothing, told)?;
        self.field(&base, field)
    }

    // A field of what is known.
    pub(crate) fn field(&self, base: &Classed, field: &Name) -> Result<Classed, Memory>
        ensures clean { IfOk result (λ k. k.is_clean ≡ base.now.is_clean) }
        ensures class { IfOk result (λ k. own_class k.class ≡ option_map (table.part_of_class (table.field_of_form field.now.text)) (own_class base.now.class)) }
    {
        let class = match &base.class {
            None => None,
            Some(class) => Some(self.class_of_field(class, field.text.as_slice())?),
        };
        Ok(Classed {
            class,
            is_clean: base.is_clean,
        })
    }

    // An operator before its operand.
    #[tactic(auto, using(crate::proofs::Gates::gates))]
    #[cycle(expr)]
    fn prefixed(
        &self,
        operand: &Expr,
        operator: Prefix,
        at: Pos,
        told: &mut Told,
    ) -> Result<Classed, Memory>
        ensures told { HasItsGround self.now → OnOk result (told.new ≡ told.old ++ told_in (ground_in self.now) nothing_asked (prefixed_tree at operator (expr_tree operand.now))) }
        ensures known { HasItsGround self.now → IfOk result (IsOwn (told_in (ground_in self.now) nothing_asked (prefixed_tree at operator (expr_tree operand.now))) (class_of (ground_in self.now) (prefixed_tree at operator (expr_tree operand.now)))) }
    {
        let known = self.own_value(operand, Receiver::Nothing, told)?;
        if !known.is_clean {
            return Ok(Classed::broken());
        }
        self.before(operator, at, &known.class, told)
    }

    // The class of an operator before an operand of a class; tells rule S1.
    #[tactic(auto, using(crate::proofs::Gates::gates))]
    fn before(
        &self,
        operator: Prefix,
        at: Pos,
        operand: &Option<Class>,
        told: &mut Told,
    ) -> Result<Classed, Memory>
        ensures told { OnOk result (told.new ≡ told.old ++ told_if (holds_of (table.operand_misfits operator) (own_class operand.now)) (tell_at rules.S1 at)) }
        ensures known { IfOk result (IsOwn (told_if (holds_of (table.operand_misfits operator) (own_class operand.now)) (tell_at rules.S1 at)) (option_and_then (table.class_of_unary operator) (own_class operand.now))) }
    {
        match operand {
            None => Ok(Classed::clean(None)),
            Some(class) => {
                let found = class_of_unary(self.evaluation.alloc, operator, class)?;
                tell_unfit(found, at, told)
            }
        }
    }

    // Two operands with an operator between them: an expression that is handed down whole, since both are its parts.
    #[tactic(auto, using(crate::proofs::Gates::gates, crate::proofs::Operands::operands, chill_tree::proofs::ExprViews::expr_built))]
    #[cycle(expr)]
    fn operands(&self, expr: &Expr, told: &mut Told) -> Result<Classed, Memory>
        ensures told { HasItsGround self.now → OnOk result (told.new ≡ told.old ++ told_of_binary (ground_in self.now) (expr_tree expr.now)) }
        ensures known { HasItsGround self.now → IfOk result (IsOwn (told_of_binary (ground_in self.now) (expr_tree expr.now)) (class_of_binary (ground_in self.now) (expr_tree expr.now))) }
    {
        match expr {
            Expr::Binary {
                left,
                operator,
                sign,
                right,
                ..
            } => {
                let one = self.own_value(left, Receiver::Nothing, told)?;
                let other = self.own_value(right, Receiver::Nothing, told)?;
                if !one.is_clean || !other.is_clean {
                    return Ok(Classed::broken());
                }
                self.between(*operator, *sign, &one.class, &other.class, told)
            }
            Expr::Whole { .. }
            | Expr::Char { .. }
            | Expr::Text { .. }
            | Expr::This { .. }
            | Expr::Paren { .. }
            | Expr::Receive { .. }
            | Expr::Start { .. }
            | Expr::Tuple { .. }
            | Expr::Uniform { .. }
            | Expr::Name(_)
            | Expr::Apply { .. }
            | Expr::Field { .. }
            | Expr::Prefixed { .. } => Ok(Classed::clean(None)),
        }
    }

    // The class of an operator between two operands of classes; tells rule S1.
    #[tactic(auto, using(crate::proofs::Gates::gates))]
    pub(crate) fn between(
        &self,
        operator: Operator,
        sign: Pos,
        left: &Option<Class>,
        right: &Option<Class>,
        told: &mut Told,
    ) -> Result<Classed, Memory>
        ensures told { OnOk result (told.new ≡ told.old ++ told_if (holds_of_both (table.operands_misfit operator) (own_class left.now) (own_class right.now)) (tell_at rules.S1 sign)) }
        ensures known { IfOk result (IsOwn (told_if (holds_of_both (table.operands_misfit operator) (own_class left.now) (own_class right.now)) (tell_at rules.S1 sign)) (both_classes (table.class_of_binary operator) (own_class left.now) (own_class right.now))) }
    {
        match (left, right) {
            (Some(left), Some(right)) => {
                let found = class_of_binary(self.evaluation.alloc, operator, left, right)?;
                tell_unfit(found, sign, told)
            }
            (Some(_), None) | (None, _) => Ok(Classed::clean(None)),
        }
    }
}

/// Rule S1 at an operator or a routine: there is no class of its result, since its operands don't fit.
pub(crate) fn tell_unfit(found: Option<Class>, at: Pos, told: &mut Told) -> Result<Classed, Memory>
    ensures told { OnOk result (told.new ≡ told.old ++ told_if (not (is_some (own_class found))) (tell_at rules.S1 at)) }
    ensures known { IfOk result (IsOwn (told_if (not (is_some (own_class found))) (tell_at rules.S1 at)) (own_class found)) }
{
    match found {
        Some(class) => Ok(Classed::clean(Some(class))),
        None => {
            told.tell(CheckRule::S1, at)?;
            Ok(Classed::broken())
        }
    }
}

// Rule L6: more scalars than a value may have.
#[tactic(auto, using(crate::proofs::Nodes::too_large))]
fn is_too_large(class: &Option<Class>) -> bool
    ensures { result ≡ holds_of is_too_large (own_class class.now) }
{
    match class {
        None => false,
        Some(class) => match mode_in(class) {
            None => false,
            Some(mode) => number_of_scalars(mode) > SCALARS,
        },
    }
}

// The place of what stands in the parentheses of an expression, or of the expression itself.
#[tactic(auto, using(chill_tree::proofs::ExprViews::expr_built))]
fn bare_place(expr: &Expr) -> Pos
    ensures { result ≡ place_of (bare (expr_tree expr.now)) }
{
    match expr {
        Expr::Paren { inner, .. } => bare_place(inner),
        Expr::Whole { .. }
        | Expr::Char { .. }
        | Expr::Text { .. }
        | Expr::This { .. }
        | Expr::Receive { .. }
        | Expr::Start { .. }
        | Expr::Tuple { .. }
        | Expr::Uniform { .. }
        | Expr::Name(_)
        | Expr::Apply { .. }
        | Expr::Field { .. }
        | Expr::Prefixed { .. }
        | Expr::Binary { .. } => expr.at(),
    }
}
