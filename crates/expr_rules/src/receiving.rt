// The places that receive an expression, and the rules of what they receive.
ghost use Rattle.std.specs.Prelude.{◌≡◌, ◌++◌, IfOk, OnOk};
ghost use Rattle.chill_tree.specs.ExprTree.{expr_tree};
ghost use Rattle.modes.specs.ModeTree.{mode_tree};
ghost use Rattle.checks_model.specs.Alike.{are_v_equivalent};
ghost use Rattle.checks_model.specs.Told.{is_none_told, holds_of};
ghost use Rattle.checks_model.specs.ValueRules.{does_not_go, does_not_fit_parameter, is_not_boolean, is_not_discrete, is_no_powerset};
ghost use Rattle.expr_rules.specs.Grounds.{ground_in, HasItsGround};
ghost use Rattle.expr_rules.specs.Views.{own_class, receiver_tree, located_tree};
ghost use Rattle.expr_rules.specs.Steps.{told_by};

use crate::places::{Access, Located};
use crate::surroundings::Walk;
use crate::telling::tell_if;
use checks_model::tests_law;
use chill_base::Memory;
use chill_tree::tree::Expr;
use class_operators::{form_in, goes, is_of_discrete};
use definition_origins::{CheckRule, Told};
use modes::{Class, Form, Mode, v_equivalent};
use std::rc::Rc;

/// What receives an expression.
#[derive(Clone, Copy)]
pub enum Receiver<'r> {
    /// A place without a mode, which asks nothing of the value by itself: an operand, or a routine's argument. A tuple
    /// needs a mode's name here, as in all places below but the next.
    Nothing,
    /// A place with a mode: an initialisation, a target, an argument that is passed IN, a formal of a process, a result, a
    /// part of a message, a receiver of a signal, a part of a tuple, or an index. The mode is none where it isn't known
    /// for a reason that is told elsewhere, or will be.
    Mode(Option<&'r Rc<Mode>>),
    /// A parameter of this mode that is passed OUT or INOUT.
    Location(Option<&'r Rc<Mode>>),
    /// A condition of IF, ELSIF, WHILE or ASSERT.
    Condition,
    /// The selector of a CASE.
    Selector,
    /// The start or the end of a loop, by itself.
    Bound,
    /// The powerset whose members a loop goes through.
    Members,
}

impl<'a, 'b> Walk<'a, 'b> {
    /// Tells the rule that an expression of a class breaks for what receives it; whether it breaks none. It is asked where
    /// nothing was told in or at the expression.
    #[tactic(auto, using(crate::proofs::Gates::gates))]
    pub fn tell_received(
        &self,
        expr: &Expr,
        class: &Option<Class>,
        receiver: Receiver<'_>,
        told: &mut Told,
    ) -> Result<bool, Memory>
        ensures told { HasItsGround self.now → OnOk result (told.new ≡ told.old ++ told_by (ground_in self.now) (receiver_tree receiver.entry) (own_class class.now) (expr_tree expr.now)) }
        ensures clean { HasItsGround self.now → IfOk result (λ clean. clean ≡ is_none_told (told_by (ground_in self.now) (receiver_tree receiver.entry) (own_class class.now) (expr_tree expr.now))) }
    {
        match receiver {
            Receiver::Nothing | Receiver::Mode(None) | Receiver::Location(None) => Ok(true),
            Receiver::Mode(Some(mode)) => {
                tell_if(does_not_go(class, mode), CheckRule::S2, expr.at(), told)
            }
            Receiver::Location(Some(mode)) => {
                let argument = self.place(expr)?;
                tell_if(
                    does_not_fit_parameter(&argument, mode),
                    CheckRule::S6,
                    expr.at(),
                    told,
                )
            }
            Receiver::Condition => tell_if(is_not_boolean(class), CheckRule::S4, expr.at(), told),
            Receiver::Selector => tell_if(is_not_discrete(class), CheckRule::S7, expr.at(), told),
            Receiver::Bound => tell_if(is_not_discrete(class), CheckRule::S8, expr.at(), told),
            Receiver::Members => tell_if(is_no_powerset(class), CheckRule::S8, expr.at(), told),
        }
    }
}

// Rule S2: a value doesn't go with the mode that receives it.
fn does_not_go(class: &Option<Class>, mode: &Mode) -> bool
    ensures { result ≡ holds_of (λ c. does_not_go c (mode_tree mode.now)) (own_class class.now) }
{
    match class {
        None => false,
        Some(class) => !goes(class, mode),
    }
}

// Rule S6: the argument isn't a location that can be written, of a mode that is v-equivalent to the parameter's.
fn does_not_fit_parameter(argument: &Located, mode: &Mode) -> bool
    ensures { result ≡ does_not_fit_parameter (located_tree argument.now) (mode_tree mode.now) }
{
    match &argument.mode {
        None => true,
        Some(own) => argument.access != Access::Free || !are_v_equivalent(own, mode),
    }
}

// Whether two modes are v-equivalent.
fn are_v_equivalent(one: &Mode, other: &Mode) -> bool
    ensures { result ≡ are_v_equivalent (mode_tree one.now) (mode_tree other.now) }
{
    tests_law();
    v_equivalent(one, other)
}

// Rule S4: a condition isn't of root BOOL.
fn is_not_boolean(class: &Option<Class>) -> bool
    ensures { result ≡ holds_of is_not_boolean (own_class class.now) }
{
    match class {
        None => false,
        Some(class) => !matches!(form_in(class), Some(Form::Bool)),
    }
}

// Rule S7 of a selector, and S8 of a bound by itself: its mode isn't discrete.
fn is_not_discrete(class: &Option<Class>) -> bool
    ensures { result ≡ holds_of is_not_discrete (own_class class.now) }
{
    match class {
        None => false,
        Some(class) => !is_of_discrete(class),
    }
}

// Rule S8 of what follows IN: it is no powerset.
fn is_no_powerset(class: &Option<Class>) -> bool
    ensures { result ≡ holds_of is_no_powerset (own_class class.now) }
{
    match class {
        None => false,
        Some(class) => !matches!(form_in(class), Some(Form::Powerset(_))),
    }
}
