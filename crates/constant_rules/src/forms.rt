// Which expressions have the form of a constant.
ghost use Rattle.std.specs.Prelude.{◌≡◌};
ghost use Rattle.chill_tree.specs.ExprTree.{expr_tree, expr_trees, range_tree, range_trees, expr_nodes, range_nodes};
ghost use Rattle.class_operators.specs.Predefined.{predefined_tree};
ghost use Rattle.checks_model.specs.Operations.{is_measuring};
ghost use Rattle.checks_model.specs.Constants.{has_form, have_form, range_has_form};
ghost use Rattle.constant_operators.specs.Grounds.{ground_of, HasGround};
ghost use Rattle.constant_rules.specs.Walks.{routine_form, is_argument, is_unnamed_tuple};

use chill_tree::tree::{Expr, ValueRange};
use class_operators::{is_measuring, is_value_routine};
use constant_operators::Evaluation;
use definition_origins::Predefined;

/// Whether an expression has the form of a constant by itself, or as a part of a tuple that has it: there a tuple needs no
/// mode's name.
#[cycle(form)]
#[tactic(auto, using(crate::proofs::OfExprs::form_views))]
pub fn has_form(ground: &Evaluation<'_>, expr: &Expr, is_part: bool) -> bool
    ensures { HasGround ground.now → result ≡ has_form (ground_of ground.now) is_part (expr_tree expr.now) }
{
    match expr {
        Expr::Whole { .. } | Expr::Char { .. } | Expr::Text { .. } => true,
        Expr::This { .. } | Expr::Receive { .. } | Expr::Start { .. } => false,
        Expr::Field { .. } => false,
        Expr::Paren { inner, .. } => has_form(ground, inner, is_part),
        Expr::Tuple { mode, parts, .. } => {
            (is_part || mode.is_some()) && have_form(ground, parts.as_slice())
        }
        Expr::Uniform { mode, value, .. } => {
            (is_part || mode.is_some()) && has_form(ground, value, true)
        }
        Expr::Name(name) => match ground.used_at(name.at) {
            None => false,
            Some(number) => ground.is_constant_name(number),
        },
        Expr::Apply { of, args, .. } => match ground.routine_called(of) {
            None => false,
            Some(own) => are_arguments(ground, own, args.as_slice()),
        },
        Expr::Prefixed { operand, .. } => has_form(ground, operand, false),
        Expr::Binary { left, right, .. } => {
            has_form(ground, left, false) && has_form(ground, right, false)
        }
    }
}

/// Whether all parts of a tuple have the form of constants.
#[cycle(form)]
pub fn have_form(ground: &Evaluation<'_>, parts: &[ValueRange]) -> bool
    ensures { HasGround ground.now → result ≡ have_form (ground_of ground.now) (range_nodes (range_trees parts.now)) }
{
    for part in parts {
        if !range_has_form(ground, part) {
            return false;
        }
    }
    true
}

// Whether a part of a tuple, or both its ends, have the form of constants.
#[cycle(form)]
#[tactic(auto, using(crate::proofs::Views::range_out))]
fn range_has_form(ground: &Evaluation<'_>, part: &ValueRange) -> bool
    ensures { HasGround ground.now → result ≡ range_has_form (ground_of ground.now) (range_tree part.now) }
{
    if !has_form(ground, &part.first, true) {
        return false;
    }
    match &part.last {
        None => true,
        Some(last) => has_form(ground, last, true),
    }
}

/// Whether all arguments of a routine of values have the form of constants, or may be measured.
#[cycle(form)]
pub fn are_arguments(ground: &Evaluation<'_>, own: Predefined, args: &[Expr]) -> bool
    ensures { HasGround ground.now → result ≡ routine_form (ground_of ground.now) (predefined_tree own) (expr_nodes (expr_trees args.now)) }
{
    if !is_value_routine(own) {
        return false;
    }
    for arg in args {
        if !is_argument(ground, own, arg) {
            return false;
        }
    }
    true
}

// Whether an argument of a routine has the form of a constant, or may be measured.
#[cycle(form)]
fn is_argument(ground: &Evaluation<'_>, own: Predefined, arg: &Expr) -> bool
    ensures { HasGround ground.now → result ≡ is_argument (ground_of ground.now) (is_measuring (predefined_tree own)) (expr_tree arg.now) }
{
    if is_measuring(own) && ground.is_measurable(arg) {
        return true;
    }
    has_form(ground, arg, false)
}

/// Whether an expression is a tuple without a mode's name, of constants, in parentheses or not.
#[tactic(auto, using(chill_tree::proofs::ExprViews::expr_built))]
pub fn is_constant_tuple(ground: &Evaluation<'_>, expr: &Expr) -> bool
    ensures { HasGround ground.now → result ≡ is_unnamed_tuple (ground_of ground.now) (expr_tree expr.now) }
{
    match expr {
        Expr::Paren { inner, .. } => is_constant_tuple(ground, inner),
        Expr::Tuple { mode, parts, .. } => mode.is_none() && have_form(ground, parts.as_slice()),
        Expr::Uniform { mode, value, .. } => mode.is_none() && has_form(ground, value, true),
        Expr::Whole { .. }
        | Expr::Char { .. }
        | Expr::Text { .. }
        | Expr::This { .. }
        | Expr::Receive { .. }
        | Expr::Start { .. }
        | Expr::Name(_)
        | Expr::Apply { .. }
        | Expr::Field { .. }
        | Expr::Prefixed { .. }
        | Expr::Binary { .. } => false,
    }
}
