// Predefined routines in constants, and the rules on them (Z.200, chapter on values).
ghost use Rattle.std.specs.Prelude.{◌≡◌, Bool, true, List, [], ◌∷◌, Option, Some, None, IfOk, IsTrue};
ghost use Rattle.diagnostics.specs.declared.diagnostic.Diagnostic.{Diagnostic};
ghost use Rattle.diagnostics.specs.declared.rule.Rule.TheVariants as rules;
ghost use Rattle.chill_tree.specs.ExprTree.{expr_tree, expr_trees, expr_nodes};
ghost use Rattle.chill_base.specs.declared.pos.Pos.{Pos};
ghost use Rattle.modes.specs.ModeTree.{ClassTree, mode_tree};
ghost use Rattle.class_operators.specs.Predefined.{predefined_tree};
ghost use Rattle.checks_model.specs.ValueTrees.{ValueTree};
ghost use Rattle.checks_model.specs.Told.{tell_at, is_none_told};
ghost use Rattle.checks_model.specs.Operations.{is_measuring};
ghost use Rattle.checks_model.specs.Ground as model;
ghost use Rattle.checks_model.specs.Classes.{measured, a_mode_of, misfit, other};
ghost use Rattle.checks_model.specs.Constants.{is_value_routine};
ghost use Rattle.checks_model.specs.ConstantRules.{told_if_constant};
ghost use Rattle.constant_operators.specs.Grounds.{ground_of, HasGround};
ghost use Rattle.constant_operators.specs.Laid.{is_laid};
ghost use Rattle.constant_operators.specs.Known.{routine_class, routine_value};
ghost use Rattle.constant_rules.specs.Found.{IsFound, Finds, FindsAt};
ghost use Rattle.constant_rules.specs.Walks.{FindsRoutine, FindsMeasure, routine_told};

use crate::constants::{known, varying_parts};
use crate::forms::are_arguments;
use crate::operators::told_of_computed;
use chill_base::{Memory, Pos};
use chill_tree::tree::Expr;
use class_operators::{is_measuring, is_value_routine};
use constant_operators::{Evaluation, Known, Measured};
use definition_origins::{CheckRule, Predefined, Told};
use modes::Mode;
use std::rc::Rc;

/// What is known of a call of a predefined name.
#[cycle(expr)]
#[tactic(auto, using(crate::proofs::OfNodes::other_routine, crate::proofs::OfNodes::wrong_number, crate::proofs::OfNodes::value_found, crate::proofs::OfNodes::measure_found, crate::proofs::OfNodes::counted))]
pub fn routine(
    ground: &Evaluation<'_>,
    at: Pos,
    own: Predefined,
    args: &[Expr],
    told: &mut Told,
) -> Result<Known, Memory>
    ensures { HasGround ground.now → IfOk result (λ k. FindsRoutine (ground_of ground.now) at (predefined_tree own) (expr_nodes (expr_trees args.now)) told.old told.new k) }
{
    if !is_value_routine(own) {
        let varying = varying_parts(ground, args, told)?;
        return Ok(varying);
    }
    if args.len() != 1 {
        let parts = varying_parts(ground, args, told)?;
        let is_constant = are_arguments(ground, own, args);
        let wrong = wrong_number(at, is_constant, parts.is_clean, told)?;
        return Ok(wrong);
    }
    let arg = &args[0];
    let found = known(ground, arg, told)?;
    if is_measuring(own) {
        let measured = measuring_routine(ground, at, own, arg, &found, told)?;
        return Ok(measured);
    }
    let valued = value_routine(ground, at, own, &found, told)?;
    Ok(valued)
}

// A routine that doesn't have exactly one argument.
#[tactic(auto, using(crate::proofs::OfNodes::node_told, crate::proofs::OfNodes::node_varying, crate::proofs::OfNodes::node_found))]
fn wrong_number(
    at: Pos,
    is_constant: bool,
    is_clean: bool,
    told: &mut Told,
) -> Result<Known, Memory>
    ensures { (before : List Diagnostic) (c : Option ClassTree) (v : Option ValueTree) → is_clean ≡ is_none_told before →
        IfOk result (λ k. FindsAt is_constant before (told_if_constant is_constant (tell_at rules.M10 at ∷ [])) c v told.old told.new k) }
{
    if !is_constant {
        return Ok(Known::varying(is_clean));
    }
    if is_clean {
        told.tell(CheckRule::M10, at)?;
    }
    Ok(Known::told(true))
}

// A routine of the value of its argument.
#[tactic(auto, using(crate::proofs::OfNodes::node_told, crate::proofs::OfNodes::node_varying, crate::proofs::OfNodes::node_found))]
fn value_routine(
    ground: &Evaluation<'_>,
    at: Pos,
    own: Predefined,
    arg: &Known,
    told: &mut Told,
) -> Result<Known, Memory>
    ensures { HasGround ground.now → IsTrue (is_value_routine (predefined_tree own)) → (f : Bool) (t : List Diagnostic) (c : Option ClassTree) (v : Option ValueTree) →
        IsFound f t c v arg.now →
        IfOk result (λ k. FindsAt f t (told_if_constant f (routine_told at (predefined_tree own) c v))
        (routine_class (predefined_tree own) c) (routine_value (predefined_tree own) c v) told.old told.new k) }
{
    if !arg.is_constant {
        return Ok(Known::varying(arg.is_clean));
    }
    if !arg.is_clean {
        return Ok(Known::told(true));
    }
    let computed = ground.computed_routine(own, arg)?;
    let known = told_of_computed(computed, at, told)?;
    Ok(known)
}

// UPPER, LOWER or SIZE.
#[tactic(auto, using(crate::proofs::OfMeasures::measured_so, crate::proofs::OfMeasures::mode_laid, constant_operators::proofs::LaidParts::measured_laid))]
fn measuring_routine(
    ground: &Evaluation<'_>,
    at: Pos,
    own: Predefined,
    arg: &Expr,
    known: &Known,
    told: &mut Told,
) -> Result<Known, Memory>
    ensures { HasGround ground.now → IsTrue (is_measuring (predefined_tree own)) → (f : Bool) (t : List Diagnostic) (c : Option ClassTree) (v : Option ValueTree) → IsFound f t c v known.now →
        IfOk result (λ k. FindsMeasure at (predefined_tree own) (measured (ground_of ground.now) (expr_tree arg.now)) f t c told.old told.new k) }
{
    match ground.measured(arg)? {
        Measured::Mode(mode) => {
            let measured = of_mode(ground, at, own, &mode, known.is_clean, told)?;
            Ok(measured)
        }
        Measured::Misfit => {
            let part = of_misfit(at, known.is_clean, told)?;
            Ok(part)
        }
        Measured::Broken => Ok(of_broken(known.is_clean)),
        Measured::Other => {
            let other = of_other(at, known, told)?;
            Ok(other)
        }
    }
}

// UPPER, LOWER or SIZE of a mode.
#[tactic(auto, using(crate::proofs::OfMeasures::mode_unclean, crate::proofs::OfMeasures::mode_fits, crate::proofs::OfMeasures::mode_misfits))]
fn of_mode(
    ground: &Evaluation<'_>,
    at: Pos,
    own: Predefined,
    mode: &Rc<Mode>,
    is_clean: bool,
    told: &mut Told,
) -> Result<Known, Memory>
    ensures { HasGround ground.now → IsTrue (is_measuring (predefined_tree own)) → IsTrue (is_laid (mode_tree mode.now.value)) → (f : Bool) (t : List Diagnostic) (c : Option ClassTree) → is_clean ≡ is_none_told t →
        IfOk result (λ k. FindsMeasure at (predefined_tree own) (a_mode_of (Some (mode_tree mode.now.value))) f t c told.old told.new k) }
{
    if !is_clean {
        return Ok(Known::told(true));
    }
    match ground.measure_of(own, mode)? {
        None => {
            told.tell(CheckRule::M10, at)?;
            Ok(Known::told(true))
        }
        Some(known) => Ok(known),
    }
}

// Of a part that doesn't fit.
#[tactic(auto, using(crate::proofs::OfMeasures::part_unclean, crate::proofs::OfMeasures::part_misfits))]
fn of_misfit(at: Pos, is_clean: bool, told: &mut Told) -> Result<Known, Memory>
    ensures { (p : model.Predefined) (f : Bool) (t : List Diagnostic) (c : Option ClassTree) → is_clean ≡ is_none_told t → IfOk result (λ k. FindsMeasure at p misfit f t c told.old told.new k) }
{
    if !is_clean {
        return Ok(Known::told(true));
    }
    told.tell(CheckRule::M10, at)?;
    Ok(Known::told(true))
}

// Of a mode that isn't known.
#[tactic(auto, using(crate::proofs::OfMeasures::mode_unclean, crate::proofs::OfMeasures::mode_unknown))]
fn of_broken(is_clean: bool) -> Known
    ensures { (at : Pos) (p : model.Predefined) (f : Bool) (t : List Diagnostic) (c : Option ClassTree) (old : List Diagnostic) → is_clean ≡ is_none_told t → FindsMeasure at p (a_mode_of None) f t c old old result }
{
    if !is_clean {
        return Known::told(true);
    }
    Known::unknown_constant()
}

// Of what is neither a mode nor a location or parameter.
#[tactic(auto, using(crate::proofs::OfMeasures::other_varying, crate::proofs::OfMeasures::other_unclean, crate::proofs::OfMeasures::other_unknown, crate::proofs::OfMeasures::other_misfits))]
fn of_other(at: Pos, known: &Known, told: &mut Told) -> Result<Known, Memory>
    ensures { (p : model.Predefined) (f : Bool) (t : List Diagnostic) (c : Option ClassTree) (v : Option ValueTree) → IsFound f t c v known.now → IfOk result (λ k. FindsMeasure at p other f t c told.old told.new k) }
{
    if !known.is_constant {
        return Ok(Known::varying(known.is_clean));
    }
    if !known.is_clean {
        return Ok(Known::told(true));
    }
    match &known.class {
        None => Ok(Known::unknown_constant()),
        Some(_) => {
            told.tell(CheckRule::M10, at)?;
            Ok(Known::told(true))
        }
    }
}
