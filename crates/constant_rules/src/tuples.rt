// Tuples of constants (Z.200, chapter on values).
ghost use Rattle.std.specs.Prelude.{◌≡◌, ◌++◌, true, List, option_map, IfOk, OnOk, IsTrue};
ghost use Rattle.chill_base.specs.declared.pos.Pos.{Pos};
ghost use Rattle.diagnostics.specs.declared.diagnostic.Diagnostic.{Diagnostic};
ghost use Rattle.chill_tree.specs.ExprTree.{expr_tree, range_tree, range_trees, range_nodes, tuple, uniform};
ghost use Rattle.modes.specs.ModeTree.{mode_tree};
ghost use Rattle.modes.specs.Form.{form_of};
ghost use Rattle.checks_model.specs.Told.{is_none_told};
ghost use Rattle.checks_model.specs.Classes.{shape_fits};
ghost use Rattle.checks_model.specs.Constants.{has_form, have_form, range_has_form};
ghost use Rattle.checks_model.specs.ConstantRules.{told_of_synonym_value};
ghost use Rattle.constant_operators.specs.Grounds.{ground_of, HasGround};
ghost use Rattle.constant_rules.specs.Found.{IsFound};
ghost use Rattle.constant_rules.specs.Walks.{FindsExpr, is_own, is_unnamed_tuple, synonym_value};
ghost use Rattle.constant_rules.specs.Tuples.{FindsTupled, FindsPart, FindsSpan, FindsSpans, IsSynonymValue, FindsSynonym, Receives};

use crate::constants::{known, needed, varying_part, varying_ranges};
use crate::forms::is_constant_tuple;
use crate::parts::{
    Blame, Part, Place, Span, Tupled, array_in, known_of_tuple, misfit_where, part_mode, part_of,
    part_of_tuple, shape_fits, tupled_of_spans, tupled_uniform,
};
use checks_model::tests_law;
use chill_base::{Memory, Pos, Scalars};
use chill_tree::tree::{Expr, Name, ValueRange};
use constant_operators::{Evaluation, Known};
use definition_origins::{CheckRule, Told};
use modes::Mode;
use std::rc::Rc;

/// A tuple of constants with the name of its mode.
#[cycle(expr)]
#[tactic(auto, using(crate::proofs::PartFound::named_found, crate::proofs::PartFound::unknown_found))]
pub fn named_parts(
    ground: &Evaluation<'_>,
    bracket: Pos,
    parts: &[ValueRange],
    name: &Name,
    told: &mut Told,
) -> Result<Known, Memory>
    ensures { HasGround ground.now → (at : Pos) → have_form (ground_of ground.now) (range_nodes (range_trees parts.now)) ≡ true → IfOk result (λ k.
        FindsExpr (ground_of ground.now) (tuple at (Some name.now) bracket (range_nodes (range_trees parts.now))) told.old told.new k) }
{
    let named = ground.mode_of_name(name)?;
    let Some(mode) = named else {
        let varying = varying_ranges(ground, parts, told)?;
        return Ok(constant_of_unknown(varying.is_clean));
    };
    let place = Place {
        bracket,
        blame: Blame::Each,
    };
    let tupled = parts_value(ground, place, parts, &mode, told)?;
    let known = known_of_tuple(tupled, &mode)?;
    Ok(known)
}

/// A tuple of one constant for all elements, with the name of its mode.
#[cycle(expr)]
#[tactic(auto, using(crate::proofs::PartFound::named_value_found, crate::proofs::PartFound::unknown_value_found))]
pub fn named_uniform(
    ground: &Evaluation<'_>,
    bracket: Pos,
    value: &Expr,
    name: &Name,
    told: &mut Told,
) -> Result<Known, Memory>
    ensures { HasGround ground.now → (at : Pos) → has_form (ground_of ground.now) true (expr_tree value.now) ≡ true → IfOk result (λ k.
        FindsExpr (ground_of ground.now) (uniform at (Some name.now) bracket (expr_tree value.now)) told.old told.new k) }
{
    let named = ground.mode_of_name(name)?;
    let Some(mode) = named else {
        let varying = varying_part(ground, value, told)?;
        return Ok(constant_of_unknown(varying.is_clean));
    };
    let place = Place {
        bracket,
        blame: Blame::Each,
    };
    let tupled = uniform_value(ground, place, value, &mode, told)?;
    let known = known_of_tuple(tupled, &mode)?;
    Ok(known)
}

// A constant of a mode that isn't known.
#[tactic(auto, using(crate::proofs::SpanFound::unknown_so, crate::proofs::SpanFound::unknown_told))]
fn constant_of_unknown(is_clean: bool) -> Known
    ensures { (t : List Diagnostic) → is_clean ≡ is_none_told t → IsFound true t None None result }
{
    if is_clean {
        return Known::unknown_constant();
    }
    Known::told(true)
}

/// The value of a synonym's expression that the written mode receives, where that is there and the value fits it: M10, M11 and
/// M1 of the expression, then M12 of the whole.
#[tactic(auto, using(crate::proofs::SynonymFound::plain_received, crate::proofs::SynonymFound::plain_told_before))]
pub fn synonym_value(
    ground: &Evaluation<'_>,
    expr: &Expr,
    mode: &Option<Rc<Mode>>,
    told: &mut Told,
) -> Result<Option<Scalars>, Memory>
    ensures told { HasGround ground.now → OnOk result (told.new ≡
        told.old ++ told_of_synonym_value (ground_of ground.now) true (option_map (λ m. mode_tree m.value) mode.now) (expr_tree expr.now)) }
    ensures value { HasGround ground.now → IfOk result
        (IsSynonymValue (option_map (λ m. mode_tree m.value) mode.now) (synonym_value (ground_of ground.now) (option_map (λ m. mode_tree m.value) mode.now) (expr_tree expr.now))) }
{
    tests_law();
    let Some(mode) = mode else {
        let value = value_without_mode(ground, expr, told)?;
        return Ok(value);
    };
    if is_constant_tuple(ground, expr) {
        let value = tuple_of_synonym(ground, expr, mode, told)?;
        return Ok(value);
    }
    let Some(known) = needed(ground, expr, told)? else {
        return Ok(None);
    };
    let value = value_received(part_of(expr.at(), known, mode), told)?;
    Ok(value)
}

// What is told of a synonym's expression whose written mode isn't there; it has no value.
#[tactic(auto, using(crate::proofs::SynonymFound::tuple_without, crate::proofs::SynonymFound::plain_without))]
fn value_without_mode(
    ground: &Evaluation<'_>,
    expr: &Expr,
    told: &mut Told,
) -> Result<Option<Scalars>, Memory>
    ensures { HasGround ground.now → IfOk result (λ v. (v ≡ None) × (told.new ≡ told.old ++ told_of_synonym_value (ground_of ground.now) true None (expr_tree expr.now))) }
{
    if is_constant_tuple(ground, expr) {
        let _ = known(ground, expr, told)?;
        return Ok(None);
    }
    let _ = needed(ground, expr, told)?;
    Ok(None)
}

// The value of a tuple without a mode's name, of which the parts are asked.
#[tactic(auto, using(crate::proofs::SynonymFound::tuple_received, crate::proofs::SynonymFound::tuple_told, crate::proofs::SynonymFound::unnamed_form))]
fn tuple_of_synonym(
    ground: &Evaluation<'_>,
    expr: &Expr,
    mode: &Rc<Mode>,
    told: &mut Told,
) -> Result<Option<Scalars>, Memory>
    ensures { HasGround ground.now → is_unnamed_tuple (ground_of ground.now) (expr_tree expr.now) ≡ true → IfOk result (λ v.
        FindsSynonym (ground_of ground.now) (mode_tree mode.now.value) (expr_tree expr.now) told.old told.new v) }
{
    let part = known_part(ground, expr, mode, Blame::Whole, told)?;
    if !part.known.is_clean {
        return Ok(None);
    }
    let value = value_received(part, told)?;
    Ok(value)
}

// The value of what the written mode of a synonym receives, with rule M12 where it doesn't fit.
fn value_received(part: Part, told: &mut Told) -> Result<Option<Scalars>, Memory>
    ensures { IfOk result (λ v. Receives part told.old told.new v) }
{
    if !part.fits() {
        told.tell(CheckRule::M12, part.at)?;
        return Ok(None);
    }
    Ok(part.into_value())
}

// What comes of a tuple that goes to a mode.
#[cycle(expr)]
#[tactic(auto, using(crate::proofs::TuplesFound::tuple_found, crate::proofs::PartFound::tuple_misfit))]
fn parts_value(
    ground: &Evaluation<'_>,
    place: Place,
    parts: &[ValueRange],
    mode: &Rc<Mode>,
    told: &mut Told,
) -> Result<Tupled, Memory>
    ensures { HasGround ground.now → (at : Pos) → have_form (ground_of ground.now) (range_nodes (range_trees parts.now)) ≡ true → IfOk result (λ t.
        FindsTupled (ground_of ground.now) place.blame (mode_tree mode.now.value) (tuple at None place.bracket (range_nodes (range_trees parts.now))) told.old told.new t) }
{
    if !shape_fits(parts, mode) {
        let parts = varying_ranges(ground, parts, told)?;
        let misfit = misfit_where(place, parts.is_clean, told)?;
        return Ok(misfit);
    }
    let spans = known_spans(ground, parts, mode, place.blame, told)?;
    let tupled = tupled_of_spans(ground.alloc, place, spans.as_slice(), mode, told)?;
    Ok(tupled)
}

// What comes of a tuple of one value for all elements of an array.
#[cycle(expr)]
#[tactic(auto, using(crate::proofs::PartFound::uniform_found, crate::proofs::PartFound::uniform_misfit))]
fn uniform_value(
    ground: &Evaluation<'_>,
    place: Place,
    value: &Expr,
    mode: &Rc<Mode>,
    told: &mut Told,
) -> Result<Tupled, Memory>
    ensures { HasGround ground.now → (at : Pos) → has_form (ground_of ground.now) true (expr_tree value.now) ≡ true → IfOk result (λ t.
        FindsTupled (ground_of ground.now) place.blame (mode_tree mode.now.value) (uniform at None place.bracket (expr_tree value.now)) told.old told.new t) }
{
    let Some(array) = array_in(mode) else {
        let varying = varying_part(ground, value, told)?;
        let misfit = misfit_where(place, varying.is_clean, told)?;
        return Ok(misfit);
    };
    let part = known_part(ground, value, array.element, place.blame, told)?;
    let tupled = tupled_uniform(ground.alloc, place, &part, array.index, told)?;
    Ok(tupled)
}

// What is known of a part that goes to a mode.
#[cycle(expr)]
#[tactic(auto, using(crate::proofs::SpanFound::part_views))]
fn known_part(
    ground: &Evaluation<'_>,
    expr: &Expr,
    mode: &Rc<Mode>,
    blame: Blame,
    told: &mut Told,
) -> Result<Part, Memory>
    ensures { HasGround ground.now → has_form (ground_of ground.now) true (expr_tree expr.now) ≡ true → IfOk result (λ part.
        FindsPart (ground_of ground.now) blame (Some (mode_tree mode.now.value)) (expr_tree expr.now) told.old told.new part) }
{
    tests_law();
    match expr {
        Expr::Paren { at, inner } => {
            let part = known_part(ground, inner, mode, blame, told)?;
            Ok(part.placed(*at))
        }
        Expr::Tuple {
            at,
            mode: name,
            bracket,
            parts,
        } => match name {
            Some(_) => own_part(ground, expr, mode, blame, told),
            None => {
                let place = Place {
                    bracket: *bracket,
                    blame,
                };
                let tupled = parts_value(ground, place, parts.as_slice(), mode, told)?;
                let tuple = part_of_tuple(*at, blame, tupled, mode)?;
                Ok(tuple)
            }
        },
        Expr::Uniform {
            at,
            mode: name,
            bracket,
            value,
        } => match name {
            Some(_) => own_part(ground, expr, mode, blame, told),
            None => {
                let place = Place {
                    bracket: *bracket,
                    blame,
                };
                let all = uniform_value(ground, place, value, mode, told)?;
                let uniform = part_of_tuple(*at, blame, all, mode)?;
                Ok(uniform)
            }
        },
        Expr::Whole { .. }
        | Expr::Char { .. }
        | Expr::Text { .. }
        | Expr::This { .. }
        | Expr::Receive { .. }
        | Expr::Start { .. }
        | Expr::Name(_)
        | Expr::Apply { .. }
        | Expr::Field { .. }
        | Expr::Prefixed { .. }
        | Expr::Binary { .. } => own_part(ground, expr, mode, blame, told),
    }
}

// What is known of a part that isn't in parentheses, and no tuple without a mode's name.
#[cycle(expr)]
fn own_part(
    ground: &Evaluation<'_>,
    expr: &Expr,
    mode: &Rc<Mode>,
    blame: Blame,
    told: &mut Told,
) -> Result<Part, Memory>
    ensures { HasGround ground.now → is_own (expr_tree expr.now) ≡ true → has_form (ground_of ground.now) true (expr_tree expr.now) ≡ true → IfOk result (λ part.
        FindsPart (ground_of ground.now) blame (Some (mode_tree mode.now.value)) (expr_tree expr.now) told.old told.new part) }
{
    tests_law();
    let known = known(ground, expr, told)?;
    Ok(part_of(expr.at(), known, mode))
}

// What is known of the parts of a tuple that has the form of its mode.
#[cycle(expr)]
#[tactic(auto, using(crate::proofs::SpanFound::spans_views))]
fn known_spans(
    ground: &Evaluation<'_>,
    parts: &[ValueRange],
    mode: &Rc<Mode>,
    blame: Blame,
    told: &mut Told,
) -> Result<Vec<Span>, Memory>
    ensures { HasGround ground.now → have_form (ground_of ground.now) (range_nodes (range_trees parts.now)) ≡ true →
        shape_fits (range_nodes (range_trees parts.now)) (form_of (mode_tree mode.now.value)) ≡ true → IfOk result (λ spans.
        FindsSpans (ground_of ground.now) blame (mode_tree mode.now.value) (range_nodes (range_trees parts.now)) told.old told.new spans.items) }
{
    let mut spans = Vec::new(ground.alloc);
    for (place, range) in parts.iter().enumerate() {
        let Some(own) = part_mode(mode, place) else {
            return Ok(spans);
        };
        spans.push(known_span(ground, range, own, blame, told)?)?;
    }
    Ok(spans)
}

// What is known of a part, which may be a range between two.
#[cycle(expr)]
#[tactic(auto, using(crate::proofs::SpanFound::span_views))]
fn known_span(
    ground: &Evaluation<'_>,
    range: &ValueRange,
    mode: &Rc<Mode>,
    blame: Blame,
    told: &mut Told,
) -> Result<Span, Memory>
    ensures { HasGround ground.now → range_has_form (ground_of ground.now) (range_tree range.now) ≡ true → IfOk result (λ span.
        FindsSpan (ground_of ground.now) blame (Some (mode_tree mode.now.value)) (range_tree range.now) told.old told.new span) }
{
    let first = known_part(ground, &range.first, mode, blame, told)?;
    match &range.last {
        None => Ok(Span { first, last: None }),
        Some(last) => {
            let last = known_part(ground, last, mode, blame, told)?;
            Ok(Span {
                first,
                last: Some(last),
            })
        }
    }
}
