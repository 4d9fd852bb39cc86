// Constants, and the rules on them: what is known of each expression in the phase of modes (Z.200, chapter on values).
ghost use Rattle.std.specs.Prelude.{◌≡◌, ◌&&◌, false, [], option_map, if◌then◌else◌, IfOk, IsTrue, pos, neg_ℤ, None};
ghost use Rattle.chill_tree.specs.ExprTree.{expr_tree, expr_trees, range_tree, range_trees, expr_nodes, range_nodes, prefixed};
ghost use Rattle.chill_tree.specs.ExprTree.{name as tree_of_name};
ghost use Rattle.checks_model.specs.Classes.{class_of};
ghost use Rattle.checks_model.specs.Constants.{constant_of, has_form};
ghost use Rattle.checks_model.specs.ConstantRules.{told_of_constants, told_in_each};
ghost use Rattle.constant_operators.specs.Grounds.{ground_of, HasGround};
ghost use Rattle.constant_rules.specs.Found.{IsFound, Varies};
ghost use Rattle.constant_rules.specs.Walks.{FindsExpr, FindsLiteral, FindsNeeded, told_in_all, told_in_ends, is_apply, minus_literal};

use crate::calls::routine;
use crate::forms::{has_form, have_form};
use crate::operators::{binary, unary};
use crate::tuples::{named_parts, named_uniform};
use chill_base::{Memory, Pos};
use chill_tree::tree::{Expr, Name, Prefix, ValueRange};
use constant_operators::{Evaluation, Known};
use definition_origins::{CheckRule, Told};

/// What is known of an expression where a constant is needed, or none where something is told in it or at it.
#[tactic(auto, using(crate::proofs::OfNodes::needed_told, crate::proofs::OfNodes::needed_other, crate::proofs::OfNodes::needed_found))]
pub fn needed(
    ground: &Evaluation<'_>,
    expr: &Expr,
    told: &mut Told,
) -> Result<Option<Known>, Memory>
    ensures { HasGround ground.now → IfOk result (FindsNeeded (ground_of ground.now) (expr_tree expr.now) told.old told.new) }
{
    let known = known(ground, expr, told)?;
    if !known.is_clean {
        return Ok(None);
    }
    if !known.is_constant {
        told.tell(CheckRule::M1, expr.at())?;
        return Ok(None);
    }
    Ok(Some(known))
}

/// What is known of an expression, as a constant.
#[cycle(expr)]
#[tactic(auto, using(crate::proofs::OfKinds::known_views))]
pub fn known(ground: &Evaluation<'_>, expr: &Expr, told: &mut Told) -> Result<Known, Memory>
    ensures { HasGround ground.now → IfOk result (λ k. FindsExpr (ground_of ground.now) (expr_tree expr.now) told.old told.new k) }
{
    match expr {
        Expr::Whole { at, value } => {
            let literal = whole(ground, *at, *value, told)?;
            Ok(literal)
        }
        Expr::Char { value, .. } => {
            let character = ground.character(*value)?;
            Ok(character)
        }
        Expr::Text { value, .. } => {
            let text = ground.text(value)?;
            Ok(text)
        }
        Expr::This { .. } => Ok(Known::varying(true)),
        Expr::Receive { .. } => Ok(Known::varying(true)),
        Expr::Paren { inner, .. } => {
            let inner = known(ground, inner, told)?;
            Ok(inner)
        }
        Expr::Start { args, .. } => {
            let args = varying_parts(ground, args.as_slice(), told)?;
            Ok(args)
        }
        Expr::Tuple {
            mode,
            bracket,
            parts,
            ..
        } => match name_if(mode, have_form(ground, parts.as_slice())) {
            Some(name) => {
                let tuple = named_parts(ground, *bracket, parts.as_slice(), name, told)?;
                Ok(tuple)
            }
            None => {
                let ranges = varying_ranges(ground, parts.as_slice(), told)?;
                Ok(ranges)
            }
        },
        Expr::Uniform {
            mode,
            bracket,
            value,
            ..
        } => match name_if(mode, has_form(ground, value, true)) {
            Some(name) => {
                let all = named_uniform(ground, *bracket, value, name, told)?;
                Ok(all)
            }
            None => {
                let one = varying_part(ground, value, told)?;
                Ok(one)
            }
        },
        Expr::Name(name) => {
            let constant = named(ground, name)?;
            Ok(constant)
        }
        Expr::Apply { .. } => {
            let call = applied(ground, expr, told)?;
            Ok(call)
        }
        Expr::Field { of, .. } => {
            let field = varying_part(ground, of, told)?;
            Ok(field)
        }
        Expr::Prefixed {
            at,
            operator,
            operand,
        } => {
            let own = prefixed(ground, *at, *operator, operand, told)?;
            Ok(own)
        }
        Expr::Binary {
            left,
            operator,
            sign,
            right,
            ..
        } => {
            let one = known(ground, left, told)?;
            let other = known(ground, right, told)?;
            let both = binary(ground, *operator, *sign, &one, &other, told)?;
            Ok(both)
        }
    }
}

// The name of a tuple's mode, where the tuple has the form of a constant.
fn name_if(mode: &Option<Name>, has_form: bool) -> Option<&Name>
    ensures { option_map (λ n. n.now) result ≡ (if has_form then mode.now else None) }
{
    match mode {
        None => None,
        Some(name) => {
            if !has_form {
                return None;
            }
            Some(name)
        }
    }
}

// The greatest value of INT.
const MOST: u64 = 2_147_483_647;

// A literal, which is one of INT.
#[tactic(auto, using(crate::proofs::OfKinds::literal_found, crate::proofs::OfKinds::literal_told))]
fn whole(ground: &Evaluation<'_>, at: Pos, value: u64, told: &mut Told) -> Result<Known, Memory>
    ensures { HasGround ground.now → IfOk result (λ k. FindsLiteral at 2147483647 value (pos value) told.old told.new k) }
{
    if value > MOST {
        told.tell(CheckRule::M11, at)?;
        return Ok(Known::told(true));
    }
    ground.int(value as i64)
}

// A literal.
#[derive(Clone, Copy)]
struct Literal {
    at: Pos,
    value: u64,
}

// The literal that makes one number with a minus before it.
#[tactic(auto, using(chill_tree::proofs::ExprViews::expr_built))]
fn minus_literal(operator: Prefix, operand: &Expr) -> Option<Literal>
    ensures { option_map (λ l. (l.at, l.value)) result ≡ minus_literal operator (expr_tree operand.now) }
{
    match operator {
        Prefix::Not => None,
        Prefix::Minus => match operand {
            Expr::Whole { at, value } => Some(Literal {
                at: *at,
                value: *value,
            }),
            Expr::Char { .. }
            | Expr::Text { .. }
            | Expr::This { .. }
            | Expr::Paren { .. }
            | Expr::Receive { .. }
            | Expr::Start { .. }
            | Expr::Tuple { .. }
            | Expr::Uniform { .. }
            | Expr::Name(_)
            | Expr::Apply { .. }
            | Expr::Field { .. }
            | Expr::Prefixed { .. }
            | Expr::Binary { .. } => None,
        },
    }
}

// The number of a literal behind a minus.
#[tactic(auto, using(crate::proofs::OfKinds::negative_literal, crate::proofs::OfKinds::literal_told))]
fn negative(ground: &Evaluation<'_>, at: Pos, value: u64, told: &mut Told) -> Result<Known, Memory>
    ensures { HasGround ground.now → IfOk result (λ k. FindsLiteral at 2147483648 value (neg_ℤ (pos value)) told.old told.new k) }
{
    if value > MOST + 1 {
        told.tell(CheckRule::M11, at)?;
        return Ok(Known::told(true));
    }
    ground.int(-(value as i64))
}

// A name alone: a synonym, an element, TRUE, FALSE and NULL are constants.
#[tactic(auto, using(crate::proofs::OfKinds::name_unknown, crate::proofs::OfKinds::name_varying, crate::proofs::OfKinds::name_found))]
fn named(ground: &Evaluation<'_>, name: &Name) -> Result<Known, Memory>
    ensures { HasGround ground.now → IfOk result (λ k.
        IsFound (has_form (ground_of ground.now) false (tree_of_name name.now)) [] (class_of (ground_of ground.now) (tree_of_name name.now)) (constant_of (ground_of ground.now) (tree_of_name name.now)) k) }
{
    match ground.used_at(name.at) {
        None => Ok(Known::varying(true)),
        Some(number) => {
            if !ground.is_constant_name(number) {
                return Ok(Known::varying(true));
            }
            ground.constant_name(number)
        }
    }
}

// Brackets behind an expression, which is handed down whole, since both it and what is in the brackets are parts: a routine
// is computed.
#[cycle(expr)]
#[tactic(auto, using(crate::proofs::OfKinds::applied_views))]
fn applied(ground: &Evaluation<'_>, expr: &Expr, told: &mut Told) -> Result<Known, Memory>
    ensures { HasGround ground.now → IsTrue (is_apply (expr_tree expr.now)) → IfOk result (λ k. FindsExpr (ground_of ground.now) (expr_tree expr.now) told.old told.new k) }
{
    match expr {
        Expr::Apply { of, args, .. } => match ground.routine_called(of) {
            Some(own) => {
                let known = routine(ground, of.at(), own, args.as_slice(), told)?;
                Ok(known)
            }
            None => {
                let base = known(ground, of, told)?;
                let parts = varying_parts(ground, args.as_slice(), told)?;
                Ok(Known::varying(both(base.is_clean, parts.is_clean)))
            }
        },
        Expr::Whole { .. }
        | Expr::Char { .. }
        | Expr::Text { .. }
        | Expr::This { .. }
        | Expr::Paren { .. }
        | Expr::Receive { .. }
        | Expr::Start { .. }
        | Expr::Tuple { .. }
        | Expr::Uniform { .. }
        | Expr::Name(_)
        | Expr::Field { .. }
        | Expr::Prefixed { .. }
        | Expr::Binary { .. } => Ok(Known::varying(true)),
    }
}

// An operator before its operand.
#[cycle(expr)]
#[tactic(auto, using(crate::proofs::OfExprs::negative_found, crate::proofs::OfExprs::prefixed_found))]
fn prefixed(
    ground: &Evaluation<'_>,
    at: Pos,
    operator: Prefix,
    operand: &Expr,
    told: &mut Told,
) -> Result<Known, Memory>
    ensures { HasGround ground.now → IfOk result (λ k. FindsExpr (ground_of ground.now) (prefixed at operator (expr_tree operand.now)) told.old told.new k) }
{
    if let Some(own) = minus_literal(operator, operand) {
        let literal = negative(ground, own.at, own.value, told)?;
        return Ok(literal);
    }
    let found = known(ground, operand, told)?;
    let own = unary(ground, operator, at, &found, told)?;
    Ok(own)
}

/// What isn't constant, whose part may be broken by itself.
#[cycle(expr)]
#[tactic(auto, using(crate::proofs::OfKinds::part_varies))]
pub fn varying_part(ground: &Evaluation<'_>, part: &Expr, told: &mut Told) -> Result<Known, Memory>
    ensures { HasGround ground.now → IfOk result (λ k. Varies (told_of_constants (ground_of ground.now) (expr_tree part.now)) told.old told.new k) }
{
    let part = known(ground, part, told)?;
    Ok(Known::varying(part.is_clean))
}

/// What isn't constant, whose parts may be broken by themselves.
#[cycle(expr)]
#[tactic(auto, using(crate::proofs::Lists::exprs_views))]
pub fn varying_parts(
    ground: &Evaluation<'_>,
    parts: &[Expr],
    told: &mut Told,
) -> Result<Known, Memory>
    ensures { HasGround ground.now → IfOk result (λ k. Varies (told_in_each (ground_of ground.now) (expr_nodes (expr_trees parts.now))) told.old told.new k) }
{
    let mut is_clean = true;
    for part in parts {
        let part = known(ground, part, told)?;
        is_clean = both(is_clean, part.is_clean);
    }
    Ok(Known::varying(is_clean))
}

/// The parts of a tuple that isn't constant.
#[cycle(expr)]
#[tactic(auto, using(crate::proofs::Lists::ranges_views))]
pub fn varying_ranges(
    ground: &Evaluation<'_>,
    parts: &[ValueRange],
    told: &mut Told,
) -> Result<Known, Memory>
    ensures { HasGround ground.now → IfOk result (λ k. Varies (told_in_all (ground_of ground.now) (range_nodes (range_trees parts.now))) told.old told.new k) }
{
    let mut is_clean = true;
    for part in parts {
        let part = varying_ends(ground, part, told)?;
        is_clean = both(is_clean, part.is_clean);
    }
    Ok(Known::varying(is_clean))
}

// An expression, or two with what lies between them.
#[cycle(expr)]
#[tactic(auto, using(crate::proofs::OfKinds::ends_views))]
fn varying_ends(
    ground: &Evaluation<'_>,
    part: &ValueRange,
    told: &mut Told,
) -> Result<Known, Memory>
    ensures { HasGround ground.now → IfOk result (λ k. Varies (told_in_ends (ground_of ground.now) (range_tree part.now)) told.old told.new k) }
{
    let first = known(ground, &part.first, told)?;
    match &part.last {
        None => Ok(Known::varying(first.is_clean)),
        Some(last) => {
            let last = known(ground, last, told)?;
            Ok(Known::varying(both(first.is_clean, last.is_clean)))
        }
    }
}

// Whether nothing is told in two parts.
fn both(first: bool, second: bool) -> bool
    ensures { result ≡ (first && second) }
{
    first && second
}
