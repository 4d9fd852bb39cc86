// Readers of actions that begin with a name: assignments and calls (Z.200, assignment action, call action).
ghost use Rattle.std.specs.Prelude.{◌≡◌, ◌-◌, option_map};
ghost use Rattle.chill_tree.specs.ExprTree.{boxed_expr, expr_trees};
ghost use Rattle.chill_tree.specs.SimpleTree.{simple_tree};
ghost use Rattle.expr_parser.specs.Giving.{Gives};
ghost use Rattle.rules_model.specs.Marks as marks;
ghost use Rattle.rules_model.specs.SimpleReading.{applied_at, assigned_at, assignment_at, named_action_at};
ghost use Rattle.rules_model.specs.SimpleReading as reading;
ghost use Rattle.statement_parser.specs.Tails.{updated_at};

use chill_base::{List, Pos};
use chill_tree::tree::{Expr, Name, Operator, Simple};
use chill_tree::{Sign, Token};
use expr_parser::{
    ParseRefusal, behind, operator_of, place, read_args, read_location_parts, read_name, read_sign,
    read_value, starts,
};
use std::alloc::Global;

/// Reads an action that begins with a name; `inner` levels of nesting are left behind an opening token.
#[tactic(auto, unfolding(rules_model::specs::SimpleReading::named_action_at))]
pub fn read_named_action(
    alloc: Global,
    tokens: &[Token],
    inner: usize,
) -> Result<(Simple, &[Token]), ParseRefusal>
    ensures { Gives (λ x. (simple_tree x.0, x.1.now)) result (named_action_at inner tokens.now) }
{
    let (name, rest) = read_name(tokens)?;
    if !starts(rest, Sign::Open) {
        return assignment(alloc, Expr::name(alloc, name)?, rest, inner, 0);
    }
    let (args, rest) = read_args(alloc, rest, inner)?;
    applied(alloc, name, args, rest, inner)
}

// A call, or what is assigned to an element, if the brackets have one expression and more of a location or of an
// assignment follows.
#[tactic(auto, unfolding(rules_model::specs::SimpleReading::applied_at), using(crate::proofs::Counts::as_many))]
fn applied(
    alloc: Global,
    name: Name,
    args: List<Expr>,
    tokens: &[Token],
    inner: usize,
) -> Result<(Simple, &[Token]), ParseRefusal>
    ensures { Gives (λ x. (simple_tree x.0, x.1.now)) result (applied_at inner name (expr_trees args) tokens.now) }
{
    if begins_more(tokens) && args.len() == 1 {
        let element = Expr::apply(alloc, Expr::name(alloc, name)?, args)?;
        return assignment(alloc, element, tokens, inner, 1);
    }
    let action = Simple::Call {
        at: name.at,
        call: false,
        name,
        args,
    };
    Ok((action, tokens))
}

// Whether more of a location or of an assignment stands at the front.
fn begins_more(tokens: &[Token]) -> bool
    ensures { result ≡ reading.begins_more tokens.now }
{
    starts(tokens, Sign::Open)
        || starts(tokens, Sign::Dot)
        || starts(tokens, Sign::Becomes)
        || matches!(update_of(tokens), Some(_))
}

// Reads the rest of a location, so many parts of which were read, and what is assigned to it.
#[tactic(auto, unfolding(rules_model::specs::SimpleReading::assignment_at))]
fn assignment(
    alloc: Global,
    first: Box<Expr>,
    tokens: &[Token],
    inner: usize,
    read: usize,
) -> Result<(Simple, &[Token]), ParseRefusal>
    ensures { Gives (λ x. (simple_tree x.0, x.1.now)) result (assignment_at inner (32 - read) (boxed_expr first) tokens.now) }
{
    let (target, rest) = read_location_parts(alloc, first, tokens, inner, read)?;
    assigned(alloc, target, rest, inner)
}

// Reads what is assigned to a location.
#[tactic(auto, unfolding(rules_model::specs::SimpleReading::assigned_at, crate::specs::Tails::updated_at))]
fn assigned(
    alloc: Global,
    target: Box<Expr>,
    tokens: &[Token],
    inner: usize,
) -> Result<(Simple, &[Token]), ParseRefusal>
    ensures { Gives (λ x. (simple_tree x.0, x.1.now)) result (assigned_at inner (boxed_expr target) tokens.now) }
{
    if starts(tokens, Sign::Becomes) {
        let (_, rest) = read_sign(tokens, Sign::Becomes)?;
        let (value, rest) = read_value(alloc, rest, inner)?;
        let at = target.at();
        return Ok((Simple::Assign { at, target, value }, rest));
    }
    match update_of(tokens) {
        Some((sign, operator)) => updated(alloc, target, operator, sign, behind(tokens), inner),
        None => Err(ParseRefusal::NoProgram { at: place(tokens) }),
    }
}

// Reads the other operand of an assignment with an operator, from behind that on.
#[tactic(auto, unfolding(crate::specs::Tails::updated_at))]
fn updated(
    alloc: Global,
    target: Box<Expr>,
    operator: Operator,
    sign: Pos,
    tokens: &[Token],
    inner: usize,
) -> Result<(Simple, &[Token]), ParseRefusal>
    ensures { Gives (λ x. (simple_tree x.0, x.1.now)) result (updated_at inner (boxed_expr target) (sign, operator) tokens.now) }
{
    let (_, rest) = read_sign(tokens, Sign::Becomes)?;
    let (value, rest) = read_value(alloc, rest, inner)?;
    let at = target.at();
    let action = Simple::Update {
        at,
        target,
        operator,
        sign,
        value,
    };
    Ok((action, rest))
}

// The operator of an assignment at the front, with its place.
fn update_of(tokens: &[Token]) -> Option<(Pos, Operator)>
    ensures { option_map (λ o. (o.0, o.1)) result ≡ reading.update_of tokens.now }
{
    match tokens.first() {
        Some(token) => match operator_of(&token.kind) {
            Some(operator) => {
                if may_update(operator) {
                    Some((token.at, operator))
                } else {
                    None
                }
            }
            None => None,
        },
        None => None,
    }
}

// Whether an operator may stand before the sign of an assignment.
fn may_update(operator: Operator) -> bool
    ensures { result ≡ marks.may_update operator }
{
    match operator {
        Operator::Or | Operator::Xor | Operator::And => true,
        Operator::Plus | Operator::Minus => true,
        Operator::Times | Operator::Divide | Operator::Mod | Operator::Rem => true,
        Operator::OrIf | Operator::AndIf | Operator::In => false,
        Operator::Equal | Operator::NotEqual | Operator::Less | Operator::LessOrEqual => false,
        Operator::Greater | Operator::GreaterOrEqual => false,
    }
}
