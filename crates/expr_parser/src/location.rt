// Readers of locations: a name, and behind it elements and fields (Z.200, chapter on locations).
ghost use Rattle.std.specs.Prelude.{◌≡◌, ◌∷◌, [], ◌-◌, IfOk, option_map};
ghost use Rattle.chill_tree.specs.ExprTree.{boxed_expr, expr_trees};
ghost use Rattle.expr_parser.specs.Giving.{Gives};
ghost use Rattle.expr_parser.specs.Parts.{part_of};
ghost use Rattle.rules_model.specs.ExprReading.{expr_at, location_part_at, location_parts_at, location_at};

use crate::ParseRefusal;
use crate::expr::{TURNS, read_expr};
use crate::part::{NamePart, read_field, with_part};
use crate::reader::{read_name, read_sign, starts};
use chill_base::{List, Memory};
use chill_tree::tree::Expr;
use chill_tree::{Sign, Token};
use std::alloc::Global;

/// Reads a location, where `inner` levels of nesting are left behind an opening token.
#[tactic(auto, unfolding(rules_model::specs::ExprReading::location_at))]
pub fn read_location(
    alloc: Global,
    tokens: &[Token],
    inner: usize,
) -> Result<(Box<Expr>, &[Token]), ParseRefusal>
    ensures { Gives (λ x. (boxed_expr x.0, x.1.now)) result (location_at (expr_at inner) tokens.now) }
{
    let (name, rest) = read_name(tokens)?;
    read_location_parts(alloc, Expr::name(alloc, name)?, rest, inner, 0)
}

/// Reads the parts of a location behind what there is of it, so many of which were read.
#[tactic(auto, using(crate::proofs::Repeats::repeats))]
pub fn read_location_parts(
    alloc: Global,
    first: Box<Expr>,
    tokens: &[Token],
    inner: usize,
    read: usize,
) -> Result<(Box<Expr>, &[Token]), ParseRefusal>
    ensures { Gives (λ x. (boxed_expr x.0, x.1.now)) result (location_parts_at (expr_at inner) (32 - read) (boxed_expr first) tokens.now) }
{
    let mut of = first;
    let mut rest = tokens;
    for _ in read..TURNS {
        let Some((piece, after)) = location_part(alloc, rest, inner)? else {
            return Ok((of, rest));
        };
        of = with_part(alloc, of, piece)?;
        rest = after;
    }
    Ok((of, rest))
}

// Reads the part of a location, if one is there: one expression in brackets, or a field.
#[tactic(auto, unfolding(rules_model::specs::ExprReading::location_part_at))]
fn location_part(
    alloc: Global,
    tokens: &[Token],
    inner: usize,
) -> Result<Option<(NamePart, &[Token])>, ParseRefusal>
    ensures { Gives (option_map (λ x. (part_of x.0, x.1.now))) result (location_part_at (expr_at inner) tokens.now) }
{
    if starts(tokens, Sign::Open) {
        let (opened, rest) = read_sign(tokens, Sign::Open)?;
        let (index, rest) = read_expr(alloc, rest, inner, opened)?;
        let (_, rest) = read_sign(rest, Sign::Close)?;
        return Ok(Some((NamePart::Args(only(alloc, index)?), rest)));
    }
    if starts(tokens, Sign::Dot) {
        let (name, rest) = read_field(tokens)?;
        return Ok(Some((NamePart::Field(name), rest)));
    }
    Ok(None)
}

// A list of one expression.
fn only(alloc: Global, expr: Box<Expr>) -> Result<List<Expr>, Memory>
    ensures { IfOk result (λ es. expr_trees es ≡ boxed_expr expr ∷ []) }
{
    let mut exprs = List::new(alloc);
    exprs.push(Box::into_inner(expr))?;
    Ok(exprs)
}
