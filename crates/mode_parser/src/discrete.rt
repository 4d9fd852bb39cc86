// Readers of named modes, ranges, sets and the indices of arrays (Z.200, chapter on modes).
ghost use Rattle.std.specs.Prelude.{◌≡◌};
ghost use Rattle.chill_tree.specs.ExprTree.{boxed_expr};
ghost use Rattle.chill_tree.specs.ModeTree.{discrete_tree, index_tree};
ghost use Rattle.expr_parser.specs.Giving.{Gives};
ghost use Rattle.rules_model.specs.ModeReading.{set_at, bounds_at, discrete_at, index_of, index_at};

use chill_base::Pos;
use chill_tree::tree::{Discrete, Expr, Index, Name};
use chill_tree::{Sign, Token, Word};
use expr_parser::{
    ParseRefusal, place, read_expr, read_name, read_names, read_sign, read_word, starts,
    starts_with,
};
use std::alloc::Global;

/// Reads a name, a range of the mode that it names, or a set of elements.
#[tactic(auto, unfolding(rules_model::specs::ModeReading::discrete_at))]
pub fn read_discrete(
    alloc: Global,
    tokens: &[Token],
    inner: usize,
) -> Result<(Discrete, &[Token]), ParseRefusal>
    ensures { Gives (λ x. (discrete_tree x.0, x.1.now)) result (discrete_at inner tokens.now) }
{
    if starts_with(tokens, Word::Set) {
        return set(alloc, tokens);
    }
    let (name, rest) = read_name(tokens)?;
    if starts(rest, Sign::Open) {
        return range(alloc, name, rest, inner);
    }
    Ok((Discrete::Named(name), rest))
}

// Reads a set of elements.
#[tactic(auto, unfolding(rules_model::specs::ModeReading::set_at))]
fn set(alloc: Global, tokens: &[Token]) -> Result<(Discrete, &[Token]), ParseRefusal>
    ensures { Gives (λ x. (discrete_tree x.0, x.1.now)) result (set_at tokens.now) }
{
    let (at, rest) = read_word(tokens, Word::Set)?;
    let (_, rest) = read_sign(rest, Sign::Open)?;
    let (elements, rest) = read_names(alloc, rest)?;
    let (_, rest) = read_sign(rest, Sign::Close)?;
    Ok((Discrete::Set { at, elements }, rest))
}

// Reads the bounds of a range, behind the name of its mode.
#[tactic(auto, unfolding(rules_model::specs::ModeReading::bounds_at))]
fn range(
    alloc: Global,
    parent: Name,
    tokens: &[Token],
    inner: usize,
) -> Result<(Discrete, &[Token]), ParseRefusal>
    ensures { Gives (λ x. (discrete_tree x.0, x.1.now)) result (bounds_at inner parent tokens.now) }
{
    let (opened, rest) = read_sign(tokens, Sign::Open)?;
    let (low, rest) = read_expr(alloc, rest, inner, opened)?;
    let (_, rest) = read_sign(rest, Sign::Colon)?;
    let (high, rest) = read_expr(alloc, rest, inner, opened)?;
    let (_, rest) = read_sign(rest, Sign::Close)?;
    Ok((Discrete::Range { parent, low, high }, rest))
}

/// Reads the indices of an array, in what opened at the place.
#[tactic(auto, unfolding(rules_model::specs::ModeReading::index_at))]
pub fn read_index(
    alloc: Global,
    tokens: &[Token],
    inner: usize,
    opened: Pos,
) -> Result<(Index, &[Token]), ParseRefusal>
    ensures { Gives (λ x. (index_tree x.0, x.1.now)) result (index_at inner opened tokens.now) }
{
    let (low, rest) = read_expr(alloc, tokens, inner, opened)?;
    if !starts(rest, Sign::Colon) {
        return index_of_name(low, rest);
    }
    let (_, rest) = read_sign(rest, Sign::Colon)?;
    let (high, rest) = read_expr(alloc, rest, inner, opened)?;
    Ok((Index::Range { low, high }, rest))
}

// The indices that are one expression, which has to be a name.
fn index_of_name(single: Box<Expr>, rest: &[Token]) -> Result<(Index, &[Token]), ParseRefusal>
    ensures { Gives (λ x. (index_tree x.0, x.1.now)) result (index_of (boxed_expr single) rest.now) }
{
    match Expr::into_name(single) {
        Some(name) => Ok((Index::Named(name), rest)),
        None => Err(ParseRefusal::NoProgram { at: place(rest) }),
    }
}
