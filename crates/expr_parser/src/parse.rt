// The longest expression from a place.
ghost use Rattle.std.specs.Prelude.{◌≤◌, length};
ghost use Rattle.expr_parser.specs.Expressing.{Expresses};

use crate::ParseRefusal;
use crate::expr::read_longest;
use chill_tree::Tokens;
use chill_tree::tree::Expr;
use std::alloc::Global;

/// How many levels of nesting may stand in one another.
const LEVELS: usize = 64;

/// The longest expression from a place on, and the place behind it.
///
/// It is too deep where tokens from that place on that begin some expression reach a nesting of 65, counted from
/// there, also where a shorter expression stands there.
pub fn parse_expr(
    alloc: Global,
    tokens: &Tokens,
    from: usize,
) -> Result<(Box<Expr>, usize), ParseRefusal>
    requires { from ≤ length tokens.now }
    ensures { Expresses tokens.now from result }
{
    let (found, rest) = read_longest(alloc, &tokens.as_slice()[from..], LEVELS)?;
    Ok((found, tokens.len() - rest.len()))
}
