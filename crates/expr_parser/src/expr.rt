// Readers of expressions and of their parts (Z.200, chapter on values).
ghost use Rattle.std.specs.Prelude.{◌≡◌, ◌-◌, ◌<◌, map, option_map, IfOk};
ghost use Rattle.chill_tree.specs.ExprTree.{boxed_expr, expr_tree, expr_trees, range_tree, range_trees};
ghost use Rattle.expr_parser.specs.Giving.{Gives};
ghost use Rattle.expr_parser.specs.Parts.{part_of};
ghost use Rattle.rules_model.specs.declared.extent.Extent.TheVariants as extents;
ghost use Rattle.rules_model.specs.Marks as marks;
ghost use Rattle.rules_model.specs.ExprGrammar as grammar;
ghost use Rattle.rules_model.specs.Reading.{repeat, listed_at};
ghost use Rattle.rules_model.specs.ExprReading.{args_at, part_at, parts_at, paren_at, range_at, uniform_at, ranges_at, tuple_at, begun_at, operand_at, prefixed_at, operator_at, turn_at, ranked_at, expr_at};
ghost use Rattle.rules_model.specs.ExprReading as reading;

use crate::ParseRefusal;
use crate::list::{Listed, read_list};
use crate::part::{NamePart, read_field, with_part};
use crate::reader::{operator_of, read_name, read_sign, read_word, starts, starts_with};
use chill_base::{Item, List, Memory, Pos};
use chill_tree::tree::{Expr, Name, Operator, Prefix, ValueRange};
use chill_tree::{Sign, Token, TokenKind, Word};
use rules_model::Extent;
use std::alloc::Global;

/// How many operators of one rank stand in a row, and how many parts behind a name, at most.
pub const TURNS: usize = 32;

/// The loosest rank of an operator.
const LOOSEST: usize = 5;

/// Reads an expression of a whole text, behind an opening token at the place `opened` where `room` levels of nesting
/// are left.
#[cycle(expr)]
#[tactic(auto, unfolding(rules_model::specs::ExprReading::expr_at))]
pub fn read_expr(
    alloc: Global,
    tokens: &[Token],
    room: usize,
    opened: Pos,
) -> Result<(Box<Expr>, &[Token]), ParseRefusal>
    ensures { Gives (λ x. (boxed_expr x.0, x.1.now)) result (expr_at room opened tokens.now) }
{
    if room == 0 {
        return Err(ParseRefusal::TooDeep { at: opened });
    }
    ranked(alloc, tokens, LOOSEST, room - 1, Extent::Whole)
}

/// Reads an expression of a whole text, where `inner` levels are left behind its opening tokens.
pub fn read_value(
    alloc: Global,
    tokens: &[Token],
    inner: usize,
) -> Result<(Box<Expr>, &[Token]), ParseRefusal>
    ensures { Gives (λ x. (boxed_expr x.0, x.1.now)) result (ranked_at extents.Whole inner (expr_at inner) 5 tokens.now) }
{
    ranked(alloc, tokens, LOOSEST, inner, Extent::Whole)
}

/// Reads the longest expression at the front, where `inner` levels are left behind its opening tokens.
pub fn read_longest(
    alloc: Global,
    tokens: &[Token],
    inner: usize,
) -> Result<(Box<Expr>, &[Token]), ParseRefusal>
    ensures { Gives (λ x. (boxed_expr x.0, x.1.now)) result (ranked_at extents.Longest inner (expr_at inner) 5 tokens.now) }
{
    ranked(alloc, tokens, LOOSEST, inner, Extent::Longest)
}

// Reads an expression whose operators outside brackets have at most this rank.
#[cycle(expr)]
#[tactic(auto, unfolding(rules_model::specs::ExprReading::ranked_at))]
fn ranked(
    alloc: Global,
    tokens: &[Token],
    rank: usize,
    inner: usize,
    extent: Extent,
) -> Result<(Box<Expr>, &[Token]), ParseRefusal>
    ensures { Gives (λ x. (boxed_expr x.0, x.1.now)) result (ranked_at extent inner (expr_at inner) rank tokens.now) }
{
    if rank == 0 {
        return prefixed(alloc, tokens, inner, extent);
    }
    let (first, rest) = ranked(alloc, tokens, rank - 1, inner, extent)?;
    turns(alloc, first, rest, rank, inner, extent)
}

// Reads the operators of this rank behind an expression, with what they are for.
#[cycle(expr)]
#[tactic(auto, using(crate::proofs::Repeats::repeats))]
fn turns(
    alloc: Global,
    first: Box<Expr>,
    tokens: &[Token],
    rank: usize,
    inner: usize,
    extent: Extent,
) -> Result<(Box<Expr>, &[Token]), ParseRefusal>
    requires { 0 < rank }
    ensures { Gives (λ x. (boxed_expr x.0, x.1.now)) result (repeat (turn_at extent (ranked_at extent inner (expr_at inner) (rank - 1)) rank) reading.with_turn 32 (boxed_expr first) tokens.now) }
{
    let mut left = first;
    let mut rest = tokens;
    for _ in 0..TURNS {
        let Some((turn, after)) = turn(alloc, rest, rank, inner, extent)? else {
            return Ok((left, rest));
        };
        left = with_turn(alloc, left, turn)?;
        rest = after;
    }
    Ok((left, rest))
}

// An operator with its place, and what stands behind it.
#[derive(Drop)]
struct Behind {
    sign: Pos,
    operator: Operator,
    right: Box<Expr>,
}

// An expression with one more operator.
fn with_turn(alloc: Global, left: Box<Expr>, turn: Behind) -> Result<Box<Expr>, Memory>
    ensures { IfOk result (λ e. boxed_expr e ≡ reading.with_turn (boxed_expr left) ((turn.sign, turn.operator), boxed_expr turn.right)) }
{
    Expr::binary(alloc, left, turn.operator, turn.sign, turn.right)
}

// Reads an operator of this rank and what stands behind it, if the operator is there.
#[cycle(expr)]
#[tactic(auto, unfolding(rules_model::specs::ExprReading::turn_at))]
fn turn(
    alloc: Global,
    tokens: &[Token],
    rank: usize,
    inner: usize,
    extent: Extent,
) -> Result<Option<(Behind, &[Token])>, ParseRefusal>
    requires { 0 < rank }
    ensures { Gives (option_map (λ x. (((x.0.sign, x.0.operator), boxed_expr x.0.right), x.1.now))) result (turn_at extent (ranked_at extent inner (expr_at inner) (rank - 1)) rank tokens.now) }
{
    match operator(tokens, rank) {
        Some((sign, operator, rest)) => match ranked(alloc, rest, rank - 1, inner, extent) {
            Ok((right, after)) => Ok(Some((
                Behind {
                    sign,
                    operator,
                    right,
                },
                after,
            ))),
            Err(ParseRefusal::NoProgram { .. }) if matches!(extent, Extent::Longest) => Ok(None),
            Err(refusal) => Err(refusal),
        },
        None => Ok(None),
    }
}

// An operator of this rank at the front, with its place and the tokens behind it.
#[tactic(auto, unfolding(rules_model::specs::ExprReading::operator_at))]
fn operator(tokens: &[Token], wanted: usize) -> Option<(Pos, Operator, &[Token])>
    ensures { option_map (λ x. ((x.0, x.1), x.2.now)) result ≡ operator_at wanted tokens.now }
{
    match tokens {
        [token, rest @ ..] => match operator_of(&token.kind) {
            Some(operator) => {
                if rank_of(operator) == wanted {
                    Some((token.at, operator, rest))
                } else {
                    None
                }
            }
            None => None,
        },
        [] => None,
    }
}

// How loosely an operator binds.
fn rank_of(operator: Operator) -> usize
    ensures { result ≡ marks.rank_of operator }
{
    match operator {
        Operator::Or | Operator::Xor | Operator::OrIf => 5,
        Operator::And | Operator::AndIf => 4,
        Operator::Equal | Operator::NotEqual | Operator::Less | Operator::LessOrEqual => 3,
        Operator::Greater | Operator::GreaterOrEqual | Operator::In => 3,
        Operator::Plus | Operator::Minus => 2,
        Operator::Times | Operator::Divide | Operator::Mod | Operator::Rem => 1,
    }
}

// Reads an operand, with an operator before it or none.
#[cycle(expr)]
#[tactic(auto, unfolding(rules_model::specs::ExprReading::prefixed_at))]
fn prefixed(
    alloc: Global,
    tokens: &[Token],
    inner: usize,
    extent: Extent,
) -> Result<(Box<Expr>, &[Token]), ParseRefusal>
    ensures { Gives (λ x. (boxed_expr x.0, x.1.now)) result (prefixed_at extent inner (expr_at inner) tokens.now) }
{
    if starts(tokens, Sign::Minus) {
        let (at, rest) = read_sign(tokens, Sign::Minus)?;
        let (number, rest) = operand(alloc, rest, inner, extent)?;
        return Ok((Expr::prefixed(alloc, at, Prefix::Minus, number)?, rest));
    }
    if starts_with(tokens, Word::Not) {
        let (at, rest) = read_word(tokens, Word::Not)?;
        let (truth, rest) = operand(alloc, rest, inner, extent)?;
        return Ok((Expr::prefixed(alloc, at, Prefix::Not, truth)?, rest));
    }
    operand(alloc, tokens, inner, extent)
}

// Reads a literal, an expression in parentheses, a tuple, or a name with its parts.
#[cycle(expr)]
#[tactic(auto, unfolding(rules_model::specs::ExprReading::operand_at))]
fn operand(
    alloc: Global,
    tokens: &[Token],
    inner: usize,
    extent: Extent,
) -> Result<(Box<Expr>, &[Token]), ParseRefusal>
    ensures { Gives (λ x. (boxed_expr x.0, x.1.now)) result (operand_at extent inner (expr_at inner) tokens.now) }
{
    match tokens {
        [token, rest @ ..] => match &token.kind {
            TokenKind::Whole(value) => Ok((Expr::whole(alloc, token.at, *value)?, rest)),
            TokenKind::Char(value) => Ok((Expr::character(alloc, token.at, *value)?, rest)),
            TokenKind::Text(value) => {
                let value = value.as_text().copy()?;
                Ok((Expr::text(alloc, token.at, value)?, rest))
            }
            TokenKind::Name(text) => {
                let text = text.copy()?;
                begun(alloc, Name { at: token.at, text }, rest, inner, extent)
            }
            TokenKind::Word(Word::This) => Ok((Expr::this_instance(alloc, token.at)?, rest)),
            TokenKind::Word(Word::Receive) => {
                let (buffer, rest) = read_name(rest)?;
                Ok((Expr::receive(alloc, token.at, buffer)?, rest))
            }
            TokenKind::Word(Word::Start) => {
                let (process, rest) = read_name(rest)?;
                let (args, rest) = read_args(alloc, rest, inner)?;
                Ok((Expr::start(alloc, token.at, process, args)?, rest))
            }
            TokenKind::Sign(Sign::Open) => paren(alloc, tokens, inner),
            TokenKind::Sign(Sign::OpenBracket) => tuple(alloc, None, tokens, inner),
            _ => Err(ParseRefusal::NoProgram { at: Some(token.at) }),
        },
        [] => Err(ParseRefusal::NoProgram { at: None }),
    }
}

// Reads an expression in parentheses.
#[cycle(expr)]
#[tactic(auto, unfolding(rules_model::specs::ExprReading::paren_at))]
fn paren(
    alloc: Global,
    tokens: &[Token],
    inner: usize,
) -> Result<(Box<Expr>, &[Token]), ParseRefusal>
    ensures { Gives (λ x. (boxed_expr x.0, x.1.now)) result (paren_at (expr_at inner) tokens.now) }
{
    let (at, rest) = read_sign(tokens, Sign::Open)?;
    let (of, rest) = read_expr(alloc, rest, inner, at)?;
    let (_, rest) = read_sign(rest, Sign::Close)?;
    Ok((Expr::paren(alloc, at, of)?, rest))
}

// Reads what a name begins: a tuple, or the name's parts.
#[cycle(expr)]
#[tactic(auto, unfolding(rules_model::specs::ExprReading::begun_at))]
fn begun(
    alloc: Global,
    name: Name,
    tokens: &[Token],
    inner: usize,
    extent: Extent,
) -> Result<(Box<Expr>, &[Token]), ParseRefusal>
    ensures { Gives (λ x. (boxed_expr x.0, x.1.now)) result (begun_at extent inner (expr_at inner) name tokens.now) }
{
    if !starts(tokens, Sign::OpenBracket) {
        return parts(alloc, Expr::name(alloc, name)?, tokens, inner, extent);
    }
    let text = name.text.copy()?;
    let mode = Name { at: name.at, text };
    match tuple(alloc, Some(mode), tokens, inner) {
        Ok((found, rest)) => Ok((found, rest)),
        Err(ParseRefusal::NoProgram { .. }) if matches!(extent, Extent::Longest) => {
            Ok((Expr::name(alloc, name)?, tokens))
        }
        Err(refusal) => Err(refusal),
    }
}

// Reads the parts behind a name.
#[cycle(expr)]
#[tactic(auto, using(crate::proofs::Repeats::repeats))]
fn parts(
    alloc: Global,
    first: Box<Expr>,
    tokens: &[Token],
    inner: usize,
    extent: Extent,
) -> Result<(Box<Expr>, &[Token]), ParseRefusal>
    ensures { Gives (λ x. (boxed_expr x.0, x.1.now)) result (parts_at extent inner (expr_at inner) (boxed_expr first) tokens.now) }
{
    let mut of = first;
    let mut rest = tokens;
    for _ in 0..TURNS {
        let Some((piece, after)) = part(alloc, rest, inner, extent)? else {
            return Ok((of, rest));
        };
        of = with_part(alloc, of, piece)?;
        rest = after;
    }
    Ok((of, rest))
}

// Reads a part behind a name, if one is there.
#[cycle(expr)]
#[tactic(auto, unfolding(rules_model::specs::ExprReading::part_at))]
fn part(
    alloc: Global,
    tokens: &[Token],
    inner: usize,
    extent: Extent,
) -> Result<Option<(NamePart, &[Token])>, ParseRefusal>
    ensures { Gives (option_map (λ x. (part_of x.0, x.1.now))) result (part_at extent inner (expr_at inner) tokens.now) }
{
    if starts(tokens, Sign::Open) {
        return match read_args(alloc, tokens, inner) {
            Ok((args, rest)) => Ok(Some((NamePart::Args(args), rest))),
            Err(ParseRefusal::NoProgram { .. }) if matches!(extent, Extent::Longest) => Ok(None),
            Err(refusal) => Err(refusal),
        };
    }
    if starts(tokens, Sign::Dot) {
        return match read_field(tokens) {
            Ok((name, rest)) => Ok(Some((NamePart::Field(name), rest))),
            Err(ParseRefusal::NoProgram { .. }) if matches!(extent, Extent::Longest) => Ok(None),
            Err(refusal) => Err(refusal),
        };
    }
    Ok(None)
}

/// Reads a list of arguments in its parentheses, in which `inner` levels are left.
#[cycle(expr)]
#[tactic(auto, unfolding(rules_model::specs::ExprReading::args_at))]
pub fn read_args(
    alloc: Global,
    tokens: &[Token],
    inner: usize,
) -> Result<(List<Expr>, &[Token]), ParseRefusal>
    ensures { Gives (λ x. (expr_trees x.0, x.1.now)) result (args_at inner (expr_at inner) tokens.now) }
{
    let (opened, rest) = read_sign(tokens, Sign::Open)?;
    if inner == 0 {
        return Err(ParseRefusal::TooDeep { at: opened });
    }
    if starts(rest, Sign::Close) {
        let (_, rest) = read_sign(rest, Sign::Close)?;
        return Ok((List::new(alloc), rest));
    }
    let (args, rest) = read_exprs(alloc, rest, inner, opened)?;
    let (_, rest) = read_sign(rest, Sign::Close)?;
    Ok((args, rest))
}

// Expressions in what opened at a place, where so many levels of nesting are left.
#[derive(Drop)]
struct Exprs {
    room: usize,
    opened: Pos,
}

impl Listed for Exprs {
    type Item = Expr;

    ghost use Rattle.chill_tree.specs.ExprTree.{ExprTree};

    ghost Tree = { ExprTree };

    ghost tree = { expr_tree };

    ghost reads = { λ s. expr_at s.room s.opened };
}

/// Reads expressions with commas between them, at least one, each as `read_expr` does.
#[cycle(expr)]
pub fn read_exprs(
    alloc: Global,
    tokens: &[Token],
    room: usize,
    opened: Pos,
) -> Result<(List<Expr>, &[Token]), ParseRefusal>
    ensures { Gives (λ x. (expr_trees x.0, x.1.now)) result (listed_at (expr_at room opened) tokens.now) }
{
    read_list(
        alloc,
        tokens,
        &Exprs { room, opened },
        |item|
            ensures { Gives (λ x. (expr_tree x.0, x.1.now)) result (expr_at room opened item.now) }
        {
            let (found, rest) = read_expr(alloc, item, room, opened)?;
            Ok((Box::into_inner(found), rest))
        },
    )
}

// Reads a tuple from its bracket on.
#[cycle(expr)]
#[tactic(auto, unfolding(rules_model::specs::ExprReading::tuple_at))]
fn tuple(
    alloc: Global,
    mode: Option<Name>,
    tokens: &[Token],
    inner: usize,
) -> Result<(Box<Expr>, &[Token]), ParseRefusal>
    ensures { Gives (λ x. (boxed_expr x.0, x.1.now)) result (tuple_at inner (expr_at inner) mode tokens.now) }
{
    let (bracket, rest) = read_sign(tokens, Sign::OpenBracket)?;
    if inner == 0 {
        return Err(ParseRefusal::TooDeep { at: bracket });
    }
    if starts_uniform(rest) {
        return uniform(alloc, mode, bracket, rest, inner);
    }
    let (parts, rest) = tuple_parts(alloc, rest, inner, bracket)?;
    let at = tuple_place(&mode, bracket);
    Ok((Expr::tuple(alloc, at, mode, bracket, parts)?, rest))
}

// The place of a tuple's first token.
fn tuple_place(mode: &Option<Name>, bracket: Pos) -> Pos
    ensures { result ≡ grammar.tuple_place mode.now bracket }
{
    match mode {
        Some(name) => name.at,
        None => bracket,
    }
}

// Whether a tuple goes on with a parenthesis and a `*`.
fn starts_uniform(tokens: &[Token]) -> bool
    ensures { result ≡ reading.begins_uniform tokens.now }
{
    match tokens {
        [_, rest @ ..] => starts(tokens, Sign::Open) && starts(rest, Sign::Times),
        [] => false,
    }
}

// Reads a tuple whose elements all have one value, from behind its bracket on.
#[cycle(expr)]
#[tactic(auto, unfolding(rules_model::specs::ExprReading::uniform_at))]
fn uniform(
    alloc: Global,
    mode: Option<Name>,
    bracket: Pos,
    tokens: &[Token],
    inner: usize,
) -> Result<(Box<Expr>, &[Token]), ParseRefusal>
    ensures { Gives (λ x. (boxed_expr x.0, x.1.now)) result (uniform_at inner (expr_at inner) mode bracket tokens.now) }
{
    let (opened, rest) = read_sign(tokens, Sign::Open)?;
    if inner < 2 {
        return Err(ParseRefusal::TooDeep { at: opened });
    }
    let (_, rest) = read_sign(rest, Sign::Times)?;
    let (_, rest) = read_sign(rest, Sign::Close)?;
    let (_, rest) = read_sign(rest, Sign::Colon)?;
    let (value, rest) = read_expr(alloc, rest, inner, bracket)?;
    let (_, rest) = read_sign(rest, Sign::CloseBracket)?;
    let at = tuple_place(&mode, bracket);
    Ok((Expr::uniform(alloc, at, mode, bracket, value)?, rest))
}

// Reads the parts of a tuple, and the bracket that closes it.
#[cycle(expr)]
#[tactic(auto, unfolding(rules_model::specs::ExprReading::ranges_at))]
fn tuple_parts(
    alloc: Global,
    tokens: &[Token],
    inner: usize,
    bracket: Pos,
) -> Result<(List<ValueRange>, &[Token]), ParseRefusal>
    ensures { Gives (λ x. (range_trees x.0, x.1.now)) result (ranges_at (expr_at inner) bracket tokens.now) }
{
    if starts(tokens, Sign::CloseBracket) {
        let (_, rest) = read_sign(tokens, Sign::CloseBracket)?;
        return Ok((List::new(alloc), rest));
    }
    let (parts, rest) = read_ranges(alloc, tokens, inner, bracket)?;
    let (_, rest) = read_sign(rest, Sign::CloseBracket)?;
    Ok((parts, rest))
}

// Expressions and ranges in what opened at a place, where so many levels of nesting are left.
#[derive(Drop)]
struct Ranges {
    room: usize,
    opened: Pos,
}

impl Listed for Ranges {
    type Item = ValueRange;

    ghost use Rattle.chill_tree.specs.ExprTree.{RangeTree};

    ghost Tree = { RangeTree };

    ghost tree = { range_tree };

    ghost reads = { λ s. range_at (expr_at s.room s.opened) };
}

/// Reads expressions or ranges with commas between them, at least one, each as `read_range` does.
#[cycle(expr)]
pub fn read_ranges(
    alloc: Global,
    tokens: &[Token],
    room: usize,
    opened: Pos,
) -> Result<(List<ValueRange>, &[Token]), ParseRefusal>
    ensures { Gives (λ x. (range_trees x.0, x.1.now)) result (listed_at (range_at (expr_at room opened)) tokens.now) }
{
    read_list(
        alloc,
        tokens,
        &Ranges { room, opened },
        |item|
            ensures { Gives (λ x. (range_tree x.0, x.1.now)) result (range_at (expr_at room opened) item.now) }
        { read_range(alloc, item, room, opened) },
    )
}

/// Reads an expression, or two with a colon between them, each as `read_expr` does.
#[cycle(expr)]
#[tactic(auto, unfolding(rules_model::specs::ExprReading::range_at))]
pub fn read_range(
    alloc: Global,
    tokens: &[Token],
    room: usize,
    opened: Pos,
) -> Result<(ValueRange, &[Token]), ParseRefusal>
    ensures { Gives (λ x. (range_tree x.0, x.1.now)) result (range_at (expr_at room opened) tokens.now) }
{
    let (first, rest) = read_expr(alloc, tokens, room, opened)?;
    if !starts(rest, Sign::Colon) {
        return Ok((ValueRange::new(first, None), rest));
    }
    let (_, rest) = read_sign(rest, Sign::Colon)?;
    let (last, rest) = read_expr(alloc, rest, room, opened)?;
    Ok((ValueRange::new(first, Some(last)), rest))
}
