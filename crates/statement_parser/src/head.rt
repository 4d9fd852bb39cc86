// Readers of what stands before the alternatives of DELAY CASE and RECEIVE CASE.
ghost use Rattle.std.specs.Prelude.{option_map};
ghost use Rattle.chill_tree.specs.ExprTree.{boxed_expr};
ghost use Rattle.expr_parser.specs.Giving.{Gives};
ghost use Rattle.rules_model.specs.StatementReading.{delay_head_at, receive_head_at};

use crate::clause::value_clause;
use chill_tree::tree::Expr;
use chill_tree::{Sign, Token, Word};
use expr_parser::{ParseRefusal, read_location, read_sign, read_value, read_word, starts_with};
use std::alloc::Global;

/// What stands before the alternatives of DELAY CASE: a location that gets the instance which continued it, and a
/// priority.
#[derive(Drop)]
pub struct DelayHead {
    pub set: Option<Box<Expr>>,
    pub priority: Option<Box<Expr>>,
}

/// Reads it; `inner` levels of nesting are left behind an opening token.
#[tactic(auto, unfolding(rules_model::specs::StatementReading::delay_head_at))]
pub fn read_delay_head(
    alloc: Global,
    tokens: &[Token],
    inner: usize,
) -> Result<(DelayHead, &[Token]), ParseRefusal>
    ensures { Gives (λ x. ((option_map boxed_expr x.0.set, option_map boxed_expr x.0.priority), x.1.now)) result (delay_head_at inner tokens.now) }
{
    if starts_with(tokens, Word::Set) {
        let (_, rest) = read_word(tokens, Word::Set)?;
        let (location, rest) = read_location(alloc, rest, inner)?;
        let (priority, rest) = value_clause(alloc, rest, Word::Priority, inner)?;
        let (_, rest) = read_sign(rest, Sign::Semicolon)?;
        let set = Some(location);
        return Ok((DelayHead { set, priority }, rest));
    }
    if starts_with(tokens, Word::Priority) {
        let (_, rest) = read_word(tokens, Word::Priority)?;
        let (value, rest) = read_value(alloc, rest, inner)?;
        let (_, rest) = read_sign(rest, Sign::Semicolon)?;
        let priority = Some(value);
        return Ok((
            DelayHead {
                set: None,
                priority,
            },
            rest,
        ));
    }
    let (set, priority) = (None, None);
    Ok((DelayHead { set, priority }, tokens))
}

/// Reads the location of RECEIVE CASE that gets the sender, if it is given.
#[tactic(auto, unfolding(rules_model::specs::StatementReading::receive_head_at))]
pub fn read_receive_head(
    alloc: Global,
    tokens: &[Token],
    inner: usize,
) -> Result<(Option<Box<Expr>>, &[Token]), ParseRefusal>
    ensures { Gives (λ x. (option_map boxed_expr x.0, x.1.now)) result (receive_head_at inner tokens.now) }
{
    if !starts_with(tokens, Word::Set) {
        return Ok((None, tokens));
    }
    let (_, rest) = read_word(tokens, Word::Set)?;
    let (location, rest) = read_location(alloc, rest, inner)?;
    let (_, rest) = read_sign(rest, Sign::Semicolon)?;
    Ok((Some(location), rest))
}
