// Readers of the alternatives of actions and handlers.
ghost use Rattle.std.specs.Prelude.{map, option_map};
ghost use Rattle.chill_tree.specs.StatementTree.{statement_trees, branch_tree, case_tree, named_tree, receive_tree};
ghost use Rattle.expr_parser.specs.Giving.{Gives};
ghost use Rattle.rules_model.specs.Nesting as nesting;
ghost use Rattle.rules_model.specs.Reading.{many_at};
ghost use Rattle.rules_model.specs.StatementReading.{otherwise_at, branch_at, case_at, alternative_at, receipt_at, actions_at};

use crate::clause::names_clause;
use crate::statement::read_actions;
use chill_base::{List, Pos};
use chill_tree::tree::{CaseAlternative, ElsIf, NamedAlternative, ReceiveAlternative, Statement};
use chill_tree::{Sign, Token, Word};
use expr_parser::{
    ParseRefusal, less, read_name, read_names, read_ranges, read_sign, read_value, read_word,
    starts, starts_with,
};
use std::alloc::Global;

/// Reads the further conditions of an IF, which opened at the place.
#[cycle(statement)]
#[tactic(auto, using(expr_parser::proofs::Repeats::repeats))]
pub fn read_branches(
    alloc: Global,
    tokens: &[Token],
    inner: usize,
    opened: Pos,
) -> Result<(List<ElsIf>, &[Token]), ParseRefusal>
    ensures { Gives (λ x. (map branch_tree x.0, x.1.now)) result (many_at (branch_at (nesting.less inner) (actions_at inner) opened) tokens.now) }
{
    let mut items = List::new(alloc);
    let mut rest = tokens;
    for _ in 0..tokens.len() {
        let Some((item, after)) = branch(alloc, rest, inner, opened)? else {
            return Ok((items, rest));
        };
        items.push(item)?;
        rest = after;
    }
    Ok((items, rest))
}

// Reads ELSIF with its condition and its actions, if it is there.
#[cycle(statement)]
#[tactic(auto, unfolding(rules_model::specs::StatementReading::branch_at))]
fn branch(
    alloc: Global,
    tokens: &[Token],
    inner: usize,
    opened: Pos,
) -> Result<Option<(ElsIf, &[Token])>, ParseRefusal>
    ensures { Gives (option_map (λ x. (branch_tree x.0, x.1.now))) result (branch_at (nesting.less inner) (actions_at inner) opened tokens.now) }
{
    if !starts_with(tokens, Word::ElsIf) {
        return Ok(None);
    }
    let (at, rest) = read_word(tokens, Word::ElsIf)?;
    let (condition, rest) = read_value(alloc, rest, less(inner))?;
    let (_, rest) = read_word(rest, Word::Then)?;
    let (actions, rest) = read_actions(alloc, rest, inner, opened)?;
    Ok(Some((ElsIf::new(at, condition, actions), rest)))
}

/// Reads the alternatives of a CASE, which opened at the place.
#[cycle(statement)]
#[tactic(auto, using(expr_parser::proofs::Repeats::repeats))]
pub fn read_cases(
    alloc: Global,
    tokens: &[Token],
    inner: usize,
    opened: Pos,
) -> Result<(List<CaseAlternative>, &[Token]), ParseRefusal>
    ensures { Gives (λ x. (map case_tree x.0, x.1.now)) result (many_at (case_at (nesting.less inner) (actions_at inner) opened) tokens.now) }
{
    let mut items = List::new(alloc);
    let mut rest = tokens;
    for _ in 0..tokens.len() {
        let Some((item, after)) = case(alloc, rest, inner, opened)? else {
            return Ok((items, rest));
        };
        items.push(item)?;
        rest = after;
    }
    Ok((items, rest))
}

// Reads labels in parentheses and their actions, if they are there.
#[cycle(statement)]
#[tactic(auto, unfolding(rules_model::specs::StatementReading::case_at))]
fn case(
    alloc: Global,
    tokens: &[Token],
    inner: usize,
    opened: Pos,
) -> Result<Option<(CaseAlternative, &[Token])>, ParseRefusal>
    ensures { Gives (option_map (λ x. (case_tree x.0, x.1.now))) result (case_at (nesting.less inner) (actions_at inner) opened tokens.now) }
{
    if !starts(tokens, Sign::Open) {
        return Ok(None);
    }
    let (at, rest) = read_sign(tokens, Sign::Open)?;
    let (labels, rest) = read_ranges(alloc, rest, less(inner), at)?;
    let (_, rest) = read_sign(rest, Sign::Close)?;
    let (_, rest) = read_sign(rest, Sign::Colon)?;
    let (actions, rest) = read_actions(alloc, rest, inner, opened)?;
    Ok(Some((CaseAlternative::new(at, labels, actions), rest)))
}

/// Reads the alternatives of a DELAY CASE or of a handler, which opened at the place.
#[cycle(statement)]
#[tactic(auto, using(expr_parser::proofs::Repeats::repeats))]
pub fn read_alternatives(
    alloc: Global,
    tokens: &[Token],
    inner: usize,
    opened: Pos,
) -> Result<(List<NamedAlternative>, &[Token]), ParseRefusal>
    ensures { Gives (λ x. (map named_tree x.0, x.1.now)) result (many_at (alternative_at (actions_at inner) opened) tokens.now) }
{
    let mut items = List::new(alloc);
    let mut rest = tokens;
    for _ in 0..tokens.len() {
        let Some((item, after)) = alternative(alloc, rest, inner, opened)? else {
            return Ok((items, rest));
        };
        items.push(item)?;
        rest = after;
    }
    Ok((items, rest))
}

// Reads names in parentheses and their actions, if they are there.
#[cycle(statement)]
#[tactic(auto, unfolding(rules_model::specs::StatementReading::alternative_at))]
fn alternative(
    alloc: Global,
    tokens: &[Token],
    inner: usize,
    opened: Pos,
) -> Result<Option<(NamedAlternative, &[Token])>, ParseRefusal>
    ensures { Gives (option_map (λ x. (named_tree x.0, x.1.now))) result (alternative_at (actions_at inner) opened tokens.now) }
{
    if !starts(tokens, Sign::Open) {
        return Ok(None);
    }
    let (at, rest) = read_sign(tokens, Sign::Open)?;
    let (names, rest) = read_names(alloc, rest)?;
    let (_, rest) = read_sign(rest, Sign::Close)?;
    let (_, rest) = read_sign(rest, Sign::Colon)?;
    let (actions, rest) = read_actions(alloc, rest, inner, opened)?;
    Ok(Some((NamedAlternative::new(at, names, actions), rest)))
}

/// Reads the alternatives of a RECEIVE CASE, which opened at the place.
#[cycle(statement)]
#[tactic(auto, using(expr_parser::proofs::Repeats::repeats))]
pub fn read_receipts(
    alloc: Global,
    tokens: &[Token],
    inner: usize,
    opened: Pos,
) -> Result<(List<ReceiveAlternative>, &[Token]), ParseRefusal>
    ensures { Gives (λ x. (map receive_tree x.0, x.1.now)) result (many_at (receipt_at (actions_at inner) opened) tokens.now) }
{
    let mut items = List::new(alloc);
    let mut rest = tokens;
    for _ in 0..tokens.len() {
        let Some((item, after)) = receipt(alloc, rest, inner, opened)? else {
            return Ok((items, rest));
        };
        items.push(item)?;
        rest = after;
    }
    Ok((items, rest))
}

// Reads a buffer or signal in parentheses, with the names that get what comes, and its actions, if they are there.
#[cycle(statement)]
#[tactic(auto, unfolding(rules_model::specs::StatementReading::receipt_at))]
fn receipt(
    alloc: Global,
    tokens: &[Token],
    inner: usize,
    opened: Pos,
) -> Result<Option<(ReceiveAlternative, &[Token])>, ParseRefusal>
    ensures { Gives (option_map (λ x. (receive_tree x.0, x.1.now))) result (receipt_at (actions_at inner) opened tokens.now) }
{
    if !starts(tokens, Sign::Open) {
        return Ok(None);
    }
    let (at, rest) = read_sign(tokens, Sign::Open)?;
    let (source, rest) = read_name(rest)?;
    let (received, rest) = names_clause(alloc, rest, Word::In)?;
    let (_, rest) = read_sign(rest, Sign::Close)?;
    let (_, rest) = read_sign(rest, Sign::Colon)?;
    let (actions, rest) = read_actions(alloc, rest, inner, opened)?;
    let item = ReceiveAlternative::new(at, source, received, actions);
    Ok(Some((item, rest)))
}

/// Reads ELSE and its actions, if it is there, in what opened at the place.
#[cycle(statement)]
#[tactic(auto, unfolding(rules_model::specs::StatementReading::otherwise_at))]
pub fn read_otherwise(
    alloc: Global,
    tokens: &[Token],
    inner: usize,
    opened: Pos,
) -> Result<(Option<List<Statement>>, &[Token]), ParseRefusal>
    ensures { Gives (λ x. (option_map statement_trees x.0, x.1.now)) result (otherwise_at (actions_at inner) opened tokens.now) }
{
    if !starts_with(tokens, Word::Else) {
        return Ok((None, tokens));
    }
    let (_, rest) = read_word(tokens, Word::Else)?;
    let (actions, rest) = read_actions(alloc, rest, inner, opened)?;
    Ok((Some(actions), rest))
}
