// Readers of actions that hold others (Z.200, chapters on actions and on concurrent execution).
ghost use Rattle.std.specs.Prelude.{map, option_map};
ghost use Rattle.chill_tree.specs.ExprTree.{boxed_expr};
ghost use Rattle.chill_tree.specs.StatementTree.{statement_trees, boxed_bracketed, case_tree};
ghost use Rattle.expr_parser.specs.Giving.{Gives};
ghost use Rattle.rules_model.specs.StatementReading.{if_at, case_of_at, do_at, begin_at, delay_case_at, receive_case_at, bracketed_at, actions_at, body_at};
ghost use Rattle.statement_parser.specs.Tails.{if_end_at, case_end_at, delay_end_at, receive_end_at};

use crate::alternative::{
    read_alternatives, read_branches, read_cases, read_otherwise, read_receipts,
};
use crate::control::read_control;
use crate::head::{DelayHead, read_delay_head, read_receive_head};
use crate::statement::{read_actions, read_body};
use chill_base::{List, Pos};
use chill_tree::tree::{Bracketed, CaseAlternative, Expr, Statement};
use chill_tree::{Sign, Token, Word};
use expr_parser::{ParseRefusal, less, place, read_sign, read_value, read_word, starts_with};
use std::alloc::Global;

/// Reads an action that holds others; `inner` levels of nesting are left in it.
#[cycle(statement)]
#[tactic(auto, unfolding(rules_model::specs::StatementReading::bracketed_at))]
pub fn read_bracketed(
    alloc: Global,
    tokens: &[Token],
    inner: usize,
) -> Result<(Box<Bracketed>, &[Token]), ParseRefusal>
    ensures { Gives (λ x. (boxed_bracketed x.0, x.1.now)) result (bracketed_at inner (actions_at inner) (body_at inner) tokens.now) }
{
    if starts_with(tokens, Word::If) {
        return if_then(alloc, tokens, inner);
    }
    if starts_with(tokens, Word::Case) {
        return case_of(alloc, tokens, inner);
    }
    if starts_with(tokens, Word::Do) {
        return do_loop(alloc, tokens, inner);
    }
    if starts_with(tokens, Word::Begin) {
        return begin_end(alloc, tokens, inner);
    }
    if starts_with(tokens, Word::Delay) {
        return delay_case(alloc, tokens, inner);
    }
    receive_case(alloc, tokens, inner)
}

// Reads an IF.
#[cycle(statement)]
#[tactic(auto, unfolding(rules_model::specs::StatementReading::if_at, crate::specs::Tails::if_end_at))]
fn if_then(
    alloc: Global,
    tokens: &[Token],
    inner: usize,
) -> Result<(Box<Bracketed>, &[Token]), ParseRefusal>
    ensures { Gives (λ x. (boxed_bracketed x.0, x.1.now)) result (if_at inner (actions_at inner) tokens.now) }
{
    let (at, rest) = read_word(tokens, Word::If)?;
    let (condition, rest) = read_value(alloc, rest, less(inner))?;
    let (_, rest) = read_word(rest, Word::Then)?;
    let (actions, rest) = read_actions(alloc, rest, inner, at)?;
    if_end(alloc, at, condition, actions, rest, inner)
}

// Reads an IF from behind its first actions on.
#[cycle(statement)]
#[tactic(auto, unfolding(crate::specs::Tails::if_end_at))]
fn if_end(
    alloc: Global,
    at: Pos,
    condition: Box<Expr>,
    actions: List<Statement>,
    tokens: &[Token],
    inner: usize,
) -> Result<(Box<Bracketed>, &[Token]), ParseRefusal>
    ensures { Gives (λ x. (boxed_bracketed x.0, x.1.now)) result (if_end_at inner (actions_at inner) at (boxed_expr condition) (statement_trees actions) tokens.now) }
{
    let (branches, rest) = read_branches(alloc, tokens, inner, at)?;
    let (otherwise, rest) = read_otherwise(alloc, rest, inner, at)?;
    let (_, rest) = read_word(rest, Word::Fi)?;
    let action = Bracketed::if_then(alloc, at, condition, actions, branches, otherwise)?;
    Ok((action, rest))
}

// Reads a CASE.
#[cycle(statement)]
#[tactic(auto, unfolding(rules_model::specs::StatementReading::case_of_at, crate::specs::Tails::case_end_at))]
fn case_of(
    alloc: Global,
    tokens: &[Token],
    inner: usize,
) -> Result<(Box<Bracketed>, &[Token]), ParseRefusal>
    ensures { Gives (λ x. (boxed_bracketed x.0, x.1.now)) result (case_of_at inner (actions_at inner) tokens.now) }
{
    let (at, rest) = read_word(tokens, Word::Case)?;
    let (selector, rest) = read_value(alloc, rest, less(inner))?;
    let (_, rest) = read_word(rest, Word::Of)?;
    let (alternatives, rest) = read_cases(alloc, rest, inner, at)?;
    case_end(alloc, at, selector, alternatives, rest, inner)
}

// Reads a CASE from behind its alternatives on.
#[cycle(statement)]
#[tactic(auto, unfolding(crate::specs::Tails::case_end_at), using(crate::proofs::Levels::kept_maps))]
fn case_end(
    alloc: Global,
    at: Pos,
    selector: Box<Expr>,
    alternatives: List<CaseAlternative>,
    tokens: &[Token],
    inner: usize,
) -> Result<(Box<Bracketed>, &[Token]), ParseRefusal>
    ensures { Gives (λ x. (boxed_bracketed x.0, x.1.now)) result (case_end_at (actions_at inner) at (boxed_expr selector) (map case_tree alternatives) tokens.now) }
{
    if alternatives.is_empty() {
        return Err(ParseRefusal::NoProgram { at: place(tokens) });
    }
    let (otherwise, rest) = read_otherwise(alloc, tokens, inner, at)?;
    let (_, rest) = read_word(rest, Word::Esac)?;
    let action = Bracketed::case_of(alloc, at, selector, alternatives, otherwise)?;
    Ok((action, rest))
}

// Reads a DO.
#[cycle(statement)]
#[tactic(auto, unfolding(rules_model::specs::StatementReading::do_at))]
fn do_loop(
    alloc: Global,
    tokens: &[Token],
    inner: usize,
) -> Result<(Box<Bracketed>, &[Token]), ParseRefusal>
    ensures { Gives (λ x. (boxed_bracketed x.0, x.1.now)) result (do_at inner (actions_at inner) tokens.now) }
{
    let (at, rest) = read_word(tokens, Word::Do)?;
    let (control, rest) = read_control(alloc, rest, less(inner))?;
    let (_, rest) = read_sign(rest, Sign::Semicolon)?;
    let (actions, rest) = read_actions(alloc, rest, inner, at)?;
    let (_, rest) = read_word(rest, Word::Od)?;
    Ok((Bracketed::do_loop(alloc, at, control, actions)?, rest))
}

// Reads a block.
#[cycle(statement)]
#[tactic(auto, unfolding(rules_model::specs::StatementReading::begin_at))]
fn begin_end(
    alloc: Global,
    tokens: &[Token],
    inner: usize,
) -> Result<(Box<Bracketed>, &[Token]), ParseRefusal>
    ensures { Gives (λ x. (boxed_bracketed x.0, x.1.now)) result (begin_at (body_at inner) tokens.now) }
{
    let (at, rest) = read_word(tokens, Word::Begin)?;
    let (body, rest) = read_body(alloc, rest, inner, at)?;
    let (_, rest) = read_word(rest, Word::End)?;
    Ok((Bracketed::begin_end(alloc, at, body)?, rest))
}

// Reads a DELAY CASE.
#[cycle(statement)]
#[tactic(auto, unfolding(rules_model::specs::StatementReading::delay_case_at, crate::specs::Tails::delay_end_at))]
fn delay_case(
    alloc: Global,
    tokens: &[Token],
    inner: usize,
) -> Result<(Box<Bracketed>, &[Token]), ParseRefusal>
    ensures { Gives (λ x. (boxed_bracketed x.0, x.1.now)) result (delay_case_at inner (actions_at inner) tokens.now) }
{
    let (at, rest) = read_word(tokens, Word::Delay)?;
    let (opened, rest) = read_word(rest, Word::Case)?;
    let (head, rest) = read_delay_head(alloc, rest, less(inner))?;
    delay_end(alloc, at, opened, head, rest, inner)
}

// Reads a DELAY CASE from its alternatives on.
#[cycle(statement)]
#[tactic(auto, unfolding(crate::specs::Tails::delay_end_at), using(crate::proofs::Levels::kept_maps))]
fn delay_end(
    alloc: Global,
    at: Pos,
    opened: Pos,
    head: DelayHead,
    tokens: &[Token],
    inner: usize,
) -> Result<(Box<Bracketed>, &[Token]), ParseRefusal>
    ensures { Gives (λ x. (boxed_bracketed x.0, x.1.now)) result (delay_end_at (actions_at inner) at opened (option_map boxed_expr head.set) (option_map boxed_expr head.priority) tokens.now) }
{
    let (alternatives, rest) = read_alternatives(alloc, tokens, inner, opened)?;
    if alternatives.is_empty() {
        return Err(ParseRefusal::NoProgram { at: place(rest) });
    }
    let (_, rest) = read_word(rest, Word::Esac)?;
    let DelayHead { set, priority } = head;
    let action = Bracketed::delay_case(alloc, at, set, priority, alternatives)?;
    Ok((action, rest))
}

// Reads a RECEIVE CASE.
#[cycle(statement)]
#[tactic(auto, unfolding(rules_model::specs::StatementReading::receive_case_at, crate::specs::Tails::receive_end_at))]
fn receive_case(
    alloc: Global,
    tokens: &[Token],
    inner: usize,
) -> Result<(Box<Bracketed>, &[Token]), ParseRefusal>
    ensures { Gives (λ x. (boxed_bracketed x.0, x.1.now)) result (receive_case_at inner (actions_at inner) tokens.now) }
{
    let (at, rest) = read_word(tokens, Word::Receive)?;
    let (opened, rest) = read_word(rest, Word::Case)?;
    let (set, rest) = read_receive_head(alloc, rest, less(inner))?;
    receive_end(alloc, at, opened, set, rest, inner)
}

// Reads a RECEIVE CASE from its alternatives on.
#[cycle(statement)]
#[tactic(auto, unfolding(crate::specs::Tails::receive_end_at), using(crate::proofs::Levels::kept_maps))]
fn receive_end(
    alloc: Global,
    at: Pos,
    opened: Pos,
    set: Option<Box<Expr>>,
    tokens: &[Token],
    inner: usize,
) -> Result<(Box<Bracketed>, &[Token]), ParseRefusal>
    ensures { Gives (λ x. (boxed_bracketed x.0, x.1.now)) result (receive_end_at (actions_at inner) at opened (option_map boxed_expr set) tokens.now) }
{
    let (alternatives, rest) = read_receipts(alloc, tokens, inner, opened)?;
    if alternatives.is_empty() {
        return Err(ParseRefusal::NoProgram { at: place(rest) });
    }
    let (otherwise, rest) = read_otherwise(alloc, rest, inner, opened)?;
    let (_, rest) = read_word(rest, Word::Esac)?;
    let action = Bracketed::receive_case(alloc, at, set, alternatives, otherwise)?;
    Ok((action, rest))
}
