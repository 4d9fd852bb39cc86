// Readers of actions that hold no other (Z.200, chapters on actions and on concurrent execution).
ghost use Rattle.std.specs.Prelude.{option_map};
ghost use Rattle.chill_tree.specs.ExprTree.{expr_trees};
ghost use Rattle.chill_tree.specs.SimpleTree.{simple_tree, exit, cause, continue_event, result_of, assert_that};
ghost use Rattle.chill_tree.specs.declared.token.Word.TheVariants as words;
ghost use Rattle.expr_parser.specs.Giving.{Gives};
ghost use Rattle.rules_model.specs.SimpleReading.{word_name_at, word_value_at, call_at, return_at, start_at, delay_at, message_at, send_at, simple_at};
ghost use Rattle.statement_parser.specs.Tails.{other_simple_at};

use crate::clause::value_clause;
use crate::named::read_named_action;
use chill_base::List;
use chill_tree::tree::{Expr, Simple};
use chill_tree::{Sign, Token, Word};
use expr_parser::{
    ParseRefusal, read_args, read_exprs, read_name, read_sign, read_value, read_word, starts,
    starts_expr, starts_with,
};
use std::alloc::Global;

/// Reads an action that holds no other; `inner` levels of nesting are left behind an opening token.
#[tactic(auto, unfolding(rules_model::specs::SimpleReading::simple_at, crate::specs::Tails::other_simple_at))]
pub fn read_simple(
    alloc: Global,
    tokens: &[Token],
    inner: usize,
) -> Result<(Simple, &[Token]), ParseRefusal>
    ensures { Gives (λ x. (simple_tree x.0, x.1.now)) result (simple_at inner tokens.now) }
{
    if starts_with(tokens, Word::Call) {
        return call(alloc, tokens, inner);
    }
    if starts_with(tokens, Word::Exit) {
        return leave(tokens);
    }
    if starts_with(tokens, Word::Return) {
        return give_back(alloc, tokens, inner);
    }
    if starts_with(tokens, Word::Result) {
        return set_result(alloc, tokens, inner);
    }
    if starts_with(tokens, Word::Assert) {
        return assert(alloc, tokens, inner);
    }
    if starts_with(tokens, Word::Cause) {
        return raise(tokens);
    }
    other_simple(alloc, tokens, inner)
}

// Reads an action of concurrent execution, or one that begins with a name.
#[tactic(auto, unfolding(crate::specs::Tails::other_simple_at))]
fn other_simple(
    alloc: Global,
    tokens: &[Token],
    inner: usize,
) -> Result<(Simple, &[Token]), ParseRefusal>
    ensures { Gives (λ x. (simple_tree x.0, x.1.now)) result (other_simple_at inner tokens.now) }
{
    if starts_with(tokens, Word::Stop) {
        let (at, rest) = read_word(tokens, Word::Stop)?;
        return Ok((Simple::Stop { at }, rest));
    }
    if starts_with(tokens, Word::Start) {
        return start(alloc, tokens, inner);
    }
    if starts_with(tokens, Word::Delay) {
        return delay(alloc, tokens, inner);
    }
    if starts_with(tokens, Word::Continue) {
        return resume(tokens);
    }
    if starts_with(tokens, Word::Send) {
        return send(alloc, tokens, inner);
    }
    read_named_action(alloc, tokens, inner)
}

// Reads a call behind the word CALL.
#[tactic(auto, unfolding(rules_model::specs::SimpleReading::call_at))]
fn call(alloc: Global, tokens: &[Token], inner: usize) -> Result<(Simple, &[Token]), ParseRefusal>
    ensures { Gives (λ x. (simple_tree x.0, x.1.now)) result (call_at inner tokens.now) }
{
    let (at, rest) = read_word(tokens, Word::Call)?;
    let (name, rest) = read_name(rest)?;
    let (args, rest) = read_args(alloc, rest, inner)?;
    let action = Simple::Call {
        at,
        call: true,
        name,
        args,
    };
    Ok((action, rest))
}

// Reads EXIT and a label.
fn leave(tokens: &[Token]) -> Result<(Simple, &[Token]), ParseRefusal>
    ensures { Gives (λ x. (simple_tree x.0, x.1.now)) result (word_name_at words.Exit exit tokens.now) }
{
    let (at, rest) = read_word(tokens, Word::Exit)?;
    let (label, rest) = read_name(rest)?;
    Ok((Simple::Exit { at, label }, rest))
}

// Reads CAUSE and an exception.
fn raise(tokens: &[Token]) -> Result<(Simple, &[Token]), ParseRefusal>
    ensures { Gives (λ x. (simple_tree x.0, x.1.now)) result (word_name_at words.Cause cause tokens.now) }
{
    let (at, rest) = read_word(tokens, Word::Cause)?;
    let (exception, rest) = read_name(rest)?;
    Ok((Simple::Cause { at, exception }, rest))
}

// Reads CONTINUE and an event.
fn resume(tokens: &[Token]) -> Result<(Simple, &[Token]), ParseRefusal>
    ensures { Gives (λ x. (simple_tree x.0, x.1.now)) result (word_name_at words.Continue continue_event tokens.now) }
{
    let (at, rest) = read_word(tokens, Word::Continue)?;
    let (event, rest) = read_name(rest)?;
    Ok((Simple::Continue { at, event }, rest))
}

// Reads RETURN, and a value if one begins there.
#[tactic(auto, unfolding(rules_model::specs::SimpleReading::return_at))]
fn give_back(
    alloc: Global,
    tokens: &[Token],
    inner: usize,
) -> Result<(Simple, &[Token]), ParseRefusal>
    ensures { Gives (λ x. (simple_tree x.0, x.1.now)) result (return_at inner tokens.now) }
{
    let (at, rest) = read_word(tokens, Word::Return)?;
    if !starts_expr(rest) {
        return Ok((Simple::Return { at, value: None }, rest));
    }
    let (value, rest) = read_value(alloc, rest, inner)?;
    let value = Some(value);
    Ok((Simple::Return { at, value }, rest))
}

// Reads RESULT and a value.
fn set_result(
    alloc: Global,
    tokens: &[Token],
    inner: usize,
) -> Result<(Simple, &[Token]), ParseRefusal>
    ensures { Gives (λ x. (simple_tree x.0, x.1.now)) result (word_value_at inner words.Result result_of tokens.now) }
{
    let (at, rest) = read_word(tokens, Word::Result)?;
    let (value, rest) = read_value(alloc, rest, inner)?;
    Ok((Simple::Result { at, value }, rest))
}

// Reads ASSERT and a condition.
fn assert(alloc: Global, tokens: &[Token], inner: usize) -> Result<(Simple, &[Token]), ParseRefusal>
    ensures { Gives (λ x. (simple_tree x.0, x.1.now)) result (word_value_at inner words.Assert assert_that tokens.now) }
{
    let (at, rest) = read_word(tokens, Word::Assert)?;
    let (condition, rest) = read_value(alloc, rest, inner)?;
    Ok((Simple::Assert { at, condition }, rest))
}

// Reads START, a process and its arguments.
#[tactic(auto, unfolding(rules_model::specs::SimpleReading::start_at))]
fn start(alloc: Global, tokens: &[Token], inner: usize) -> Result<(Simple, &[Token]), ParseRefusal>
    ensures { Gives (λ x. (simple_tree x.0, x.1.now)) result (start_at inner tokens.now) }
{
    let (at, rest) = read_word(tokens, Word::Start)?;
    let (process, rest) = read_name(rest)?;
    let (args, rest) = read_args(alloc, rest, inner)?;
    Ok((Simple::Start { at, process, args }, rest))
}

// Reads DELAY, an event, and a priority if one is given.
#[tactic(auto, unfolding(rules_model::specs::SimpleReading::delay_at))]
fn delay(alloc: Global, tokens: &[Token], inner: usize) -> Result<(Simple, &[Token]), ParseRefusal>
    ensures { Gives (λ x. (simple_tree x.0, x.1.now)) result (delay_at inner tokens.now) }
{
    let (at, rest) = read_word(tokens, Word::Delay)?;
    let (event, rest) = read_name(rest)?;
    let (priority, rest) = value_clause(alloc, rest, Word::Priority, inner)?;
    let action = Simple::Delay {
        at,
        event,
        priority,
    };
    Ok((action, rest))
}

// Reads SEND, what it is sent to, and what is sent, to whom and with which priority, where these are given.
#[tactic(auto, unfolding(rules_model::specs::SimpleReading::send_at))]
fn send(alloc: Global, tokens: &[Token], inner: usize) -> Result<(Simple, &[Token]), ParseRefusal>
    ensures { Gives (λ x. (simple_tree x.0, x.1.now)) result (send_at inner tokens.now) }
{
    let (at, rest) = read_word(tokens, Word::Send)?;
    let (target, rest) = read_name(rest)?;
    let (args, rest) = message(alloc, rest, inner)?;
    let (receiver, rest) = value_clause(alloc, rest, Word::To, inner)?;
    let (priority, rest) = value_clause(alloc, rest, Word::Priority, inner)?;
    let action = Simple::Send {
        at,
        target,
        args,
        receiver,
        priority,
    };
    Ok((action, rest))
}

// Reads the values that are sent, in parentheses, if these are there.
#[tactic(auto, unfolding(rules_model::specs::SimpleReading::message_at))]
fn message(
    alloc: Global,
    tokens: &[Token],
    inner: usize,
) -> Result<(Option<List<Expr>>, &[Token]), ParseRefusal>
    ensures { Gives (λ x. (option_map expr_trees x.0, x.1.now)) result (message_at inner tokens.now) }
{
    if !starts(tokens, Sign::Open) {
        return Ok((None, tokens));
    }
    let (opened, rest) = read_sign(tokens, Sign::Open)?;
    let (args, rest) = read_exprs(alloc, rest, inner, opened)?;
    let (_, rest) = read_sign(rest, Sign::Close)?;
    Ok((Some(args), rest))
}
