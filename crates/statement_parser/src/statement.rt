// Readers of statements, of lists of them and of bodies.
ghost use Rattle.std.specs.Prelude.{◌≡◌, map, option_map};
ghost use Rattle.chill_tree.specs.SimpleTree.{boxed_simple, simple_tree};
ghost use Rattle.chill_tree.specs.StatementTree.{statement_tree, boxed_bracketed, bracketed_tree, body_tree, statement_trees, body_trees};
ghost use Rattle.expr_parser.specs.Giving.{Gives};
ghost use Rattle.rules_model.specs.Reading.{many_at};
ghost use Rattle.rules_model.specs.SimpleGrammar as simple_grammar;
ghost use Rattle.rules_model.specs.StatementGrammar as grammar;
ghost use Rattle.rules_model.specs.StatementReading.{closing_at, holding_at, labelled_at, unlabelled_at, statement_at, action_at, body_part_at, actions_at, body_at};

use crate::bracketed::read_bracketed;
use crate::closing::read_closing;
use crate::handler::read_handler;
use crate::mark::{begins_bracketed, begins_label, begins_local, begins_statement};
use crate::simple::read_simple;
use chill_base::{List, Pos};
use chill_tree::tree::{BodyPart, Bracketed, Name, Simple, Statement};
use chill_tree::{Sign, Token};
use expr_parser::{ParseRefusal, boxed, read_name, read_sign, starts};
use mode_parser::read_local;
use std::alloc::Global;

/// Reads statements as long as one begins, in what opened at the place, where so many levels of nesting are left.
#[cycle(statement)]
#[tactic(auto, using(crate::proofs::Levels::insides))]
pub fn read_actions(
    alloc: Global,
    tokens: &[Token],
    room: usize,
    opened: Pos,
) -> Result<(List<Statement>, &[Token]), ParseRefusal>
    ensures { Gives (λ x. (statement_trees x.0, x.1.now)) result (actions_at room opened tokens.now) }
{
    if room == 0 {
        return Err(ParseRefusal::TooDeep { at: opened });
    }
    statements(alloc, tokens, room - 1)
}

// Reads statements as long as one begins.
#[cycle(statement)]
#[tactic(auto, using(expr_parser::proofs::Repeats::repeats))]
fn statements(
    alloc: Global,
    tokens: &[Token],
    inner: usize,
) -> Result<(List<Statement>, &[Token]), ParseRefusal>
    ensures { Gives (λ x. (statement_trees x.0, x.1.now)) result (many_at (action_at inner (actions_at inner) (body_at inner)) tokens.now) }
{
    let mut items = List::new(alloc);
    let mut rest = tokens;
    for _ in 0..tokens.len() {
        let Some((item, after)) = action(alloc, rest, inner)? else {
            return Ok((items, rest));
        };
        items.push(item)?;
        rest = after;
    }
    Ok((items, rest))
}

// Reads a statement, if one begins here.
#[cycle(statement)]
#[tactic(auto, unfolding(rules_model::specs::StatementReading::action_at))]
fn action(
    alloc: Global,
    tokens: &[Token],
    inner: usize,
) -> Result<Option<(Statement, &[Token])>, ParseRefusal>
    ensures { Gives (option_map (λ x. (statement_tree x.0, x.1.now))) result (action_at inner (actions_at inner) (body_at inner) tokens.now) }
{
    if !begins_statement(tokens) {
        return Ok(None);
    }
    let (found, rest) = read_statement(alloc, tokens, inner)?;
    Ok(Some((found, rest)))
}

/// Reads definitions and statements as long as one begins, in what opened at the place, where so many levels of
/// nesting are left.
#[cycle(statement)]
#[tactic(auto, using(crate::proofs::Levels::insides))]
pub fn read_body(
    alloc: Global,
    tokens: &[Token],
    room: usize,
    opened: Pos,
) -> Result<(List<BodyPart>, &[Token]), ParseRefusal>
    ensures { Gives (λ x. (body_trees x.0, x.1.now)) result (body_at room opened tokens.now) }
{
    if room == 0 {
        return Err(ParseRefusal::TooDeep { at: opened });
    }
    body_parts(alloc, tokens, room - 1)
}

// Reads definitions and statements as long as one begins.
#[cycle(statement)]
#[tactic(auto, using(expr_parser::proofs::Repeats::repeats))]
fn body_parts(
    alloc: Global,
    tokens: &[Token],
    inner: usize,
) -> Result<(List<BodyPart>, &[Token]), ParseRefusal>
    ensures { Gives (λ x. (body_trees x.0, x.1.now)) result (many_at (body_part_at inner (actions_at inner) (body_at inner)) tokens.now) }
{
    let mut items = List::new(alloc);
    let mut rest = tokens;
    for _ in 0..tokens.len() {
        let Some((item, after)) = body_part(alloc, rest, inner)? else {
            return Ok((items, rest));
        };
        items.push(item)?;
        rest = after;
    }
    Ok((items, rest))
}

// Reads definitions of one kind or a statement, if one begins here.
#[cycle(statement)]
#[tactic(auto, unfolding(rules_model::specs::StatementReading::body_part_at))]
fn body_part(
    alloc: Global,
    tokens: &[Token],
    inner: usize,
) -> Result<Option<(BodyPart, &[Token])>, ParseRefusal>
    ensures { Gives (option_map (λ x. (body_tree x.0, x.1.now))) result (body_part_at inner (actions_at inner) (body_at inner) tokens.now) }
{
    if begins_local(tokens) {
        let (found, rest) = read_local(alloc, tokens, inner)?;
        return Ok(Some((BodyPart::local(found), rest)));
    }
    if begins_statement(tokens) {
        let (found, rest) = read_statement(alloc, tokens, inner)?;
        return Ok(Some((BodyPart::action(found), rest)));
    }
    Ok(None)
}

/// Reads a statement; `inner` levels of nesting are left behind an opening token.
#[cycle(statement)]
#[tactic(auto, unfolding(rules_model::specs::StatementReading::statement_at))]
pub fn read_statement(
    alloc: Global,
    tokens: &[Token],
    inner: usize,
) -> Result<(Statement, &[Token]), ParseRefusal>
    ensures { Gives (λ x. (statement_tree x.0, x.1.now)) result (statement_at inner (actions_at inner) (body_at inner) tokens.now) }
{
    if starts(tokens, Sign::Semicolon) {
        let (at, rest) = read_sign(tokens, Sign::Semicolon)?;
        return Ok((Statement::empty(at), rest));
    }
    if begins_label(tokens) {
        return labelled(alloc, tokens, inner);
    }
    if begins_bracketed(tokens) {
        return holding(alloc, None, tokens, inner);
    }
    unlabelled(alloc, tokens, inner)
}

// Reads a label and an action that holds others.
#[cycle(statement)]
#[tactic(auto, unfolding(rules_model::specs::StatementReading::labelled_at))]
fn labelled(
    alloc: Global,
    tokens: &[Token],
    inner: usize,
) -> Result<(Statement, &[Token]), ParseRefusal>
    ensures { Gives (λ x. (statement_tree x.0, x.1.now)) result (labelled_at inner (actions_at inner) (body_at inner) tokens.now) }
{
    let (label, rest) = read_name(tokens)?;
    let (_, rest) = read_sign(rest, Sign::Colon)?;
    holding(alloc, Some(label), rest, inner)
}

// Reads an action that holds others, with its handler and the label again, up to its semicolon.
#[cycle(statement)]
#[tactic(auto, unfolding(rules_model::specs::StatementReading::holding_at))]
fn holding(
    alloc: Global,
    label: Option<Name>,
    tokens: &[Token],
    inner: usize,
) -> Result<(Statement, &[Token]), ParseRefusal>
    ensures { Gives (λ x. (statement_tree x.0, x.1.now)) result (holding_at inner (actions_at inner) (body_at inner) label tokens.now) }
{
    let (action, rest) = read_bracketed(alloc, tokens, inner)?;
    let (handler, rest) = read_handler(alloc, rest, inner)?;
    let (closing, rest) = label_again(&label, rest)?;
    let (_, rest) = read_sign(rest, Sign::Semicolon)?;
    let at = place_of_labelled(&label, &action);
    let found = Statement::bracketed(at, label, action, handler, closing);
    Ok((found, rest))
}

// Reads the label again, if a name stands there.
fn label_again<'a>(
    label: &Option<Name>,
    tokens: &'a [Token],
) -> Result<(Option<Name>, &'a [Token]), ParseRefusal>
    ensures { Gives (λ x. (x.0, x.1.now)) result (closing_at label.now tokens.now) }
{
    match label {
        Some(name) => read_closing(tokens, Some(name)),
        None => read_closing(tokens, None),
    }
}

// The place of the first token of a statement: its label's, or that of the action.
fn place_of_labelled(label: &Option<Name>, action: &Bracketed) -> Pos
    ensures { result ≡ grammar.place_of_labelled label.now (bracketed_tree action.now) }
{
    match label {
        Some(name) => name.at,
        None => place_of_bracketed(action),
    }
}

// The place of the first token of an action that holds others.
#[tactic(auto, using(chill_tree::proofs::StatementViews::statement_built))]
fn place_of_bracketed(action: &Bracketed) -> Pos
    ensures { result ≡ grammar.place_of_bracketed (bracketed_tree action.now) }
{
    match action {
        Bracketed::If { at, .. } => *at,
        Bracketed::Case { at, .. } => *at,
        Bracketed::Do { at, .. } => *at,
        Bracketed::Begin { at, .. } => *at,
        Bracketed::DelayCase { at, .. } => *at,
        Bracketed::ReceiveCase { at, .. } => *at,
    }
}

// Reads an action that holds no other, with its handler, up to its semicolon.
#[cycle(statement)]
#[tactic(auto, unfolding(rules_model::specs::StatementReading::unlabelled_at))]
fn unlabelled(
    alloc: Global,
    tokens: &[Token],
    inner: usize,
) -> Result<(Statement, &[Token]), ParseRefusal>
    ensures { Gives (λ x. (statement_tree x.0, x.1.now)) result (unlabelled_at inner (actions_at inner) tokens.now) }
{
    let (action, rest) = read_simple(alloc, tokens, inner)?;
    let action = boxed(alloc, action)?;
    let (handler, rest) = read_handler(alloc, rest, inner)?;
    let (_, rest) = read_sign(rest, Sign::Semicolon)?;
    let at = place_of_simple(&action);
    Ok((Statement::simple(at, action, handler), rest))
}

// The place of the first token of an action that holds no other.
fn place_of_simple(action: &Simple) -> Pos
    ensures { result ≡ simple_grammar.place_of_simple (simple_tree action.now) }
{
    match action {
        Simple::Assign { at, .. } => *at,
        Simple::Update { at, .. } => *at,
        Simple::Call { at, .. } => *at,
        Simple::Exit { at, .. } => *at,
        Simple::Return { at, .. } => *at,
        Simple::Result { at, .. } => *at,
        Simple::Assert { at, .. } => *at,
        Simple::Cause { at, .. } => *at,
        Simple::Stop { at } => *at,
        Simple::Start { at, .. } => *at,
        Simple::Delay { at, .. } => *at,
        Simple::Continue { at, .. } => *at,
        Simple::Send { at, .. } => *at,
    }
}
