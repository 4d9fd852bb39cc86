// Readers of modulions and of the items in them (Z.200, chapter on program structure). `inner` is the number of levels
// of nesting that are left behind an opening token.
ghost use Rattle.std.specs.Prelude.{[], option_map};
ghost use Rattle.chill_tree.specs.ItemTree.{item_tree, item_trees, modulion_tree};
ghost use Rattle.chill_parser.specs.Tails.{action_item_at, grant_at, local_item_at, modulion_end_at, modulion_item_at, procedure_item_at, process_item_at, seize_at, signals_at};
ghost use Rattle.expr_parser.specs.Giving.{Gives};
ghost use Rattle.rules_model.specs.ItemReading.{block_item_at, item_at, items_at, modulion_at};
ghost use Rattle.rules_model.specs.Reading.{push, repeat};

use crate::block::{read_procedure, read_process};
use crate::heading::{begins_block, read_kind, read_passed};
use crate::signal::read_signals;
use chill_base::{List, Pos};
use chill_tree::tree::{Item, Modulion, ModulionKind, Name};
use chill_tree::{Sign, Token, Word};
use expr_parser::{ParseRefusal, boxed, read_name, read_sign, read_word, starts_with};
use mode_parser::read_local;
use statement_parser::{
    begins_local, begins_statement, read_closing, read_handler, read_statement,
};
use std::alloc::Global;

/// Reads a modulion.
#[cycle(item)]
#[tactic(auto, unfolding(rules_model::specs::ItemReading::modulion_at))]
pub(crate) fn read_modulion(
    alloc: Global,
    tokens: &[Token],
    inner: usize,
) -> Result<(Modulion, &[Token]), ParseRefusal>
    ensures { Gives (λ x. (modulion_tree x.0, x.1.now)) result (modulion_at inner (items_at inner) tokens.now) }
{
    let (name, rest) = read_name(tokens)?;
    let (_, rest) = read_sign(rest, Sign::Colon)?;
    let (at, kind, rest) = read_kind(rest)?;
    let (items, rest) = read_items(alloc, rest, inner, at)?;
    let (_, rest) = read_word(rest, Word::End)?;
    modulion_end(alloc, name, kind, items, rest, inner)
}

// Reads what stands behind the END of a modulion.
fn modulion_end(
    alloc: Global,
    name: Name,
    kind: ModulionKind,
    items: List<Item>,
    tokens: &[Token],
    inner: usize,
) -> Result<(Modulion, &[Token]), ParseRefusal>
    ensures { Gives (λ x. (modulion_tree x.0, x.1.now)) result (modulion_end_at inner name kind (item_trees items) tokens.now) }
{
    let (handler, rest) = read_handler(alloc, tokens, inner)?;
    let (closing, rest) = read_closing(rest, Some(&name))?;
    let (_, rest) = read_sign(rest, Sign::Semicolon)?;
    Ok((Modulion::new(name, kind, items, handler, closing), rest))
}

// Reads the items behind an opening token at the place `opened`, where `room` levels of nesting are left.
#[cycle(item)]
#[tactic(auto, unfolding(rules_model::specs::ItemReading::items_at))]
fn read_items(
    alloc: Global,
    tokens: &[Token],
    room: usize,
    opened: Pos,
) -> Result<(List<Item>, &[Token]), ParseRefusal>
    ensures { Gives (λ x. (item_trees x.0, x.1.now)) result (items_at room opened tokens.now) }
{
    if room == 0 {
        return Err(ParseRefusal::TooDeep { at: opened });
    }
    each_item(alloc, tokens, room - 1, tokens.len())
}

// Reads item after item, at most so many.
#[cycle(item)]
#[tactic(auto, using(expr_parser::proofs::Repeats::repeats))]
fn each_item(
    alloc: Global,
    tokens: &[Token],
    inner: usize,
    limit: usize,
) -> Result<(List<Item>, &[Token]), ParseRefusal>
    ensures { Gives (λ x. (item_trees x.0, x.1.now)) result (repeat (item_at inner (items_at inner)) push limit [] tokens.now) }
{
    let mut items = List::new(alloc);
    let mut rest = tokens;
    for _ in 0..limit {
        let Some((item, after)) = read_item(alloc, rest, inner)? else {
            return Ok((items, rest));
        };
        items.push(item)?;
        rest = after;
    }
    Ok((items, rest))
}

// Reads an item, if one begins here.
#[cycle(item)]
#[tactic(auto, unfolding(rules_model::specs::ItemReading::item_at))]
fn read_item(
    alloc: Global,
    tokens: &[Token],
    inner: usize,
) -> Result<Option<(Item, &[Token])>, ParseRefusal>
    ensures { Gives (option_map (λ x. (item_tree x.0, x.1.now))) result (item_at inner (items_at inner) tokens.now) }
{
    if starts_with(tokens, Word::Seize) {
        return seize(alloc, tokens);
    }
    if starts_with(tokens, Word::Grant) {
        return grant(alloc, tokens);
    }
    if starts_with(tokens, Word::Signal) {
        return signals(alloc, tokens, inner);
    }
    if begins_local(tokens) {
        return local(alloc, tokens, inner);
    }
    block_item(alloc, tokens, inner)
}

// Reads a procedure, a process, a modulion or a statement, if one begins here.
#[cycle(item)]
#[tactic(auto, unfolding(rules_model::specs::ItemReading::block_item_at))]
fn block_item(
    alloc: Global,
    tokens: &[Token],
    inner: usize,
) -> Result<Option<(Item, &[Token])>, ParseRefusal>
    ensures { Gives (option_map (λ x. (item_tree x.0, x.1.now))) result (block_item_at inner (items_at inner) tokens.now) }
{
    if begins_block(tokens, Word::Proc) {
        return procedure(alloc, tokens, inner);
    }
    if begins_block(tokens, Word::Process) {
        return process(alloc, tokens, inner);
    }
    if begins_block(tokens, Word::Module) {
        return modulion(alloc, tokens, inner);
    }
    if begins_block(tokens, Word::Region) {
        return modulion(alloc, tokens, inner);
    }
    if begins_statement(tokens) {
        return action(alloc, tokens, inner);
    }
    Ok(None)
}

// Reads a modulion in another.
#[cycle(item)]
fn modulion(
    alloc: Global,
    tokens: &[Token],
    inner: usize,
) -> Result<Option<(Item, &[Token])>, ParseRefusal>
    ensures { Gives (option_map (λ x. (item_tree x.0, x.1.now))) result (modulion_item_at inner (items_at inner) tokens.now) }
{
    let (own, rest) = read_modulion(alloc, tokens, inner)?;
    let own = boxed(alloc, own)?;
    Ok(Some((Item::modulion(own), rest)))
}

// Reads names that are taken from outside.
fn seize(alloc: Global, tokens: &[Token]) -> Result<Option<(Item, &[Token])>, ParseRefusal>
    ensures { Gives (option_map (λ x. (item_tree x.0, x.1.now))) result (seize_at tokens.now) }
{
    let (at, rest) = read_word(tokens, Word::Seize)?;
    let (passed, rest) = read_passed(alloc, rest)?;
    let (_, rest) = read_sign(rest, Sign::Semicolon)?;
    Ok(Some((Item::seize(at, passed), rest)))
}

// Reads names that are given to the outside.
fn grant(alloc: Global, tokens: &[Token]) -> Result<Option<(Item, &[Token])>, ParseRefusal>
    ensures { Gives (option_map (λ x. (item_tree x.0, x.1.now))) result (grant_at tokens.now) }
{
    let (at, rest) = read_word(tokens, Word::Grant)?;
    let (passed, rest) = read_passed(alloc, rest)?;
    let (_, rest) = read_sign(rest, Sign::Semicolon)?;
    Ok(Some((Item::grant(at, passed), rest)))
}

// Reads signals behind their word.
fn signals(
    alloc: Global,
    tokens: &[Token],
    inner: usize,
) -> Result<Option<(Item, &[Token])>, ParseRefusal>
    ensures { Gives (option_map (λ x. (item_tree x.0, x.1.now))) result (signals_at inner tokens.now) }
{
    let (at, rest) = read_word(tokens, Word::Signal)?;
    let (own, rest) = read_signals(alloc, rest, inner)?;
    let (_, rest) = read_sign(rest, Sign::Semicolon)?;
    Ok(Some((Item::signals(at, own), rest)))
}

// Reads a definition.
fn local(
    alloc: Global,
    tokens: &[Token],
    inner: usize,
) -> Result<Option<(Item, &[Token])>, ParseRefusal>
    ensures { Gives (option_map (λ x. (item_tree x.0, x.1.now))) result (local_item_at inner tokens.now) }
{
    let (own, rest) = read_local(alloc, tokens, inner)?;
    Ok(Some((Item::local(own), rest)))
}

// Reads a procedure.
fn procedure(
    alloc: Global,
    tokens: &[Token],
    inner: usize,
) -> Result<Option<(Item, &[Token])>, ParseRefusal>
    ensures { Gives (option_map (λ x. (item_tree x.0, x.1.now))) result (procedure_item_at inner tokens.now) }
{
    let (own, rest) = read_procedure(alloc, tokens, inner)?;
    Ok(Some((Item::procedure(own), rest)))
}

// Reads a process.
fn process(
    alloc: Global,
    tokens: &[Token],
    inner: usize,
) -> Result<Option<(Item, &[Token])>, ParseRefusal>
    ensures { Gives (option_map (λ x. (item_tree x.0, x.1.now))) result (process_item_at inner tokens.now) }
{
    let (own, rest) = read_process(alloc, tokens, inner)?;
    Ok(Some((Item::process(own), rest)))
}

// Reads a statement.
fn action(
    alloc: Global,
    tokens: &[Token],
    inner: usize,
) -> Result<Option<(Item, &[Token])>, ParseRefusal>
    ensures { Gives (option_map (λ x. (item_tree x.0, x.1.now))) result (action_item_at inner tokens.now) }
{
    let (own, rest) = read_statement(alloc, tokens, inner)?;
    Ok(Some((Item::action(own), rest)))
}
