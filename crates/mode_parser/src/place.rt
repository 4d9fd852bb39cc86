// Readers of lengths, of places in words, and of how parts lie (Z.200, chapter on modes).
ghost use Rattle.std.specs.Prelude.{◌≡◌, option_map};
ghost use Rattle.chill_tree.specs.ExprTree.{boxed_expr};
ghost use Rattle.chill_tree.specs.ModeTree.{place_tree, step_tree, spread_tree};
ghost use Rattle.expr_parser.specs.Giving.{Gives};
ghost use Rattle.mode_parser.specs.PlaceParts.{bound_at};
ghost use Rattle.rules_model.specs.ModeReading.{length_at, place_end_at, place_at, field_place_at, step_at, packing_at, spread_at};

use chill_base::Pos;
use chill_tree::tree::{Expr, Packing, Place, PlaceForm, Spread, Step};
use chill_tree::{Sign, Token, Word};
use expr_parser::{ParseRefusal, less, read_expr, read_sign, read_word, starts, starts_with};
use std::alloc::Global;

/// Reads a length in its brackets, if the bracket is there.
#[tactic(auto, unfolding(rules_model::specs::ModeReading::length_at))]
pub fn read_length(
    alloc: Global,
    tokens: &[Token],
    inner: usize,
) -> Result<(Option<Box<Expr>>, &[Token]), ParseRefusal>
    ensures { Gives (λ x. (option_map boxed_expr x.0, x.1.now)) result (length_at inner tokens.now) }
{
    if !starts(tokens, Sign::Open) {
        return Ok((None, tokens));
    }
    let (opened, rest) = read_sign(tokens, Sign::Open)?;
    let (length, rest) = read_expr(alloc, rest, inner, opened)?;
    let (_, rest) = read_sign(rest, Sign::Close)?;
    Ok((Some(length), rest))
}

/// Reads the place of a field, if one is there.
#[tactic(auto, unfolding(rules_model::specs::ModeReading::field_place_at))]
pub fn read_field_place(
    alloc: Global,
    tokens: &[Token],
    inner: usize,
) -> Result<(Option<Place>, &[Token]), ParseRefusal>
    ensures { Gives (λ x. (option_map place_tree x.0, x.1.now)) result (field_place_at inner tokens.now) }
{
    if !starts_with(tokens, Word::Pos) {
        return Ok((None, tokens));
    }
    let (place, rest) = whole_place(alloc, tokens, inner)?;
    Ok((Some(place), rest))
}

// Reads a place in words.
#[tactic(auto, unfolding(rules_model::specs::ModeReading::place_at))]
fn whole_place(
    alloc: Global,
    tokens: &[Token],
    inner: usize,
) -> Result<(Place, &[Token]), ParseRefusal>
    ensures { Gives (λ x. (place_tree x.0, x.1.now)) result (place_at inner tokens.now) }
{
    let (at, rest) = read_word(tokens, Word::Pos)?;
    let (opened, rest) = read_sign(rest, Sign::Open)?;
    let (word, rest) = read_expr(alloc, rest, inner, opened)?;
    let (_, rest) = read_sign(rest, Sign::Comma)?;
    let (start, rest) = read_expr(alloc, rest, inner, opened)?;
    place_end(alloc, Begun { at, word, start }, opened, rest, inner)
}

// A place up to its start.
#[derive(Drop)]
struct Begun {
    at: Pos,
    word: Box<Expr>,
    start: Box<Expr>,
}

// Reads the end of a place, behind its start.
#[tactic(auto, unfolding(rules_model::specs::ModeReading::place_end_at))]
fn place_end(
    alloc: Global,
    begun: Begun,
    opened: Pos,
    tokens: &[Token],
    inner: usize,
) -> Result<(Place, &[Token]), ParseRefusal>
    ensures { Gives (λ x. (place_tree x.0, x.1.now)) result (place_end_at inner begun.at opened (boxed_expr begun.word) (boxed_expr begun.start) tokens.now) }
{
    if starts(tokens, Sign::Colon) {
        return bound(
            alloc,
            begun,
            opened,
            PlaceForm::End,
            tokens,
            Sign::Colon,
            inner,
        );
    }
    bound(
        alloc,
        begun,
        opened,
        PlaceForm::Length,
        tokens,
        Sign::Comma,
        inner,
    )
}

// Reads the last number of a place, from the sign before it on.
fn bound(
    alloc: Global,
    begun: Begun,
    opened: Pos,
    form: PlaceForm,
    tokens: &[Token],
    sign: Sign,
    inner: usize,
) -> Result<(Place, &[Token]), ParseRefusal>
    ensures { Gives (λ x. (place_tree x.0, x.1.now)) result (bound_at inner begun.at opened (boxed_expr begun.word) (boxed_expr begun.start) form sign tokens.now) }
{
    let (_, rest) = read_sign(tokens, sign)?;
    let (bound, rest) = read_expr(alloc, rest, inner, opened)?;
    let (_, rest) = read_sign(rest, Sign::Close)?;
    let place = Place {
        at: begun.at,
        word: begun.word,
        start: begun.start,
        form,
        bound,
    };
    Ok((place, rest))
}

// Reads the place of an array's first element, and the bits from each to the next.
#[tactic(auto, unfolding(rules_model::specs::ModeReading::step_at))]
fn step(alloc: Global, tokens: &[Token], inner: usize) -> Result<(Step, &[Token]), ParseRefusal>
    ensures { Gives (λ x. (step_tree x.0, x.1.now)) result (step_at inner tokens.now) }
{
    let (at, rest) = read_word(tokens, Word::Step)?;
    let (opened, rest) = read_sign(rest, Sign::Open)?;
    let (place, rest) = whole_place(alloc, rest, less(inner))?;
    let (_, rest) = read_sign(rest, Sign::Comma)?;
    let (distance, rest) = read_expr(alloc, rest, inner, opened)?;
    let (_, rest) = read_sign(rest, Sign::Close)?;
    let step = Step {
        at,
        place,
        distance,
    };
    Ok((step, rest))
}

/// Reads whether the parts of a structure are packed, if it is said.
#[tactic(auto, unfolding(rules_model::specs::ModeReading::packing_at))]
pub fn read_packing(tokens: &[Token]) -> Result<(Option<Packing>, &[Token]), ParseRefusal>
    ensures { Gives (λ x. (x.0, x.1.now)) result (packing_at tokens.now) }
{
    if starts_with(tokens, Word::Pack) {
        let (_, rest) = read_word(tokens, Word::Pack)?;
        return Ok((Some(Packing::Pack), rest));
    }
    if starts_with(tokens, Word::NoPack) {
        let (_, rest) = read_word(tokens, Word::NoPack)?;
        return Ok((Some(Packing::NoPack), rest));
    }
    Ok((None, tokens))
}

/// Reads how the elements of an array lie, if it is said.
#[tactic(auto, unfolding(rules_model::specs::ModeReading::spread_at))]
pub fn read_spread(
    alloc: Global,
    tokens: &[Token],
    inner: usize,
) -> Result<(Option<Spread>, &[Token]), ParseRefusal>
    ensures { Gives (λ x. (option_map spread_tree x.0, x.1.now)) result (spread_at inner tokens.now) }
{
    if starts_with(tokens, Word::Pack) {
        let (_, rest) = read_word(tokens, Word::Pack)?;
        return Ok((Some(Spread::Packing(Packing::Pack)), rest));
    }
    if starts_with(tokens, Word::NoPack) {
        let (_, rest) = read_word(tokens, Word::NoPack)?;
        return Ok((Some(Spread::Packing(Packing::NoPack)), rest));
    }
    if starts_with(tokens, Word::Step) {
        let (step, rest) = step(alloc, tokens, inner)?;
        return Ok((Some(Spread::Step(step)), rest));
    }
    Ok((None, tokens))
}
