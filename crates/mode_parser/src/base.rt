// Readers of modes of values (Z.200, chapter on modes).
ghost use Rattle.std.specs.Prelude.{map};
ghost use Rattle.chill_tree.specs.ModeTree.{index_tree, boxed_base, field_tree, field_trees};
ghost use Rattle.expr_parser.specs.Giving.{Gives};
ghost use Rattle.mode_parser.specs.BaseParts.{powerset_at, chars_at, structure_at, array_at, elements_at, laid_out_at};
ghost use Rattle.rules_model.specs.Reading.{listed_at};
ghost use Rattle.rules_model.specs.ModeReading.{plain_base_at, arrays_at, one_field_at, fields_at, base_at};

use crate::discrete::{read_discrete, read_index};
use crate::place::{read_field_place, read_packing, read_spread};
use chill_base::{List, Pos};
use chill_tree::tree::{Base, Field, Index};
use chill_tree::{Sign, Token, Word};
use expr_parser::{
    Listed, ParseRefusal, place, read_expr, read_list, read_names, read_sign, read_word,
    starts_with,
};
use std::alloc::Global;

/// How many arrays stand in direct succession, at most.
const DIMENSIONS: usize = 8;

/// Reads a mode of values.
pub fn read_base(
    alloc: Global,
    tokens: &[Token],
    inner: usize,
) -> Result<(Box<Base>, &[Token]), ParseRefusal>
    ensures { Gives (λ x. (boxed_base x.0, x.1.now)) result (base_at inner tokens.now) }
{
    arrays(alloc, tokens, DIMENSIONS, inner)
}

// Reads a mode of values with at most so many arrays in direct succession.
#[cycle(base)]
#[tactic(auto, unfolding(rules_model::specs::ModeReading::arrays_at))]
fn arrays(
    alloc: Global,
    tokens: &[Token],
    count: usize,
    inner: usize,
) -> Result<(Box<Base>, &[Token]), ParseRefusal>
    ensures { Gives (λ x. (boxed_base x.0, x.1.now)) result (arrays_at inner (fields_at inner) count tokens.now) }
{
    let is_array = starts_with(tokens, Word::Array);
    if count == 0 {
        if is_array {
            return Err(ParseRefusal::NoProgram { at: place(tokens) });
        }
        return plain_base(alloc, tokens, inner);
    }
    if is_array {
        return array(alloc, tokens, count - 1, inner);
    }
    plain_base(alloc, tokens, inner)
}

// Reads an array with at most so many arrays directly in it.
#[cycle(base)]
fn array(
    alloc: Global,
    tokens: &[Token],
    count: usize,
    inner: usize,
) -> Result<(Box<Base>, &[Token]), ParseRefusal>
    ensures { Gives (λ x. (boxed_base x.0, x.1.now)) result (array_at inner (fields_at inner) count tokens.now) }
{
    let (at, rest) = read_word(tokens, Word::Array)?;
    let (opened, rest) = read_sign(rest, Sign::Open)?;
    let (index, rest) = read_index(alloc, rest, inner, opened)?;
    elements(alloc, at, index, rest, count, inner)
}

// Reads an array from the bracket on that closes its indices.
#[cycle(base)]
fn elements(
    alloc: Global,
    at: Pos,
    index: Index,
    tokens: &[Token],
    count: usize,
    inner: usize,
) -> Result<(Box<Base>, &[Token]), ParseRefusal>
    ensures { Gives (λ x. (boxed_base x.0, x.1.now)) result (elements_at inner (fields_at inner) count at (index_tree index) tokens.now) }
{
    let (_, rest) = read_sign(tokens, Sign::Close)?;
    let (element, rest) = arrays(alloc, rest, count, inner)?;
    laid_out(alloc, at, index, element, rest, inner)
}

// Reads how the elements of an array lie.
fn laid_out(
    alloc: Global,
    at: Pos,
    index: Index,
    element: Box<Base>,
    tokens: &[Token],
    inner: usize,
) -> Result<(Box<Base>, &[Token]), ParseRefusal>
    ensures { Gives (λ x. (boxed_base x.0, x.1.now)) result (laid_out_at inner at (index_tree index) (boxed_base element) tokens.now) }
{
    let (spread, rest) = read_spread(alloc, tokens, inner)?;
    Ok((Base::array(alloc, at, index, element, spread)?, rest))
}

// Reads a mode of values that is no array.
#[cycle(base)]
#[tactic(auto, unfolding(rules_model::specs::ModeReading::plain_base_at))]
fn plain_base(
    alloc: Global,
    tokens: &[Token],
    inner: usize,
) -> Result<(Box<Base>, &[Token]), ParseRefusal>
    ensures { Gives (λ x. (boxed_base x.0, x.1.now)) result (plain_base_at inner (fields_at inner) tokens.now) }
{
    if starts_with(tokens, Word::Powerset) {
        return powerset(alloc, tokens, inner);
    }
    if starts_with(tokens, Word::Chars) {
        return chars(alloc, tokens, inner);
    }
    if starts_with(tokens, Word::Struct) {
        return structure(alloc, tokens, inner);
    }
    let (own, rest) = read_discrete(alloc, tokens, inner)?;
    Ok((Base::discrete(alloc, own)?, rest))
}

// Reads the sets of values of a discrete mode.
fn powerset(
    alloc: Global,
    tokens: &[Token],
    inner: usize,
) -> Result<(Box<Base>, &[Token]), ParseRefusal>
    ensures { Gives (λ x. (boxed_base x.0, x.1.now)) result (powerset_at inner tokens.now) }
{
    let (at, rest) = read_word(tokens, Word::Powerset)?;
    let (member, rest) = read_discrete(alloc, rest, inner)?;
    Ok((Base::powerset(alloc, at, member)?, rest))
}

// Reads texts of a length.
fn chars(
    alloc: Global,
    tokens: &[Token],
    inner: usize,
) -> Result<(Box<Base>, &[Token]), ParseRefusal>
    ensures { Gives (λ x. (boxed_base x.0, x.1.now)) result (chars_at inner tokens.now) }
{
    let (at, rest) = read_word(tokens, Word::Chars)?;
    let (opened, rest) = read_sign(rest, Sign::Open)?;
    let (length, rest) = read_expr(alloc, rest, inner, opened)?;
    let (_, rest) = read_sign(rest, Sign::Close)?;
    Ok((Base::chars(alloc, at, length)?, rest))
}

// Reads a structure.
#[cycle(base)]
fn structure(
    alloc: Global,
    tokens: &[Token],
    inner: usize,
) -> Result<(Box<Base>, &[Token]), ParseRefusal>
    ensures { Gives (λ x. (boxed_base x.0, x.1.now)) result (structure_at (fields_at inner) tokens.now) }
{
    let (at, rest) = read_word(tokens, Word::Struct)?;
    let (opened, rest) = read_sign(rest, Sign::Open)?;
    let (fields, rest) = fields(alloc, rest, inner, opened)?;
    let (_, rest) = read_sign(rest, Sign::Close)?;
    let (packing, rest) = read_packing(rest)?;
    Ok((Base::structure(alloc, at, fields, packing)?, rest))
}

// Reads the fields of a structure, behind the bracket at the place `opened` where `room` levels are left.
#[cycle(base)]
#[tactic(auto, unfolding(rules_model::specs::ModeReading::fields_at))]
fn fields(
    alloc: Global,
    tokens: &[Token],
    room: usize,
    opened: Pos,
) -> Result<(List<Field>, &[Token]), ParseRefusal>
    ensures { Gives (λ x. (field_trees x.0, x.1.now)) result (fields_at room opened tokens.now) }
{
    if room == 0 {
        return Err(ParseRefusal::TooDeep { at: opened });
    }
    some_fields(alloc, tokens, room - 1)
}

// Fields of a structure, where so many levels of nesting are left behind their opening tokens.
#[derive(Drop)]
struct StructureFields {
    inner: usize,
}

impl Listed for StructureFields {
    type Item = Field;

    ghost use Rattle.chill_tree.specs.ModeTree.{FieldTree};

    ghost Tree = { FieldTree };

    ghost tree = { field_tree };

    ghost reads = { λ s. one_field_at s.inner (arrays_at s.inner (fields_at s.inner) 8) };
}

// Reads fields with commas between them, at least one.
#[cycle(base)]
fn some_fields(
    alloc: Global,
    tokens: &[Token],
    inner: usize,
) -> Result<(List<Field>, &[Token]), ParseRefusal>
    ensures { Gives (λ x. (field_trees x.0, x.1.now)) result (listed_at (one_field_at inner (arrays_at inner (fields_at inner) 8)) tokens.now) }
{
    read_list(
        alloc,
        tokens,
        &StructureFields { inner },
        |item|
            ensures { Gives (λ x. (field_tree x.0, x.1.now)) result (one_field_at inner (arrays_at inner (fields_at inner) 8) item.now) }
        { one_field(alloc, item, inner) },
    )
}

// Reads fields of one mode, and their place where one is written.
#[cycle(base)]
#[tactic(auto, unfolding(rules_model::specs::ModeReading::one_field_at))]
fn one_field(
    alloc: Global,
    tokens: &[Token],
    inner: usize,
) -> Result<(Field, &[Token]), ParseRefusal>
    ensures { Gives (λ x. (field_tree x.0, x.1.now)) result (one_field_at inner (arrays_at inner (fields_at inner) 8) tokens.now) }
{
    let (names, rest) = read_names(alloc, tokens)?;
    let (base, rest) = arrays(alloc, rest, DIMENSIONS, inner)?;
    let (place, rest) = read_field_place(alloc, rest, inner)?;
    Ok((Field::new(names, base, place), rest))
}
