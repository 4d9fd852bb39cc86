// The scalars of a mode are laid one behind the other. A cursor counts bits from the first of word 0.
ghost use Rattle.std.specs.Prelude.{◌≡◌, ◌≤◌, ◌+◌, ◌*◌, [], ◌∷◌, ◌++◌, OnOk, IfOk};
ghost use Rattle.modes.specs.ModeTree.{mode_tree, place_tree, field_tree, field_trees, field_nodes};
ghost use Rattle.modes.specs.Scalars.{numbers_of};
ghost use Rattle.layout_map.specs.Scalar.{is_signed, scalar_of};
ghost use Rattle.layout_map.specs.Spots.{held, up, begin, after, one, one_of, times, numbers, character, place_bit, step_end, steps_laid, is_placed, spot_at, placed_spot, spot_end, placed_spots, placed_end, laid, laid_fields};

use crate::place::place_of;
use crate::scalar::{Scalar, scalar_of};
use chill_base::{Bits, Layout, Memory};
use modes::{Field, Mode, Spread, number_of_values};

// The first bit of the last word that has a number.
const LAST: u64 = 137_438_953_440;

// The next first bit of a word, or the same where it is one.
fn up(cursor: u64) -> u64
    requires { cursor ≤ 137438953440 }
    ensures { result ≡ up cursor }
{
    ((cursor + 31) / 32 * 32).min(LAST)
}

// Where the next scalar of this width begins.
fn begin(width: u32, packed: bool, cursor: u64) -> u64
    requires { cursor ≤ 137438953440 }
    ensures is { result ≡ begin width packed cursor }
    ensures room { result ≤ 137438953440 }
{
    if packed && cursor % 32 + width as u64 <= 32 {
        cursor
    } else {
        up(cursor)
    }
}

// The cursor behind a scalar.
fn after(width: u32, packed: bool, cursor: u64) -> u64
    requires { cursor ≤ 137438953440 }
    ensures { result ≡ after width packed cursor }
{
    if packed {
        (cursor + width as u64).min(LAST)
    } else {
        (cursor + 32).min(LAST)
    }
}

// Puts a scalar behind the cursor.
fn lay_one(scalar: Scalar, packed: bool, cursor: u64, out: &mut Layout) -> Result<u64, Memory>
    requires { cursor ≤ 137438953440 }
    ensures spots { OnOk result (out.new ≡ out.old ++ (one scalar packed cursor).0) }
    ensures next { IfOk result (λ next. next ≡ (one scalar packed cursor).1) }
    ensures room { IfOk result (λ next. next ≤ 137438953440) }
{
    let first = begin(scalar.width, packed, cursor);
    let start = (first % 32) as u32;
    out.push(Bits {
        word: (first / 32) as u32,
        start,
        end: (start as u64 + scalar.width as u64)
            .saturating_sub(1)
            .min(u32::MAX as u64) as u32,
        signed: scalar.signed,
    })?;
    Ok(after(scalar.width, packed, first))
}

// Puts a mode that is one scalar behind the cursor.
fn lay_scalar(
    scalar: Option<Scalar>,
    packed: bool,
    cursor: u64,
    out: &mut Layout,
) -> Result<u64, Memory>
    requires { cursor ≤ 137438953440 }
    ensures spots { OnOk result (out.new ≡ out.old ++ (one_of scalar packed cursor).0) }
    ensures next { IfOk result (λ next. next ≡ (one_of scalar packed cursor).1) }
    ensures room { IfOk result (λ next. next ≤ 137438953440) }
{
    match scalar {
        None => Ok(cursor),
        Some(s) => lay_one(s, packed, cursor, out),
    }
}

// Puts the numbers of a powerset of so many members behind the cursor.
#[tactic(auto, using(crate::proofs::SpotLemmas::number_steps))]
fn lay_numbers(members: u64, packed: bool, cursor: u64, out: &mut Layout) -> Result<u64, Memory>
    requires { cursor ≤ 137438953440 }
    ensures spots { OnOk result (out.new ≡ out.old ++ (numbers (numbers_of members) members packed cursor).0) }
    ensures next { IfOk result (λ next. next ≡ (numbers (numbers_of members) members packed cursor).1) }
    ensures room { IfOk result (λ next. next ≤ 137438953440) }
{
    let mut left = members;
    let mut next = cursor;
    while left > 0 {
        let number = Scalar {
            width: left.min(32) as u32,
            signed: false,
        };
        next = lay_one(number, packed, next, out)?;
        left = left.saturating_sub(32);
    }
    Ok(next)
}

// Puts so many characters behind the cursor.
#[tactic(auto, using(crate::proofs::SpotLemmas::turn_steps))]
fn lay_text(length: u32, packed: bool, cursor: u64, out: &mut Layout) -> Result<u64, Memory>
    requires { cursor ≤ 137438953440 }
    ensures spots { OnOk result (out.new ≡ out.old ++ (times length (one character packed) cursor).0) }
    ensures next { IfOk result (λ next. next ≡ (times length (one character packed) cursor).1) }
    ensures room { IfOk result (λ next. next ≤ 137438953440) }
{
    let mut next = cursor;
    for _k in 0..length {
        let character = Scalar {
            width: 8,
            signed: false,
        };
        next = lay_one(character, packed, next, out)?;
    }
    Ok(next)
}

// Puts so many elements at the bits of the place, moved up by the step from one to the next.
#[tactic(auto, using(crate::proofs::SpotLemmas::turn_steps))]
fn lay_steps(
    count: u64,
    signed: bool,
    at: Bits,
    step: u32,
    cursor: u64,
    out: &mut Layout,
) -> Result<u64, Memory>
    requires { cursor ≤ 137438953440 }
    ensures spots { OnOk result (out.new ≡ out.old ++ (steps_laid (place_tree at) step count signed cursor).0) }
    ensures next { IfOk result (λ next. next ≡ (steps_laid (place_tree at) step count signed cursor).1) }
    ensures room { IfOk result (λ next. next ≤ 137438953440) }
{
    let first = place_bit(at, cursor);
    let mut bit = first;
    for _k in 0..count {
        let start = (bit % 32) as u32;
        out.push(Bits {
            word: (bit / 32) as u32,
            start,
            end: start.saturating_add(at.end.saturating_sub(at.start)),
            signed,
        })?;
        bit = (bit + step as u64).min(LAST);
    }
    Ok(step_end(count, step, first))
}

// The first bit of the place, whose words count from the cursor.
fn place_bit(at: Bits, cursor: u64) -> u64
    requires { cursor ≤ 137438953440 }
    ensures is { result ≡ place_bit (place_tree at) cursor }
    ensures room { result ≤ 137438953440 }
{
    (cursor + 32 * at.word as u64 + at.start as u64).min(LAST)
}

// Behind the first bit of the last element.
fn step_end(count: u64, step: u32, first: u64) -> u64
    requires { first ≤ 137438953440 }
    ensures is { result ≡ step_end count step first }
    ensures room { result ≤ 137438953440 }
{
    let distance = count.saturating_sub(1) as u128 * step as u128;
    (first as u128 + distance + 1).min(LAST as u128) as u64
}

// Puts the fields that have a place behind those that are there, with words counted from the cursor.
#[tactic(auto, using(crate::proofs::SpotLemmas::placed_steps))]
fn lay_placed(fields: &[Field], cursor: u64, out: &mut Layout) -> Result<u64, Memory>
    requires { cursor ≤ 137438953440 }
    ensures spots { OnOk result (out.new ≡ out.old ++ placed_spots (field_nodes (field_trees fields.now)) cursor) }
    ensures next { IfOk result (λ next. next ≡ placed_end (field_nodes (field_trees fields.now)) cursor) }
    ensures room { IfOk result (λ next. next ≤ 137438953440) }
{
    let mut next = cursor;
    for field in fields {
        next = next.max(lay_field(field, cursor, out)?);
    }
    Ok(next)
}

// Puts the field at its place, if it has one.
#[tactic(auto, using(modes::proofs::ModeViews::mode_built))]
fn lay_field(field: &Field, cursor: u64, out: &mut Layout) -> Result<u64, Memory>
    requires { cursor ≤ 137438953440 }
    ensures spots { OnOk result (out.new ≡ out.old ++ placed_spot (field_tree field.now).mode (field_tree field.now).at cursor) }
    ensures next { IfOk result (λ next. next ≡ spot_end (field_tree field.now).at cursor) }
    ensures room { IfOk result (λ next. next ≤ 137438953440) }
{
    match place_of(field) {
        None => Ok(cursor),
        Some(at) => {
            let signed = is_signed(scalar_of(&field.mode));
            put_placed(at, signed, cursor, out)
        }
    }
}

// Puts a scalar at the place.
fn put_placed(at: Bits, signed: bool, cursor: u64, out: &mut Layout) -> Result<u64, Memory>
    requires { cursor ≤ 137438953440 }
    ensures spots { OnOk result (out.new ≡ out.old ++ (spot_at (place_tree at) signed cursor ∷ [])) }
    ensures next { IfOk result (λ next. next ≡ held (cursor + 32 * at.word + 32)) }
    ensures room { IfOk result (λ next. next ≤ 137438953440) }
{
    out.push(Bits {
        word: (cursor / 32 + at.word as u64).min(u32::MAX as u64) as u32,
        start: at.start,
        end: at.end,
        signed,
    })?;
    Ok((cursor + 32 * at.word as u64 + 32).min(LAST))
}

// Whether the scalar is held in two's complement.
fn is_signed(scalar: Option<Scalar>) -> bool
    ensures { result ≡ is_signed scalar }
{
    match scalar {
        None => false,
        Some(s) => s.signed,
    }
}

// Whether the first field has a place.
#[tactic(auto, using(crate::proofs::PlaceLemmas::first_places))]
pub(crate) fn is_placed(fields: &[Field]) -> bool
    ensures { result ≡ is_placed (field_nodes (field_trees fields.now)) }
{
    if fields.len() == 0 {
        return false;
    }
    place_of(&fields[0]).is_some()
}

// Puts the scalars of the mode behind the cursor, packed or not as the array or the structure around it says.
#[tactic(auto, using(crate::proofs::SpotLemmas::lay_steps))]
#[cycle(lay)]
pub(crate) fn lay(mode: &Mode, packed: bool, cursor: u64, out: &mut Layout) -> Result<u64, Memory>
    requires { cursor ≤ 137438953440 }
    ensures spots { OnOk result (out.new ≡ out.old ++ (laid (mode_tree mode.now) packed cursor).0) }
    ensures next { IfOk result (λ next. next ≡ (laid (mode_tree mode.now) packed cursor).1) }
    ensures room { IfOk result (λ next. next ≤ 137438953440) }
{
    match mode {
        Mode::Int
        | Mode::Bool
        | Mode::Char
        | Mode::Instance
        | Mode::Set { .. }
        | Mode::Range { .. } => lay_scalar(scalar_of(mode), packed, cursor, out),
        Mode::Powerset { member } => lay_numbers(number_of_values(member), packed, cursor, out),
        Mode::Chars { length } => lay_text(*length, packed, cursor, out),
        Mode::Array {
            index,
            element,
            how,
        } => {
            let count = number_of_values(index);
            let mut next = up(cursor);
            match how {
                Spread::Words => {
                    for _k in 0..count {
                        next = lay(element, false, next, out)?;
                    }
                }
                Spread::Packed => {
                    for _k in 0..count {
                        next = lay(element, true, next, out)?;
                    }
                }
                Spread::Step { at, step } => {
                    let signed = is_signed(scalar_of(element));
                    next = lay_steps(count, signed, *at, *step, next, out)?;
                }
            }
            Ok(up(next))
        }
        Mode::Struct { fields, packed } => {
            let first = up(cursor);
            let next = if is_placed(fields.as_slice()) {
                lay_placed(fields.as_slice(), first, out)?
            } else {
                lay_fields(fields.as_slice(), *packed, first, out)?
            };
            Ok(up(next))
        }
        Mode::Event { .. } | Mode::Buffer { .. } => Ok(cursor),
        Mode::Read { of } | Mode::Named { of, .. } => lay(of, packed, cursor, out),
    }
}

// Puts the scalars of the fields behind the cursor.
#[tactic(auto, using(crate::proofs::SpotLemmas::field_steps))]
#[cycle(lay)]
fn lay_fields(fields: &[Field], packed: bool, cursor: u64, out: &mut Layout) -> Result<u64, Memory>
    requires { cursor ≤ 137438953440 }
    ensures spots { OnOk result (out.new ≡ out.old ++ (laid_fields (field_nodes (field_trees fields.now)) packed cursor).0) }
    ensures next { IfOk result (λ next. next ≡ (laid_fields (field_nodes (field_trees fields.now)) packed cursor).1) }
    ensures room { IfOk result (λ next. next ≤ 137438953440) }
{
    let mut next = cursor;
    for field in fields {
        next = lay_one_field(field, packed, next, out)?;
    }
    Ok(next)
}

// Puts the scalars of the field behind the cursor.
#[tactic(auto, using(modes::proofs::ModeViews::mode_built))]
#[cycle(lay)]
fn lay_one_field(field: &Field, packed: bool, cursor: u64, out: &mut Layout) -> Result<u64, Memory>
    requires { cursor ≤ 137438953440 }
    ensures spots { OnOk result (out.new ≡ out.old ++ (laid (field_tree field.now).mode packed cursor).0) }
    ensures next { IfOk result (λ next. next ≡ (laid (field_tree field.now).mode packed cursor).1) }
    ensures room { IfOk result (λ next. next ≤ 137438953440) }
{
    lay(&field.mode, packed, cursor, out)
}
