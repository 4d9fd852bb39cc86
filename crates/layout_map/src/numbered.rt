// The fields, and the arrays with STEP, of a mode in the order of the text: the first that has an impossible place, and the
// first that shares a bit with an earlier one.
ghost use Rattle.std.specs.Prelude.{◌≡◌, option_map};
ghost use Rattle.modes.specs.ModeTree.{mode_tree, place_tree, spread_tree, field_tree, field_trees, field_nodes};
ghost use Rattle.layout_map.specs.Numbered.{next_number, are_mixed, some_placed, all_placed, first_impossible, fields_impossible, field_impossible, array_impossible, is_misplaced};

use crate::place::{is_possible, is_possible_step, place_of};
use chill_base::Bits;
use modes::{Field, Mode, Spread, number_of_values};

// The next number; one past 4,294,967,295, which no text comes to, is held as that.
pub(crate) fn next_number(number: u32) -> u32
    ensures { result ≡ next_number number }
{
    number.saturating_add(1)
}

// The number behind those of the mode, the first of which is given; or the first whose place is impossible.
#[tactic(auto, using(modes::proofs::ModeViews::mode_built))]
#[cycle(impossible)]
pub(crate) fn first_impossible(mode: &Mode, number: u32) -> Result<u32, u32>
    ensures { result ≡ first_impossible (mode_tree mode.now) number }
{
    match mode {
        Mode::Array {
            index,
            element,
            how,
        } => {
            let number = array_impossible(number_of_values(index), element, *how, number)?;
            first_impossible(element, number)
        }
        Mode::Struct { fields, .. } => {
            fields_impossible(fields.as_slice(), are_mixed(fields.as_slice()), number)
        }
        Mode::Read { of } | Mode::Named { of, .. } => first_impossible(of, number),
        Mode::Int
        | Mode::Bool
        | Mode::Char
        | Mode::Instance
        | Mode::Set { .. }
        | Mode::Range { .. }
        | Mode::Powerset { .. }
        | Mode::Chars { .. }
        | Mode::Event { .. }
        | Mode::Buffer { .. } => Ok(number),
    }
}

// The number behind that of an array where STEP is written; or its number where that is impossible.
fn array_impossible(count: u64, element: &Mode, how: Spread, number: u32) -> Result<u32, u32>
    ensures { result ≡ array_impossible count (mode_tree element.now) (spread_tree how) number }
{
    match how {
        Spread::Words | Spread::Packed => Ok(number),
        Spread::Step { at, step } => {
            if is_possible_step(count, element, &at, step) {
                Ok(next_number(number))
            } else {
                Err(number)
            }
        }
    }
}

// The number behind those of the fields; or the first whose place is impossible.
#[cycle(impossible)]
fn fields_impossible(fields: &[Field], mixed: bool, number: u32) -> Result<u32, u32>
    ensures { result ≡ fields_impossible (field_nodes (field_trees fields.now)) mixed number }
{
    let mut next = number;
    for field in fields {
        next = field_impossible(field, mixed, next)?;
    }
    Ok(next)
}

// The number behind those of the field; or the first whose place is impossible.
#[tactic(auto, using(modes::proofs::ModeViews::mode_built))]
#[cycle(impossible)]
fn field_impossible(field: &Field, mixed: bool, number: u32) -> Result<u32, u32>
    ensures { result ≡ field_impossible (field_tree field.now).mode (field_tree field.now).at mixed number }
{
    if is_misplaced(&field.mode, &field.at, mixed) {
        return Err(number);
    }
    first_impossible(&field.mode, next_number(number))
}

// Whether the field has a place that is impossible.
fn is_misplaced(mode: &Mode, at: &Option<Bits>, mixed: bool) -> bool
    ensures { result ≡ is_misplaced (mode_tree mode.now) (option_map place_tree at.now) mixed }
{
    match at {
        None => false,
        Some(at) => mixed || !is_possible(mode, at),
    }
}

// Whether some fields have a place and others don't.
fn are_mixed(fields: &[Field]) -> bool
    ensures { result ≡ are_mixed (field_nodes (field_trees fields.now)) }
{
    some_placed(fields) && !all_placed(fields)
}

// Whether some field has a place.
fn some_placed(fields: &[Field]) -> bool
    ensures { result ≡ some_placed (field_nodes (field_trees fields.now)) }
{
    for field in fields {
        if place_of(field).is_some() {
            return true;
        }
    }
    false
}

// Whether each field has a place.
fn all_placed(fields: &[Field]) -> bool
    ensures { result ≡ all_placed (field_nodes (field_trees fields.now)) }
{
    for field in fields {
        if place_of(field).is_none() {
            return false;
        }
    }
    true
}
