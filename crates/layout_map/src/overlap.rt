// The first field that shares a bit with an earlier one.
ghost use Rattle.std.specs.Prelude.{◌≡◌, ◌+◌, ◌<◌, length, option_map};
ghost use Rattle.modes.specs.ModeTree.{mode_tree, place_tree, field_tree, field_trees, field_nodes};
ghost use Rattle.layout_map.specs.Spots.{is_placed};
ghost use Rattle.layout_map.specs.Overlap.{share, moved, ats_of, at_number, sharing_from, second_from, placed_overlap, first_overlap, fields_overlap, field_overlap};

use crate::lay::is_placed;
use crate::numbered::next_number;
use crate::place::{place_of, share_a_bit};
use chill_base::Bits;
use modes::{Field, Mode, Spread};

/// Two fields that share a bit, by their numbers.
#[derive(Clone, Copy, Debug, PartialEq, Eq)]
pub struct Shared {
    pub first: u32,
    pub second: u32,
}

// The number so many behind another; one past 4,294,967,295 is held as that.
fn moved(number: u32, by: usize) -> u32
    ensures { result ≡ moved number by }
{
    (number as u128 + by as u128).min(4294967295) as u32
}

// Whether both are places, and share a bit.
fn share(a: Option<Bits>, b: Option<Bits>) -> bool
    ensures { result ≡ share (option_map place_tree a) (option_map place_tree b) }
{
    match (a, b) {
        (Some(a), Some(b)) => share_a_bit(&a, &b),
        (None, None) | (None, Some(_)) | (Some(_), None) => false,
    }
}

// The first of the fields before this one that shares a bit with it.
#[tactic(auto, using(crate::proofs::OverlapLemmas::sharing_steps))]
fn first_sharing(fields: &[Field], second: usize) -> Option<usize>
    requires { second < length fields.now }
    ensures { result ≡ sharing_from second 0 (at_number (ats_of (field_nodes (field_trees fields.now))) second) (ats_of (field_nodes (field_trees fields.now))) }
{
    let own = place_of(&fields[second]);
    for first in 0..second {
        if share(place_of(&fields[first]), own) {
            return Some(first);
        }
    }
    None
}

// The number behind those of fields with places; or the first two that share a bit.
#[tactic(auto, using(crate::proofs::OverlapLemmas::sharing_steps))]
fn placed_overlap(fields: &[Field], number: u32) -> Result<u32, Shared>
    ensures { result ≡ placed_overlap (ats_of (field_nodes (field_trees fields.now))) number }
{
    for second in 0..fields.len() {
        if let Some(first) = first_sharing(fields, second) {
            return Err(Shared {
                first: moved(number, first),
                second: moved(number, second),
            });
        }
    }
    Ok(moved(number, fields.len()))
}

// The number behind those of the mode, the first of which is given; or the first two fields that share a bit.
#[tactic(auto, using(modes::proofs::ModeViews::mode_built))]
#[cycle(overlap)]
pub(crate) fn first_overlap(mode: &Mode, number: u32) -> Result<u32, Shared>
    ensures { result ≡ first_overlap (mode_tree mode.now) number }
{
    match mode {
        Mode::Array { element, how, .. } => match how {
            Spread::Step { .. } => first_overlap(element, next_number(number)),
            Spread::Words | Spread::Packed => first_overlap(element, number),
        },
        Mode::Struct { fields, .. } => {
            if is_placed(fields.as_slice()) {
                placed_overlap(fields.as_slice(), number)
            } else {
                fields_overlap(fields.as_slice(), number)
            }
        }
        Mode::Read { of } | Mode::Named { of, .. } => first_overlap(of, number),
        Mode::Int
        | Mode::Bool
        | Mode::Char
        | Mode::Instance
        | Mode::Set { .. }
        | Mode::Range { .. }
        | Mode::Powerset { .. }
        | Mode::Chars { .. }
        | Mode::Event { .. }
        | Mode::Buffer { .. } => Ok(number),
    }
}

// The number behind those of fields without places; or the first two in them that share a bit.
#[cycle(overlap)]
fn fields_overlap(fields: &[Field], number: u32) -> Result<u32, Shared>
    ensures { result ≡ fields_overlap (field_nodes (field_trees fields.now)) number }
{
    let mut next = number;
    for field in fields {
        next = field_overlap(field, next)?;
    }
    Ok(next)
}

// The number behind those of the field; or the first two fields in it that share a bit.
#[tactic(auto, using(modes::proofs::ModeViews::mode_built))]
#[cycle(overlap)]
fn field_overlap(field: &Field, number: u32) -> Result<u32, Shared>
    ensures { result ≡ field_overlap (field_tree field.now).mode number }
{
    first_overlap(&field.mode, next_number(number))
}
