// How many scalars a mode has.
ghost use Rattle.std.specs.Prelude.{◌≡◌, ◌+◌, ◌*◌, ◌/◌, min};
ghost use Rattle.modes.specs.ModeTree.{mode_tree, field_tree, field_trees, field_nodes};
ghost use Rattle.modes.specs.Bounds.{values_of};
ghost use Rattle.modes.specs.Scalars.{scalars_with, scalars_in_fields, scalars_of, leaves_of, numbers_of};

use crate::{Field, Mode, number_of_values};

// How many numbers tell the members of a powerset of this member mode, 32 members each.
pub(crate) fn number_of_numbers(member: &Mode) -> u64
    ensures { result ≡ numbers_of (values_of (mode_tree member.now)) }
{
    let members = number_of_values(member);
    if members % 32 == 0 {
        members / 32
    } else {
        members / 32 + 1
    }
}

// How many elements an array of this index mode has, or 4,097 where there are more than 4,096.
fn number_of_elements(index: &Mode) -> u32
    ensures { result ≡ min (values_of (mode_tree index.now)) 4097 }
{
    number_of_values(index).min(4097) as u32
}

/// How many scalars the mode has, or 4,097 where it has more than 4,096: a discrete value and an instance are one, a
/// powerset one for each 32 members begun, a text, an array or a structure has those of its parts.
pub fn number_of_scalars(mode: &Mode) -> u32
    ensures { result ≡ min (scalars_of (mode_tree mode.now)) 4097 }
{
    scalars_with(mode, 0)
}

/// The same, where a text of no characters counts one.
pub fn number_of_leaves(mode: &Mode) -> u32
    ensures { result ≡ min (leaves_of (mode_tree mode.now)) 4097 }
{
    scalars_with(mode, 1)
}

// How many scalars the mode has, where a text of no characters counts `none`.
#[tactic(auto, using(crate::proofs::Capped::counted))]
#[cycle(counting)]
fn scalars_with(mode: &Mode, none: u32) -> u32
    ensures { result ≡ min (scalars_with none (mode_tree mode.now)) 4097 }
{
    match mode {
        Mode::Int
        | Mode::Bool
        | Mode::Char
        | Mode::Instance
        | Mode::Set { .. }
        | Mode::Range { .. } => 1,
        Mode::Powerset { member } => number_of_numbers(member).min(4097) as u32,
        Mode::Chars { length } => none.max(*length).min(4097),
        Mode::Array { index, element, .. } => {
            (number_of_elements(index) * scalars_with(element, none)).min(4097)
        }
        Mode::Struct { fields, .. } => scalars_in_fields(fields.as_slice(), none),
        Mode::Event { .. } | Mode::Buffer { .. } => 0,
        Mode::Read { of } | Mode::Named { of, .. } => scalars_with(of, none),
    }
}

// How many scalars the fields have.
#[cycle(counting)]
fn scalars_in_fields(fields: &[Field], none: u32) -> u32
    ensures { result ≡ min (scalars_in_fields none (field_nodes (field_trees fields.now))) 4097 }
{
    let mut count = 0u32;
    for field in fields {
        count = (count + scalars_in_field(field, none)).min(4097);
    }
    count
}

// How many scalars the field has.
#[tactic(auto, using(crate::proofs::ModeViews::mode_built))]
#[cycle(counting)]
fn scalars_in_field(field: &Field, none: u32) -> u32
    ensures { result ≡ min (scalars_with none (field_tree field.now).mode) 4097 }
{
    scalars_with(&field.mode, none)
}
