// The modes that a text can give to a location.
ghost use Rattle.std.specs.Prelude.{◌≡◌, ◌↔◌, IsTrue};
ghost use Rattle.modes.specs.ModeTree.{mode_tree, field_tree, field_trees, field_nodes};
ghost use Rattle.modes.specs.Bounds.{bounds_of, values_of};
ghost use Rattle.modes.specs.Language.{IsOfLanguage, parts_fit, fields_fit, is_filled, lie_in, is_from_to};

use crate::{Field, Mode, bounds, number_of_leaves, number_of_values};

/// Whether a text can give the mode to a location: bounds are in order and in their parent, members and indices are
/// discrete, no event or buffer is in it, a structure has a field, and the numbers are within their limits: 1 to 4,096
/// elements of a SET and of an array, 1 to 32 members of a powerset, at most 256 characters, and at most 4,096 scalars, a
/// text of no characters counting one.
pub fn is_of_language(mode: &Mode) -> bool
    ensures { IsTrue result ↔ IsOfLanguage (mode_tree mode.now) }
{
    parts_fit(mode) && number_of_leaves(mode) <= 4096
}

// Whether the numbers and the kinds of the parts are those that a text can give.
#[tactic(auto, using(crate::proofs::ModeViews::mode_built))]
#[cycle(fitting)]
fn parts_fit(mode: &Mode) -> bool
    ensures { result ≡ parts_fit (mode_tree mode.now) }
{
    match mode {
        Mode::Int | Mode::Bool | Mode::Char | Mode::Instance => true,
        Mode::Set { count, .. } => *count >= 1 && *count <= 4096,
        Mode::Range { parent, low, high } => { parts_fit(parent) && lie_in(*low, *high, parent) }
        Mode::Powerset { member } => parts_fit(member) && has_few_members(member),
        Mode::Chars { length } => *length <= 256,
        Mode::Array { index, element, .. } => {
            parts_fit(index) && (has_few_values(index) && parts_fit(element))
        }
        Mode::Struct { fields, .. } => {
            is_filled(fields.as_slice()) && fields_fit(fields.as_slice())
        }
        Mode::Event { .. } | Mode::Buffer { .. } => false,
        Mode::Read { of } | Mode::Named { of, .. } => parts_fit(of),
    }
}

// Whether the mode is discrete and has 1 to 4,096 values.
fn has_few_values(mode: &Mode) -> bool
    ensures { result ≡ is_from_to 1 4096 (values_of (mode_tree mode.now)) }
{
    let values = number_of_values(mode);
    values >= 1 && values <= 4096
}

// Whether the mode is discrete and has 1 to 32 values.
fn has_few_members(mode: &Mode) -> bool
    ensures { result ≡ is_from_to 1 32 (values_of (mode_tree mode.now)) }
{
    let values = number_of_values(mode);
    values >= 1 && values <= 32
}

// Whether the bounds are in order and in those of their parent.
fn lie_in(low: i64, high: i64, parent: &Mode) -> bool
    ensures { result ≡ lie_in low high (bounds_of (mode_tree parent.now)) }
{
    match bounds(parent) {
        None => false,
        Some(b) => low <= high && (b.low <= low && high <= b.high),
    }
}

// Whether there is a field.
#[tactic(auto, using(crate::proofs::FieldLemmas::filled))]
fn is_filled(fields: &[Field]) -> bool
    ensures { result ≡ is_filled (field_nodes (field_trees fields.now)) }
{
    fields.len() > 0
}

// Whether each field fits.
#[cycle(fitting)]
fn fields_fit(fields: &[Field]) -> bool
    ensures { result ≡ fields_fit (field_nodes (field_trees fields.now)) }
{
    for field in fields {
        if !field_fits(field) {
            return false;
        }
    }
    true
}

// Whether the mode of the field fits.
#[tactic(auto, using(crate::proofs::ModeViews::mode_built))]
#[cycle(fitting)]
fn field_fits(field: &Field) -> bool
    ensures { result ≡ parts_fit (field_tree field.now).mode }
{
    parts_fit(&field.mode)
}
