// Which modes are similar, v-equivalent and equivalent (Z.200, chapter on modes and classes).
ghost use Rattle.std.specs.Prelude.{◌≡◌, ◌↔◌, ◌<◌, ◌-◌, IsTrue, IfSome, length, option_map, slice_get};
ghost use Rattle.modes.specs.ModeTree.{mode_tree, spread_tree, place_tree, field_tree, field_nodes, field_trees, set_of, chars, powerset, array, structure, no_fields};
ghost use Rattle.modes.specs.Similar.{Similar, SimilarField, SimilarFields, SameOutside, VEquivalent, Equivalent, plain, IsDownTo, AreDownTo, FieldIsDownTo};

use crate::{Field, Form, Mode, Spread, bounds, form_of, is_read, novelty};
use chill_base::{Bits, Item};

/// Whether the modes are similar: with names, READ and ranges looked through both are INT, or both BOOL, CHAR or
/// INSTANCE, or the same SET; powersets of equivalent members; texts of one length; arrays with similar index modes of
/// the same bounds, equivalent elements and one layout; or structures with the same names in order, equivalent fields and
/// one layout. An event or a buffer is similar to nothing.
///
/// What is similar up to an element or the last field is left to a call in the place of this one, which needs no stack of its own
/// where the compiler makes a jump of it. Else it calls itself for fields before the last one alone: in a mode that a text can give
/// to a location, of at most 4,096 scalars, no more than so many of these stand in one another.
#[tactic(auto, using(crate::proofs::SimilarLemmas::similar_steps))]
#[cycle(similar)]
pub fn similar(a: &Mode, b: &Mode) -> bool
    ensures { IsTrue result ↔ Similar (mode_tree a.now) (mode_tree b.now) }
{
    match a {
        Mode::Range { parent, .. } => similar(parent, b),
        Mode::Read { of } | Mode::Named { of, .. } => similar(of, b),
        Mode::Powerset { member } => match member_beside(member, b) {
            Some(other) => similar(member, other),
            None => false,
        },
        Mode::Array {
            index,
            element,
            how,
        } => match element_beside(index, element, *how, b) {
            Some(other) => similar(element, other),
            None => false,
        },
        Mode::Struct { fields, packed } => match fields.as_slice().last() {
            Some(field) => match last_beside(fields.as_slice(), *packed, b) {
                Some(other) => similar(&field.mode, other),
                None => false,
            },
            None => is_empty(*packed, b),
        },
        Mode::Int
        | Mode::Bool
        | Mode::Char
        | Mode::Instance
        | Mode::Set { .. }
        | Mode::Chars { .. }
        | Mode::Event { .. }
        | Mode::Buffer { .. } => is_plain(a, b),
    }
}

// Whether the modes are similar, of which the first has no part.
#[tactic(auto, using(crate::proofs::SimilarLemmas::similar_steps))]
fn is_plain(a: &Mode, b: &Mode) -> bool
    ensures { IsTrue result ↔ Similar (plain (mode_tree a.now)) (mode_tree b.now) }
{
    match a {
        Mode::Int => matches!(form_of(b), Form::Int),
        Mode::Bool => matches!(form_of(b), Form::Bool),
        Mode::Char => matches!(form_of(b), Form::Char),
        Mode::Instance => matches!(form_of(b), Form::Instance),
        Mode::Set { definition, count } => is_set(*definition, *count, b),
        Mode::Chars { length } => is_text(*length, b),
        Mode::Range { .. }
        | Mode::Powerset { .. }
        | Mode::Array { .. }
        | Mode::Struct { .. }
        | Mode::Event { .. }
        | Mode::Buffer { .. }
        | Mode::Read { .. }
        | Mode::Named { .. } => false,
    }
}

// The mode of the other's members, where it is a powerset and they may be equivalent.
#[tactic(auto, using(crate::proofs::SimilarLemmas::similar_steps))]
fn member_beside<'a>(member: &Mode, other: &'a Mode) -> Option<&'a Mode>
    ensures { IsDownTo (powerset (mode_tree member.now)) (mode_tree other.now) (mode_tree member.now) (option_map (λ m. mode_tree m.now) result) }
{
    match form_of(other) {
        Form::Powerset(beside) if same_outside(member, beside) => Some(beside),
        _ => None,
    }
}

// The mode of the other's elements, where it is an array of the same indices and layout and they may be equivalent.
#[tactic(auto, using(crate::proofs::SimilarLemmas::similar_steps))]
#[cycle(similar)]
fn element_beside<'a>(
    index: &Mode,
    element: &Mode,
    how: Spread,
    other: &'a Mode,
) -> Option<&'a Mode>
    ensures { IsDownTo (array (mode_tree index.now) (mode_tree element.now) (spread_tree how)) (mode_tree other.now) (mode_tree element.now) (option_map (λ m. mode_tree m.now) result) }
{
    match form_of(other) {
        Form::Array {
            index: other_index,
            element: beside,
            how: other_how,
        } if same_spread(how, other_how)
            && similar(index, other_index)
            && bounds(index) == bounds(other_index)
            && same_outside(element, beside) => Some(beside),
        _ => None,
    }
}

// Whether the other is a structure without fields as well, and of the same layout.
#[tactic(auto, using(crate::proofs::SimilarLemmas::similar_steps))]
fn is_empty(packed: bool, other: &Mode) -> bool
    ensures { IsTrue result ↔ Similar (structure no_fields packed) (mode_tree other.now) }
{
    match form_of(other) {
        Form::Struct {
            fields,
            packed: other_packed,
        } => packed == other_packed && is_none(fields.as_slice()),
        _ => false,
    }
}

// Whether there is no field.
#[tactic(auto, using(crate::proofs::SimilarLemmas::no_others))]
fn is_none(fields: &[Field]) -> bool
    ensures { IsTrue result ↔ SimilarFields no_fields (field_nodes (field_trees fields.now)) }
{
    fields.is_empty()
}

// The mode of the other's last field, where it is a structure of the same fields and layout but that the modes of the last
// ones may be equivalent.
#[tactic(auto, using(crate::proofs::SimilarLemmas::similar_steps))]
#[cycle(similar)]
fn last_beside<'a>(fields: &[Field], packed: bool, other: &'a Mode) -> Option<&'a Mode>
    requires { 0 < length fields.now }
    ensures { IfSome (slice_get fields.now (length fields.now - 1)) (λ last. IsDownTo (structure (field_nodes (field_trees fields.now)) packed) (mode_tree other.now) (field_tree last).mode (option_map (λ m. mode_tree m.now) result)) }
{
    match form_of(other) {
        Form::Struct {
            fields: others,
            packed: other_packed,
        } if packed == other_packed => last_field_beside(fields, others.as_slice()),
        _ => None,
    }
}

// Whether the mode is this SET, looked through its names.
#[tactic(auto, using(crate::proofs::SimilarLemmas::similar_steps))]
fn is_set(definition: u32, count: u32, mode: &Mode) -> bool
    ensures { IsTrue result ↔ Similar (set_of definition count) (mode_tree mode.now) }
{
    match form_of(mode) {
        Form::Set {
            definition: d,
            count: n,
        } => definition == d && count == n,
        _ => false,
    }
}

// Whether the mode is texts of this length, looked through its names.
#[tactic(auto, using(crate::proofs::SimilarLemmas::similar_steps))]
fn is_text(length: u32, mode: &Mode) -> bool
    ensures { IsTrue result ↔ Similar (chars length) (mode_tree mode.now) }
{
    match form_of(mode) {
        Form::Chars(n) => length == n,
        _ => false,
    }
}

// The mode of the last of the others, where the fields are similar one by one but that the modes of the last ones may be
// equivalent.
#[tactic(auto, using(crate::proofs::SimilarLemmas::field_steps))]
#[cycle(similar)]
fn last_field_beside<'a>(fields: &[Field], others: &'a [Field]) -> Option<&'a Mode>
    requires { 0 < length fields.now }
    ensures { IfSome (slice_get fields.now (length fields.now - 1)) (λ last. AreDownTo (field_nodes (field_trees fields.now)) (field_nodes (field_trees others.now)) (field_tree last).mode (option_map (λ m. mode_tree m.now) result)) }
{
    if fields.len() != others.len() {
        return None;
    }
    let last = fields.len() - 1;
    for i in 0..last {
        if !similar_field(&fields[i], &others[i]) {
            return None;
        }
    }
    beside_in(&fields[last], &others[last])
}

// Whether the fields have one name, one place and equivalent modes.
#[tactic(auto, using(crate::proofs::ModeViews::mode_built))]
#[cycle(similar)]
fn similar_field(field: &Field, other: &Field) -> bool
    ensures { IsTrue result ↔ SimilarField (field_tree field.now) (field_tree other.now) }
{
    match beside_in(field, other) {
        Some(beside) => similar(&field.mode, beside),
        None => false,
    }
}

// The mode of the other field, where the names and places are the same and the modes may be equivalent.
#[tactic(auto, using(crate::proofs::ModeViews::mode_built))]
fn beside_in<'a>(field: &Field, other: &'a Field) -> Option<&'a Mode>
    ensures { FieldIsDownTo (field_tree field.now) (field_tree other.now) (option_map (λ m. mode_tree m.now) result) }
{
    if field.name.equals(&other.name)
        && same_place(&field.at, &other.at)
        && same_outside(&field.mode, &other.mode)
    {
        Some(&other.mode)
    } else {
        None
    }
}

// Whether the places are the same.
fn same_place(at: &Option<Bits>, other: &Option<Bits>) -> bool
    ensures { IsTrue result ↔ (option_map place_tree at.now ≡ option_map place_tree other.now) }
{
    match (at, other) {
        (None, None) => true,
        (Some(a), Some(b)) => same_bits(*a, *b),
        (None, Some(_)) | (Some(_), None) => false,
    }
}

// Whether the bits are the same; places that are written have no sign.
fn same_bits(a: Bits, b: Bits) -> bool
    ensures { IsTrue result ↔ (place_tree a ≡ place_tree b) }
{
    a.word == b.word && a.start == b.start && a.end == b.end
}

// Whether the elements lie in the same way.
fn same_spread(how: Spread, other: Spread) -> bool
    ensures { IsTrue result ↔ (spread_tree how ≡ spread_tree other) }
{
    match (how, other) {
        (Spread::Words, Spread::Words) | (Spread::Packed, Spread::Packed) => true,
        (Spread::Step { at, step }, Spread::Step { at: a, step: s }) => {
            same_bits(at, a) && step == s
        }
        (Spread::Words, _) | (Spread::Packed, _) | (Spread::Step { .. }, _) => false,
    }
}

// Whether the modes have one novelty, are both READ or both not, and have the same bounds.
fn same_outside(a: &Mode, b: &Mode) -> bool
    ensures { IsTrue result ↔ SameOutside (mode_tree a.now) (mode_tree b.now) }
{
    novelty(a) == novelty(b) && is_read(a) == is_read(b) && bounds(a) == bounds(b)
}

/// Whether the modes are similar and of one novelty.
pub fn v_equivalent(a: &Mode, b: &Mode) -> bool
    ensures { IsTrue result ↔ VEquivalent (mode_tree a.now) (mode_tree b.now) }
{
    similar(a, b) && novelty(a) == novelty(b)
}

/// Whether the modes are v-equivalent, both or neither READ, and discrete ones of the same bounds.
pub fn equivalent(a: &Mode, b: &Mode) -> bool
    ensures { IsTrue result ↔ Equivalent (mode_tree a.now) (mode_tree b.now) }
{
    similar(a, b) && same_outside(a, b)
}
