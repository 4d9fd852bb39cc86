// The fields of a structure, and the rules on them (Z.200, chapter on modes).
ghost use Rattle.std.specs.Prelude.{◌≡◌, ◌&&◌, not, [], ◌++◌, map, option_map, IfOk, OnOk};
ghost use Rattle.diagnostics.specs.declared.rule.Rule.TheVariants as rules;
ghost use Rattle.modes.specs.ModeTree.{field_tree, field_trees};
ghost use Rattle.names_model.specs.NameRules.{tell};
ghost use Rattle.checks_model.specs.Told.{told_if, is_none_told};
ghost use Rattle.written_modes.specs.Fields.{field_view, all_placed, misplaced, told_sharing, told_one_of, told_all, trees_of_fields, tree_of_field, shares_place, has_text, HasAdded};

use crate::places::Placed;
use chill_base::{List, Memory, Text};
use chill_tree::tree::Name;
use definition_origins::{CheckRule, Told};
use layout_map::{is_possible, share_a_bit};
use modes::{Field, Mode};
use std::alloc::Global;
use std::collections::HashSet;
use std::rc::Rc;

/// A field with its mode and its place, as far as they are known.
#[derive(Drop)]
pub struct PlacedField<'a> {
    pub name: &'a Name,
    pub mode: Option<Rc<Mode>>,
    pub at: Placed,
}

/// Rules M7, M13 and M14 at the fields of a structure: whether nothing is told.
#[tactic(auto, using(crate::proofs::FieldLemmas::told_views))]
pub fn tell_fields(
    alloc: Global,
    fields: &[PlacedField<'_>],
    told: &mut Told,
) -> Result<bool, Memory>
    ensures told { OnOk result (told.new ≡ told.old ++ told_all (all_placed (map field_view fields.now)) [] (map field_view fields.now)) }
    ensures clean { IfOk result (λ clean. clean ≡ is_none_told (told_all (all_placed (map field_view fields.now)) [] (map field_view fields.now))) }
{
    let mut names: HashSet<Vec<u8>> = HashSet::new(alloc);
    let mut is_clean = true;
    let all_placed = all_placed(fields);
    for (number, field) in fields.iter().enumerate() {
        let is_twice = is_there(alloc, field.name.text.as_slice(), &mut names)?;
        let is_own = tell_field(all_placed, is_twice, &fields[..number], field, told)?;
        is_clean = both(is_clean, is_own);
    }
    Ok(is_clean)
}

// Whether nothing is told so far and nothing is told here.
fn both(so_far: bool, here: bool) -> bool
    ensures { result ≡ (so_far && here) }
{
    so_far && here
}

// Adds a text to a set: whether it is there already.
fn is_there(alloc: Global, text: &[u8], texts: &mut HashSet<Vec<u8>>) -> Result<bool, Memory>
    ensures there { IfOk result (λ there. there ≡ has_text texts.old text.now) }
    ensures added { OnOk result (HasAdded text.now texts.old texts.new) }
{
    let key = Vec::from_slice(alloc, text)?;
    let is_new = texts.insert(key)?;
    Ok(!is_new)
}

// Whether all of the fields have a place.
fn all_placed(fields: &[PlacedField<'_>]) -> bool
    ensures { result ≡ all_placed (map field_view fields.now) }
{
    for field in fields {
        if !field.at.is_written() {
            return false;
        }
    }
    true
}

// The rules at a field behind others, of which one has its name or none has: whether nothing is told.
#[tactic(auto, using(crate::proofs::Gates::gates))]
fn tell_field(
    all_placed: bool,
    is_twice: bool,
    earlier: &[PlacedField<'_>],
    field: &PlacedField<'_>,
    told: &mut Told,
) -> Result<bool, Memory>
    ensures told { OnOk result (told.new ≡ told.old ++ told_one_of all_placed is_twice (map field_view earlier.now) (field_view field.now)) }
    ensures clean { IfOk result (λ clean. clean ≡ is_none_told (told_one_of all_placed is_twice (map field_view earlier.now) (field_view field.now))) }
{
    tell_twice(is_twice, field, told)?;
    let is_apart = tell_sharing(earlier, field, told)?;
    let is_placed = tell_misplaced(all_placed, field, told)?;
    Ok(!is_twice && is_apart && is_placed)
}

// Rule M7: an earlier field of the structure has the name.
fn tell_twice(is_twice: bool, field: &PlacedField<'_>, told: &mut Told) -> Result<(), Memory>
    ensures { OnOk result (told.new ≡ told.old ++ told_if is_twice (tell (field_view field.now).name.at rules.M7 (field_view field.now).name.text)) }
{
    if !is_twice {
        return Ok(());
    }
    told.tell_name(CheckRule::M7, field.name.at, field.name.text.as_slice())
}

// Rule M13: the field shares a bit with earlier ones, of which the first is told.
fn tell_sharing(
    earlier: &[PlacedField<'_>],
    field: &PlacedField<'_>,
    told: &mut Told,
) -> Result<bool, Memory>
    ensures told { OnOk result (told.new ≡ told.old ++ told_sharing (map field_view earlier.now) (field_view field.now)) }
    ensures clean { IfOk result (λ clean. clean ≡ is_none_told (told_sharing (map field_view earlier.now) (field_view field.now))) }
{
    for other in earlier {
        if shares_place(other, field) {
            let names = (other.name.text.as_slice(), field.name.text.as_slice());
            told.tell_names(CheckRule::M13, field.name.at, names.0, names.1)?;
            return Ok(false);
        }
    }
    Ok(true)
}

// Whether two fields share a bit.
fn shares_place(other: &PlacedField<'_>, field: &PlacedField<'_>) -> bool
    ensures { result ≡ shares_place (field_view other.now) (field_view field.now) }
{
    match (other.at, field.at) {
        (Placed::At(first), Placed::At(second)) => share_a_bit(&first, &second),
        (Placed::Free | Placed::Misfit | Placed::Broken, _)
        | (_, Placed::Free | Placed::Misfit | Placed::Broken) => false,
    }
}

// Rule M14 of a field: whether its place may be.
fn tell_misplaced(
    all_placed: bool,
    field: &PlacedField<'_>,
    told: &mut Told,
) -> Result<bool, Memory>
    ensures told { OnOk result (told.new ≡ told.old ++ told_if (misplaced all_placed (field_view field.now)) (tell (field_view field.now).name.at rules.M14 (field_view field.now).name.text)) }
    ensures clean { IfOk result (λ clean. clean ≡ not (misplaced all_placed (field_view field.now))) }
{
    if is_misplaced(field, all_placed) {
        told.tell_name(CheckRule::M14, field.name.at, field.name.text.as_slice())?;
        return Ok(false);
    }
    Ok(true)
}

// Whether a field's place isn't one for its mode, or some fields of the structure have no place.
fn is_misplaced(field: &PlacedField<'_>, all_placed: bool) -> bool
    ensures { result ≡ misplaced all_placed (field_view field.now) }
{
    match field.at {
        Placed::Free => false,
        Placed::Misfit => true,
        Placed::Broken => !all_placed,
        Placed::At(bits) => match &field.mode {
            None => !all_placed,
            Some(mode) => !all_placed || !is_possible(mode, &bits),
        },
    }
}

/// The fields, where all of them have a mode and a place or none.
#[tactic(auto, using(modes::proofs::ModeViews::mode_built))]
pub fn whole_fields(
    alloc: Global,
    placed: &[PlacedField<'_>],
) -> Result<Option<List<Field>>, Memory>
    ensures { IfOk result (λ fields. option_map field_trees fields ≡ trees_of_fields (map field_view placed.now)) }
{
    let mut fields = List::new(alloc);
    for field in placed {
        let Some(field) = whole_field(alloc, field)? else {
            return Ok(None);
        };
        fields.push(field)?;
    }
    Ok(Some(fields))
}

// A field, where it has a mode and a place or none.
#[tactic(auto, using(modes::proofs::ModeViews::mode_built))]
fn whole_field(alloc: Global, placed: &PlacedField<'_>) -> Result<Option<Field>, Memory>
    ensures { IfOk result (λ field. option_map field_tree field ≡ tree_of_field (field_view placed.now)) }
{
    let Some(mode) = &placed.mode else {
        return Ok(None);
    };
    let Some(at) = placed.at.held() else {
        return Ok(None);
    };
    let mode = mode.clone()?;
    let name = Text::from_vec(Vec::from_slice(alloc, placed.name.text.as_slice())?);
    Ok(Some(Field { name, mode, at }))
}
