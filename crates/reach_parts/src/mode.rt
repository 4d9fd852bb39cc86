// The names in modes: those that are used, and the elements that SETs define.
ghost use Rattle.std.specs.Prelude.{◌≡◌, ◌++◌, OnOk, map, option_map};
ghost use Rattle.chill_tree.specs.ModeTree.{discrete_tree, index_tree, place_tree, spread_tree, base_tree, field_tree, field_trees, field_nodes, mode_tree};
ghost use Rattle.names_model.specs.declared.part.Mention.TheVariants as mentions;
ghost use Rattle.names_model.specs.Identifiers.{identifier};
ghost use Rattle.names_model.specs.ModeMentions.{mentions_of_discrete, mentions_of_index, mentions_of_place, mentions_of_some_place, mentions_of_spread, mentions_of_base, mentions_of_fields, mentions_of_mode, mentions_of_some_mode};

use crate::expr::{add_expr, add_exprs, add_some_expr, add_used};
use chill_base::{List, Memory};
use chill_tree::tree::{Base, Discrete, Field, Index, Mode, Name, Place, Spread};
use names_model::{Identifier, Mention, Need};
use std::alloc::Global;

// Adds the elements that a SET defines.
fn add_elements(alloc: Global, names: &[Name], out: &mut List<Mention>) -> Result<(), Memory>
    ensures { OnOk result (out.new ≡ out.old ++ map (λ n. mentions.Element (identifier n)) names.now) }
{
    for name in names {
        out.push(Mention::Element(Identifier::of(alloc, name)?))?;
    }
    Ok(())
}

// Adds the names in a discrete mode.
fn add_discrete(alloc: Global, mode: &Discrete, out: &mut List<Mention>) -> Result<(), Memory>
    ensures { OnOk result (out.new ≡ out.old ++ mentions_of_discrete (discrete_tree mode.now)) }
{
    match mode {
        Discrete::Named(name) => add_used(alloc, Need::Mode, name, out),
        Discrete::Range { parent, low, high } => {
            add_used(alloc, Need::Mode, parent, out)?;
            add_exprs(alloc, low, high, out)
        }
        Discrete::Set { elements, .. } => add_elements(alloc, elements.as_slice(), out),
    }
}

// Adds the names in the indices of an array.
fn add_index(alloc: Global, index: &Index, out: &mut List<Mention>) -> Result<(), Memory>
    ensures { OnOk result (out.new ≡ out.old ++ mentions_of_index (index_tree index.now)) }
{
    match index {
        Index::Named(name) => add_used(alloc, Need::Mode, name, out),
        Index::Range { low, high } => add_exprs(alloc, low, high, out),
    }
}

// Adds the names in a place.
fn add_place(alloc: Global, place: &Place, out: &mut List<Mention>) -> Result<(), Memory>
    ensures { OnOk result (out.new ≡ out.old ++ mentions_of_place (place_tree place.now)) }
{
    add_expr(alloc, &place.word, out)?;
    add_exprs(alloc, &place.start, &place.bound, out)
}

// Adds the names in a place that may be written.
fn add_some_place(
    alloc: Global,
    place: &Option<Place>,
    out: &mut List<Mention>,
) -> Result<(), Memory>
    ensures { OnOk result (out.new ≡ out.old ++ mentions_of_some_place (option_map place_tree place.now)) }
{
    match place {
        None => Ok(()),
        Some(place) => add_place(alloc, place, out),
    }
}

// Adds the names in what is written of how the elements of an array lie.
fn add_spread(alloc: Global, spread: &Option<Spread>, out: &mut List<Mention>) -> Result<(), Memory>
    ensures { OnOk result (out.new ≡ out.old ++ mentions_of_spread (option_map spread_tree spread.now)) }
{
    match spread {
        None | Some(Spread::Packing(_)) => Ok(()),
        Some(Spread::Step(step)) => {
            add_place(alloc, &step.place, out)?;
            add_expr(alloc, &step.distance, out)
        }
    }
}

// Adds the names in a mode of values.
#[tactic(auto, using(crate::proofs::TreeViews::mode_views))]
#[cycle(base)]
fn add_base(alloc: Global, mode: &Base, out: &mut List<Mention>) -> Result<(), Memory>
    ensures { OnOk result (out.new ≡ out.old ++ mentions_of_base (base_tree mode.now)) }
{
    match mode {
        Base::Discrete(own) => add_discrete(alloc, own, out),
        Base::Powerset { member, .. } => add_discrete(alloc, member, out),
        Base::Chars { length, .. } => add_expr(alloc, length, out),
        Base::Struct { fields, .. } => add_fields(alloc, fields.as_slice(), out),
        Base::Array {
            index,
            element,
            spread,
            ..
        } => {
            add_index(alloc, index, out)?;
            add_base(alloc, element, out)?;
            add_spread(alloc, spread, out)
        }
    }
}

// Adds the names in the fields of a structure; their own names aren't subject to visibility.
#[cycle(base)]
fn add_fields(alloc: Global, fields: &[Field], out: &mut List<Mention>) -> Result<(), Memory>
    ensures { OnOk result (out.new ≡ out.old ++ mentions_of_fields (field_nodes (field_trees fields.now))) }
{
    for field in fields {
        add_field(alloc, field, out)?;
    }
    Ok(())
}

// Adds the names in the mode and the place of fields.
#[tactic(auto, using(crate::proofs::TreeViews::mode_views))]
#[cycle(base)]
fn add_field(alloc: Global, field: &Field, out: &mut List<Mention>) -> Result<(), Memory>
    ensures { OnOk result (out.new ≡ out.old ++ (mentions_of_base (field_tree field.now).base ++ mentions_of_some_place (field_tree field.now).place)) }
{
    add_base(alloc, &field.base, out)?;
    add_some_place(alloc, &field.place, out)
}

/// Adds the names in a mode.
pub(crate) fn add_mode(alloc: Global, mode: &Mode, out: &mut List<Mention>) -> Result<(), Memory>
    ensures { OnOk result (out.new ≡ out.old ++ mentions_of_mode (mode_tree mode.now)) }
{
    match mode {
        Mode::Base(base) => add_base(alloc, base, out),
        Mode::Read { base, .. } => add_base(alloc, base, out),
        Mode::Event { length, .. } => add_some_expr(alloc, length, out),
        Mode::Buffer {
            length,
            element,
            ..
        } => {
            add_some_expr(alloc, length, out)?;
            add_base(alloc, element, out)
        }
    }
}

/// Adds the names in a mode that may be written.
pub(crate) fn add_some_mode(
    alloc: Global,
    mode: &Option<Mode>,
    out: &mut List<Mention>,
) -> Result<(), Memory>
    ensures { OnOk result (out.new ≡ out.old ++ mentions_of_some_mode (option_map mode_tree mode.now)) }
{
    match mode {
        None => Ok(()),
        Some(mode) => add_mode(alloc, mode, out),
    }
}
