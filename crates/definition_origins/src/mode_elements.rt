// The elements of the SETs in modes.
ghost use Rattle.std.specs.Prelude.{◌≡◌, ◌++◌, None, OnOk, map, flat_map, option_map};
ghost use Rattle.chill_tree.specs.ModeTree.{base_tree, discrete_tree, field_tree, field_trees, field_nodes, mode_tree};
ghost use Rattle.checks_model.specs.Origins.{set_in_discrete, elements, elements_of, elements_of_some};
ghost use Rattle.definition_origins.specs.OriginTrees.{owner_tree, origin_trees};
ghost use Rattle.definition_origins.specs.Walks.{elements_in_base, elements_in_fields, elements_of_owned};

use crate::origin::{Element, Origin, Owner};
use crate::origin_list::Origins;
use chill_base::Memory;
use chill_tree::tree::{Base, Discrete, Field, Mode, Name};

// The elements of a SET.
fn add_elements<'a>(
    names: &'a [Name],
    owner: Option<Owner<'a>>,
    found: &mut Origins<'a>,
) -> Result<(), Memory>
    ensures { OnOk result (origin_trees found.new ≡ origin_trees found.old ++ elements (owner_tree owner.entry) names.now) }
{
    for part in 0..names.len() {
        found.push(Origin::Element(Element { names, part, owner }))?;
    }
    Ok(())
}

// The elements of the SET that a discrete mode is.
fn add_discrete<'a>(
    own: &'a Discrete,
    owner: Option<Owner<'a>>,
    found: &mut Origins<'a>,
) -> Result<(), Memory>
    ensures { OnOk result (origin_trees found.new ≡ origin_trees found.old ++ flat_map (elements (owner_tree owner.entry)) (set_in_discrete (discrete_tree own.now))) }
{
    match own {
        Discrete::Named(_) | Discrete::Range { .. } => Ok(()),
        Discrete::Set { elements, .. } => add_elements(elements.as_slice(), owner, found),
    }
}

// The elements of the SETs in a mode of values, which is the whole mode of a name or of none.
#[tactic(auto, using(crate::proofs::Views::mode_views))]
#[cycle(base)]
fn add_base<'a>(
    base: &'a Base,
    owner: Option<Owner<'a>>,
    found: &mut Origins<'a>,
) -> Result<(), Memory>
    ensures { OnOk result (origin_trees found.new ≡ origin_trees found.old ++ elements_in_base (owner_tree owner.entry) (base_tree base.now)) }
{
    match base {
        Base::Discrete(own) => add_discrete(own, owner, found),
        Base::Powerset { member, .. } => add_discrete(member, None, found),
        Base::Chars { .. } => Ok(()),
        Base::Struct { fields, .. } => add_fields(fields.as_slice(), found),
        Base::Array { element, .. } => add_base(element, None, found),
    }
}

// The elements of the SETs in the mode of a field.
#[tactic(auto, using(crate::proofs::Views::mode_views))]
#[cycle(base)]
fn add_field<'a>(field: &'a Field, found: &mut Origins<'a>) -> Result<(), Memory>
    ensures { OnOk result (origin_trees found.new ≡ origin_trees found.old ++ elements_in_base None (field_tree field.now).base) }
{
    add_base(&field.base, None, found)
}

// The elements of the SETs in the modes of fields.
#[cycle(base)]
fn add_fields<'a>(fields: &'a [Field], found: &mut Origins<'a>) -> Result<(), Memory>
    ensures { OnOk result (origin_trees found.new ≡ origin_trees found.old ++ elements_in_fields (field_nodes (field_trees fields.now))) }
{
    for field in fields {
        add_field(field, found)?;
    }
    Ok(())
}

/// The elements of the SETs in a mode, which is the whole mode of a name or of none.
pub fn add_mode<'a>(
    mode: &'a Mode,
    owner: Option<Owner<'a>>,
    found: &mut Origins<'a>,
) -> Result<(), Memory>
    ensures { OnOk result (origin_trees found.new ≡ origin_trees found.old ++ elements_of_owned (owner_tree owner.entry) (mode_tree mode.now)) }
{
    match mode {
        Mode::Base(base) => add_base(base, owner, found),
        Mode::Read { base, .. } => add_base(base, owner, found),
        Mode::Event { .. } => Ok(()),
        Mode::Buffer { element, .. } => add_base(element, None, found),
    }
}

/// The elements in a mode that may be written.
#[tactic(auto, using(crate::proofs::Views::owned_views))]
pub fn add_some_mode<'a>(mode: &'a Option<Mode>, found: &mut Origins<'a>) -> Result<(), Memory>
    ensures { OnOk result (origin_trees found.new ≡ origin_trees found.old ++ elements_of_some (option_map mode_tree mode.now)) }
{
    match mode {
        None => Ok(()),
        Some(mode) => add_mode(mode, None, found),
    }
}

// The elements of the SETs in a mode, which is the whole mode of no name.
#[tactic(auto, using(crate::proofs::Views::owned_views))]
fn add_unnamed<'a>(mode: &'a Mode, found: &mut Origins<'a>) -> Result<(), Memory>
    ensures { OnOk result (origin_trees found.new ≡ origin_trees found.old ++ elements_of None (mode_tree mode.now)) }
{
    add_mode(mode, None, found)
}

/// The elements in modes.
pub fn add_modes<'a>(modes: &'a [Mode], found: &mut Origins<'a>) -> Result<(), Memory>
    ensures { OnOk result (origin_trees found.new ≡ origin_trees found.old ++ flat_map (elements_of None) (map mode_tree modes.now)) }
{
    for mode in modes {
        add_unnamed(mode, found)?;
    }
    Ok(())
}
