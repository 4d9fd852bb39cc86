// What is defined directly in a reach: entries of one definition each.
ghost use Rattle.std.specs.Prelude.{◌≡◌, ◌++◌, ◌∷◌, [], suc, ◌+◌, ◌<◌, ◌^◌, length, OnOk};
ghost use Rattle.names_model.specs.Parts.{part_tree};
ghost use Rattle.names_model.specs.Sizes.{clause_size, clauses_size, elements_in, head_size, size_of};
ghost use Rattle.names_model.specs.Entries.{entry, named_entries, numbers_of, own_entries, own_numbers, param_elements, param_names};
ghost use Rattle.reach_tables.specs.Offsets.{Fits};
ghost use Rattle.names_model.specs.Parts.{nodes_of};
ghost use Rattle.reach_tables.specs.Places.{singles};

use crate::place::Place;
use chill_base::{Memory, Numbers, Pos};
use names_model::{
    Clause, Identifier, Mention, Part, clause_size, clauses_size, names_size, size_of,
};
use std::alloc::Global;

/// Enters one definition.
fn enter(at: Pos, number: u32, out: &mut Vec<Place>) -> Result<(), Memory>
    ensures { OnOk result (singles out.new.items ≡ singles out.old.items ++ entry at (number ∷ []) ∷ []) }
{
    out.push(Place { at, number })?;
    Ok(())
}

/// Enters names, the first of which has the number `from`.
pub fn enter_names(from: u32, names: &[Identifier], out: &mut Vec<Place>) -> Result<(), Memory>
    ensures { from + length names.now < 2 ^ 32 → OnOk result (singles out.new.items ≡ singles out.old.items ++ named_entries from names.now) }
{
    let mut next = from;
    for name in names {
        enter(name.at, next, out)?;
        next = next.saturating_add(1);
    }
    Ok(())
}

/// Enters the elements that the SETs among mentions define.
pub fn enter_elements(from: u32, text: &[Mention], out: &mut Vec<Place>) -> Result<(), Memory>
    ensures { from + length (elements_in text.now) < 2 ^ 32 → OnOk result (singles out.new.items ≡ singles out.old.items ++ named_entries from (elements_in text.now)) }
{
    let mut next = from;
    for mention in text {
        if let Mention::Element(name) = mention {
            enter(name.at, next, out)?;
            next = next.saturating_add(1);
        }
    }
    Ok(())
}

/// Enters parameters, which stand in the body.
pub fn enter_params(from: u32, params: &[Clause], out: &mut Vec<Place>) -> Result<(), Memory>
    ensures { from + clauses_size params.now < 2 ^ 32 → OnOk result (singles out.new.items ≡ singles out.old.items ++ param_names from params.now) }
{
    let mut next = from;
    for clause in params {
        enter_names(next, clause.names.as_slice(), out)?;
        next = next.saturating_add(clause_size(clause));
    }
    Ok(())
}

/// Enters the elements in the modes of parameters, which stand around the body.
fn enter_param_elements(from: u32, params: &[Clause], out: &mut Vec<Place>) -> Result<(), Memory>
    ensures { from + clauses_size params.now < 2 ^ 32 → OnOk result (singles out.new.items ≡ singles out.old.items ++ param_elements from params.now) }
{
    let mut next = from;
    for clause in params {
        let first = next.saturating_add(names_size(clause.names.as_slice()));
        enter_elements(first, clause.text.as_slice(), out)?;
        next = next.saturating_add(clause_size(clause));
    }
    Ok(())
}

/// Enters the names of a clause and its elements.
fn enter_clause(from: u32, clause: &Clause, out: &mut Vec<Place>) -> Result<(), Memory>
    ensures { from + clause_size clause.now < 2 ^ 32 → OnOk result (singles out.new.items ≡ singles out.old.items ++ (named_entries from clause.now.names ++ named_entries (from + length clause.now.names) (elements_in clause.now.text))) }
{
    let first = from.saturating_add(names_size(clause.names.as_slice()));
    enter_names(from, clause.names.as_slice(), out)?;
    enter_elements(first, clause.text.as_slice(), out)?;
    Ok(())
}

/// Enters a procedure or process, and the elements in the modes of its head.
fn enter_routine(
    from: u32,
    name: &Identifier,
    params: &[Clause],
    returned: &[Mention],
    out: &mut Vec<Place>,
) -> Result<(), Memory>
    ensures { from + head_size params.now returned.now < 2 ^ 32 → OnOk result (singles out.new.items ≡ singles out.old.items ++ (entry name.now.at (from ∷ []) ∷ param_elements (suc from) params.now ++ named_entries (suc from + clauses_size params.now) (elements_in returned.now))) }
{
    let first = from.saturating_add(1);
    let behind = first.saturating_add(clauses_size(params));
    enter(name.at, from, out)?;
    enter_param_elements(first, params, out)?;
    enter_elements(behind, returned, out)?;
    Ok(())
}

/// Enters what a part defines directly in its reach.
#[tactic(auto, using(names_model::proofs::PartViews::part_built, crate::proofs::Appends::nothing_more))]
pub fn own_entries(from: u32, part: &Part, out: &mut Vec<Place>) -> Result<(), Memory>
    ensures { from + size_of (part_tree part.now) < 2 ^ 32 → OnOk result (singles out.new.items ≡ singles out.old.items ++ own_entries from (part_tree part.now)) }
{
    match part {
        Part::Define(clause) => enter_clause(from, clause, out),
        Part::Modulion { name, .. } => enter(name.at, from, out),
        Part::Routine {
            name,
            params,
            result: returned,
            ..
        } => enter_routine(from, name, params.as_slice(), returned.as_slice(), out),
        Part::Mention(_)
        | Part::Seize(_)
        | Part::SeizeAll(_)
        | Part::Grant(_)
        | Part::GrantAll(_)
        | Part::Stray(_)
        | Part::Block { .. } => Ok(()),
    }
}

/// Puts numbers behind others.
pub fn push_all(numbers: &[u32], out: &mut Numbers) -> Result<(), Memory>
    ensures { OnOk result (out.new ≡ out.old ++ numbers.now) }
{
    for number in numbers {
        out.push(*number)?;
    }
    Ok(())
}

// The numbers of places.
fn push_places(places: &[Place], out: &mut Numbers) -> Result<(), Memory>
    ensures { OnOk result (out.new ≡ out.old ++ numbers_of (singles places.now)) }
{
    for place in places {
        out.push(place.number)?;
    }
    Ok(())
}

/// The numbers of what a part defines directly in its reach.
pub fn push_own(alloc: Global, from: u32, part: &Part, out: &mut Numbers) -> Result<(), Memory>
    ensures { from + size_of (part_tree part.now) < 2 ^ 32 → OnOk result (out.new ≡ out.old ++ numbers_of (own_entries from (part_tree part.now))) }
{
    let mut places = Vec::new(alloc);
    own_entries(from, part, &mut places)?;
    push_places(places.as_slice(), out)?;
    Ok(())
}

/// The numbers of what parts define directly in their reach.
pub fn own_numbers(
    alloc: Global,
    from: u32,
    parts: &[Part],
    out: &mut Numbers,
) -> Result<(), Memory>
    ensures { Fits from (nodes_of parts.now) → OnOk result (out.new ≡ out.old ++ own_numbers from (nodes_of parts.now)) }
{
    let mut next = from;
    for part in parts {
        push_own(alloc, next, part, out)?;
        next = next.saturating_add(size_of(part));
    }
    Ok(())
}
