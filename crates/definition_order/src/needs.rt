// What each definition waits for: the first definition of its clause, and what its names stand for.
ghost use Rattle.std.specs.Prelude.{◌≡◌, ◌+◌, ◌++◌, [], ◌∷◌, IfOk, OnOk, length};
ghost use Rattle.names_laws.specs.Rising.{Rise, use_places};
ghost use Rattle.definition_origins.specs.OriginTrees.{origin_tree, origin_trees};
ghost use Rattle.definition_origins.specs.Firsts.{first_of};
ghost use Rattle.definition_order.specs.Needs.{is_asked_for, waits_for, number_waited, numbers_waited, waited, other_first, needs_at, needs_in};

use crate::needed::needed_places;
use chill_base::{List, Memory, Numbers, Pos};
use definition_origins::{Origin, number_at};
use names_model::Resolved;
use std::alloc::Global;

// Whether constants and modes look up what is known of a definition, or the language defines it.
fn is_asked_for(origin: Origin<'_>) -> bool
    ensures { result ≡ is_asked_for (origin_tree origin.entry) }
{
    match origin {
        Origin::Synonym { .. }
        | Origin::SynMode(_)
        | Origin::NewMode(_)
        | Origin::Element(_)
        | Origin::Location { .. }
        | Origin::Parameter { .. }
        | Origin::Predefined(_) => true,
        Origin::Counter(_)
        | Origin::Received { .. }
        | Origin::Procedure(_)
        | Origin::Process(_)
        | Origin::Signal(_)
        | Origin::Modulion(_) => false,
    }
}

// Whether a definition waits for what one of its names stands for.
fn waits_for(origin: Origin<'_>, used: Origin<'_>) -> bool
    ensures { result ≡ waits_for (origin_tree origin.entry) (origin_tree used.entry) }
{
    match origin {
        Origin::Received { .. } => true,
        Origin::Synonym { .. }
        | Origin::SynMode(_)
        | Origin::NewMode(_)
        | Origin::Element(_)
        | Origin::Location { .. }
        | Origin::Parameter { .. }
        | Origin::Counter(_)
        | Origin::Procedure(_)
        | Origin::Process(_)
        | Origin::Signal(_)
        | Origin::Modulion(_)
        | Origin::Predefined(_) => is_asked_for(used),
    }
}

// Puts a number behind others, where a definition waits for what stands there.
#[tactic(auto, using(crate::proofs::NameViews::tree_views))]
fn add_waited(
    origins: &[Origin<'_>],
    origin: Origin<'_>,
    number: Option<u32>,
    needs: &mut Numbers,
) -> Result<(), Memory>
    ensures { OnOk result (needs.new ≡ needs.old ++ number_waited (origin_trees origins.now) (origin_tree origin.entry) number) }
{
    let Some(number) = number else {
        return Ok(());
    };
    match origins.get(number as usize).copied() {
        None => Ok(()),
        Some(used) => {
            if waits_for(origin, used) {
                needs.push(number)
            } else {
                Ok(())
            }
        }
    }
}

// Puts what a definition waits for by the places of its names behind others.
fn add_all_waited(
    uses: &[Resolved],
    origins: &[Origin<'_>],
    origin: Origin<'_>,
    places: &[Pos],
    needs: &mut Numbers,
) -> Result<(), Memory>
    ensures { Rise (use_places uses.now) → OnOk result (needs.new ≡ needs.old ++ numbers_waited uses.now (origin_trees origins.now) (origin_tree origin.entry) places.now) }
{
    for at in places {
        add_waited(origins, origin, number_at(uses, *at), needs)?;
    }
    Ok(())
}

// The first definition of a clause.
fn first_of(origin: Origin<'_>) -> Option<u32>
    ensures { result ≡ first_of origin.entry }
{
    match origin {
        Origin::Synonym { first, .. }
        | Origin::Location { first, .. }
        | Origin::Parameter { first, .. } => Some(first),
        Origin::SynMode(_)
        | Origin::NewMode(_)
        | Origin::Element(_)
        | Origin::Counter(_)
        | Origin::Received { .. }
        | Origin::Procedure(_)
        | Origin::Process(_)
        | Origin::Signal(_)
        | Origin::Modulion(_)
        | Origin::Predefined(_) => None,
    }
}

// The first definition of a clause, where that is another.
fn other_first(number: u32, origin: Origin<'_>) -> Option<u32>
    ensures { result ≡ other_first number (first_of origin.entry) }
{
    match first_of(origin) {
        None => None,
        Some(first) => { if first == number { None } else { Some(first) } }
    }
}

fn alone(alloc: Global, number: u32) -> Result<Numbers, Memory>
    ensures { IfOk result (λ needs. needs ≡ number ∷ []) }
{
    let mut needs = List::new(alloc);
    needs.push(number)?;
    Ok(needs)
}

// What a definition waits for by its names.
#[tactic(auto, unfolding(crate::specs::Needs::waited))]
fn waited(
    alloc: Global,
    uses: &[Resolved],
    origins: &[Origin<'_>],
    origin: Origin<'_>,
) -> Result<Numbers, Memory>
    ensures { Rise (use_places uses.now) → IfOk result (λ needs. needs ≡ waited uses.now (origin_trees origins.now) (origin_tree origin.entry)) }
{
    let mut needs = List::new(alloc);
    let places = needed_places(alloc, origin)?;
    add_all_waited(uses, origins, origin, places.as_slice(), &mut needs)?;
    Ok(needs)
}

// What a definition waits for: the first of its clause, or what its names stand for.
fn needs_of_one(
    alloc: Global,
    uses: &[Resolved],
    origins: &[Origin<'_>],
    number: u32,
    origin: Origin<'_>,
) -> Result<Numbers, Memory>
    ensures { Rise (use_places uses.now) → IfOk result (λ needs. needs ≡ needs_at uses.now (origin_trees origins.now) number origin.entry) }
{
    match other_first(number, origin) {
        Some(first) => alone(alloc, first),
        None => waited(alloc, uses, origins, origin),
    }
}

/// What each definition waits for, by their numbers.
pub fn needs_of_all(
    alloc: Global,
    uses: &[Resolved],
    origins: &[Origin<'_>],
) -> Result<Vec<Numbers>, Memory>
    ensures len { IfOk result (λ needs. length needs.items ≡ length origins.now) }
    ensures list { Rise (use_places uses.now) → IfOk result (λ needs. needs.items ≡ needs_in uses.now origins.now) }
{
    let mut needs = Vec::new(alloc);
    let mut number = 0_u32;
    for origin in origins {
        needs.push(needs_of_one(alloc, uses, origins, number, *origin)?)?;
        number = number_behind(number)?;
    }
    Ok(needs)
}

// The number behind another. No `u32` is behind the last.
fn number_behind(number: u32) -> Result<u32, Memory>
    ensures { IfOk result (λ next. next ≡ number + 1) }
{
    match number.checked_add(1) {
        None => Err(Memory),
        Some(next) => Ok(next),
    }
}
