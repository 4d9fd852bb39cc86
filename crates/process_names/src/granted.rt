// Rule P4: a region grants its location by name.
ghost use Rattle.std.specs.Prelude.{◌≡◌, ◌++◌, ◌||◌, ℕ, List, IfOk, OnOk, map, flat_map};
ghost use Rattle.std.specs.List.{list_any};
ghost use Rattle.std.specs.Str.{bytes_eq};
ghost use Rattle.chill_tree.specs.LocalTree.{declaration_tree, local_tree};
ghost use Rattle.chill_tree.specs.ItemTree.{local_item, item_tree, item_trees, item_nodes, items_in};
ghost use Rattle.process_names.specs.Rules.{has_name, declares_text, has, told_had, told_passed, told_grant_had, told_grant, told_grants};

use crate::rules::is_region;
use chill_base::Memory;
use chill_tree::tree::{Declaration, Item, Local, ModulionKind, Name, Passed};
use definition_origins::{CheckRule, Told};
use names_model::Spelling;
use reach_tables::Table;
use std::alloc::Global;

// Puts a name into a table.
#[tactic(auto, using(crate::proofs::RegionTables::one_more_is_had))]
fn add_name(alloc: Global, name: &Name, table: &mut Table) -> Result<(), Memory>
    ensures { OnOk result ((n : List ℕ) → has table.new n ≡ (has table.old n || bytes_eq name.now.text n)) }
{
    let spelling = Spelling::from_bytes(alloc, name.text.as_slice())?;
    table.append(alloc, &spelling, 0)
}

fn add_names(alloc: Global, names: &[Name], table: &mut Table) -> Result<(), Memory>
    ensures { OnOk result ((n : List ℕ) → has table.new n ≡ (has table.old n || has_name n names.now)) }
{
    for name in names {
        add_name(alloc, name, table)?;
    }
    Ok(())
}

fn add_declared(
    alloc: Global,
    declarations: &[Declaration],
    table: &mut Table,
) -> Result<(), Memory>
    ensures { OnOk result ((n : List ℕ) → has table.new n ≡ (has table.old n || list_any (λ d. has_name n d.names) (map declaration_tree declarations.now))) }
{
    for declaration in declarations {
        add_names(alloc, declaration.names.as_slice(), table)?;
    }
    Ok(())
}

// Puts the names of the locations that a definition statement declares into a table.
fn add_local(alloc: Global, local: &Local, table: &mut Table) -> Result<(), Memory>
    ensures { OnOk result ((n : List ℕ) → has table.new n ≡ (has table.old n || declares_text n (local_item (local_tree local.now)))) }
{
    match local {
        Local::Locations { declarations, .. } => {
            add_declared(alloc, declarations.as_slice(), table)
        }
        Local::Synonyms { .. } | Local::SynModes { .. } | Local::NewModes { .. } => Ok(()),
    }
}

#[tactic(auto, using(crate::proofs::Views::item_views))]
fn add_item(alloc: Global, item: &Item, table: &mut Table) -> Result<(), Memory>
    ensures { OnOk result ((n : List ℕ) → has table.new n ≡ (has table.old n || declares_text n (item_tree item.now))) }
{
    match item {
        Item::Local(local) => add_local(alloc, local, table),
        Item::Seize { .. }
        | Item::Grant { .. }
        | Item::Signals { .. }
        | Item::Procedure(_)
        | Item::Process(_)
        | Item::Modulion(_)
        | Item::Statement(_) => Ok(()),
    }
}

fn add_items(alloc: Global, items: &[Item], table: &mut Table) -> Result<(), Memory>
    ensures { OnOk result ((n : List ℕ) → has table.new n ≡ (has table.old n || list_any (declares_text n) (item_trees items.now))) }
{
    for item in items {
        add_item(alloc, item, table)?;
    }
    Ok(())
}

// The names of the locations that are declared directly among items.
fn locations_among(alloc: Global, items: &[Item]) -> Result<Table, Memory>
    ensures { IfOk result (λ table. (n : List ℕ) → has table n ≡ list_any (declares_text n) (item_trees items.now)) }
{
    let mut table = Table::new(alloc);
    add_items(alloc, items, &mut table)?;
    Ok(table)
}

// Rule P4 of one name.
fn tell_had(alloc: Global, table: &Table, name: &Name, told: &mut Told) -> Result<(), Memory>
    ensures { OnOk result (told.new ≡ told.old ++ told_had table.now name.now) }
{
    let spelling = Spelling::from_bytes(alloc, name.text.as_slice())?;
    if table.find(&spelling).is_empty() {
        return Ok(());
    }
    told.tell_name(CheckRule::P4, name.at, name.text.as_slice())
}

fn tell_each(alloc: Global, table: &Table, names: &[Name], told: &mut Told) -> Result<(), Memory>
    ensures { OnOk result (told.new ≡ told.old ++ flat_map (told_had table.now) names.now) }
{
    for name in names {
        tell_had(alloc, table, name, told)?;
    }
    Ok(())
}

fn tell_passed(alloc: Global, table: &Table, passed: &Passed, told: &mut Told) -> Result<(), Memory>
    ensures { OnOk result (told.new ≡ told.old ++ told_passed table.now passed.now) }
{
    match passed {
        Passed::Names(names) => tell_each(alloc, table, names.as_slice(), told),
        Passed::All(_) => Ok(()),
    }
}

#[tactic(auto, using(crate::proofs::Views::item_views))]
fn tell_grant(alloc: Global, table: &Table, item: &Item, told: &mut Told) -> Result<(), Memory>
    ensures { OnOk result (told.new ≡ told.old ++ told_grant_had table.now (item_tree item.now)) }
{
    match item {
        Item::Grant { passed, .. } => tell_passed(alloc, table, passed, told),
        Item::Seize { .. }
        | Item::Local(_)
        | Item::Signals { .. }
        | Item::Procedure(_)
        | Item::Process(_)
        | Item::Modulion(_)
        | Item::Statement(_) => Ok(()),
    }
}

fn tell_all(alloc: Global, table: &Table, items: &[Item], told: &mut Told) -> Result<(), Memory>
    ensures { OnOk result (told.new ≡ told.old ++ flat_map (told_grant_had table.now) (item_trees items.now)) }
{
    for item in items {
        tell_grant(alloc, table, item, told)?;
    }
    Ok(())
}

// Rule P4 of the items of a region.
fn tell_in_region(alloc: Global, items: &[Item], told: &mut Told) -> Result<(), Memory>
    ensures { OnOk result (let all = item_nodes (item_trees items.now) in told.new ≡ told.old ++ flat_map (told_grant all) (items_in all)) }
{
    let table = locations_among(alloc, items)?;
    tell_all(alloc, &table, items, told)
}

/// Rule P4 of each of its own locations that a region grants by name.
pub fn tell_grants(
    alloc: Global,
    kind: ModulionKind,
    items: &[Item],
    told: &mut Told,
) -> Result<(), Memory>
    ensures { OnOk result (told.new ≡ told.old ++ told_grants kind (item_nodes (item_trees items.now))) }
{
    if is_region(kind) {
        return tell_in_region(alloc, items, told);
    }
    Ok(())
}
