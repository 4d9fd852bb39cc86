// The parts of programs and modulions.
ghost use Rattle.std.specs.Prelude.{◌≡◌, ◌++◌, IfOk, OnOk};
ghost use Rattle.chill_tree.specs.ItemTree.{item_tree, item_trees, item_nodes, modulion_tree, modulion_item, program_tree};
ghost use Rattle.names_model.specs.Parts.{part_trees};
ghost use Rattle.names_model.specs.ItemParts.{is_region, item_parts, each_item, program_parts};

use crate::labels::Labels;
use crate::local::add_local;
use crate::part::add_part;
use crate::routine::{add_procedure, add_process};
use crate::signal::{add_granted, add_seized, add_signals};
use crate::statement::{add_some_handler, add_statement};
use chill_base::{List, Memory};
use chill_tree::tree::{Item, Modulion, ModulionKind, Tree};
use names_model::{Identifier, Part};
use std::alloc::Global;

// Whether it is a region.
fn is_region(kind: ModulionKind) -> bool
    ensures { result ≡ is_region kind }
{
    match kind {
        ModulionKind::Module => false,
        ModulionKind::Region => true,
    }
}

// Adds the parts of an item.
#[tactic(auto, using(crate::proofs::ItemLemmas::item_views))]
#[cycle(item)]
fn add_item(alloc: Global, item: &Item, out: &mut List<Part>) -> Result<(), Memory>
    ensures { OnOk result (part_trees out.new ≡ part_trees out.old ++ item_parts (item_tree item.now)) }
{
    match item {
        Item::Seize { passed, .. } => add_seized(alloc, passed, out),
        Item::Grant { passed, .. } => add_granted(alloc, passed, out),
        Item::Local(local) => add_local(alloc, local, out),
        Item::Signals { signals, .. } => add_signals(alloc, signals.as_slice(), out),
        Item::Procedure(procedure) => add_procedure(alloc, procedure, out),
        Item::Process(process) => add_process(alloc, process, out),
        Item::Modulion(modulion) => add_modulion(alloc, modulion, out),
        Item::Statement(statement) => add_statement(alloc, statement, &Labels::Empty, out),
    }
}

// Adds the parts of items.
#[cycle(item)]
fn add_items(alloc: Global, items: &[Item], out: &mut List<Part>) -> Result<(), Memory>
    ensures { OnOk result (part_trees out.new ≡ part_trees out.old ++ each_item (item_nodes (item_trees items.now))) }
{
    for item in items {
        add_item(alloc, item, out)?;
    }
    Ok(())
}

// Adds a module or a region.
#[tactic(auto, using(crate::proofs::ItemLemmas::item_views))]
#[cycle(item)]
fn add_modulion(alloc: Global, modulion: &Modulion, out: &mut List<Part>) -> Result<(), Memory>
    ensures { OnOk result (part_trees out.new ≡ part_trees out.old ++ item_parts (modulion_item (modulion_tree modulion.now))) }
{
    let name = Identifier::of(alloc, &modulion.name)?;
    let mut parts = List::new(alloc);
    add_items(alloc, modulion.items.as_slice(), &mut parts)?;
    add_some_handler(alloc, &modulion.handler, &Labels::Empty, &mut parts)?;
    let part = Part::modulion(name, is_region(modulion.kind), parts)?;
    add_part(part, out)
}

/// The parts of the outermost level of a program, in the order of the text. It answers `Memory` also where no `u32` holds
/// the number of definitions in a reach.
pub fn program_parts(alloc: Global, tree: &Tree) -> Result<List<Part>, Memory>
    ensures { IfOk result (λ l. part_trees l ≡ program_parts (program_tree tree.now)) }
{
    let mut parts = List::new(alloc);
    for modulion in tree.modulions.as_slice() {
        add_modulion(alloc, modulion, &mut parts)?;
    }
    Ok(parts)
}
