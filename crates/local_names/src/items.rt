// The locals of the outermost process: those of actions in modulions, and of modulions' handlers.
ghost use Rattle.std.specs.Prelude.{◌≡◌, ◌++◌, OnOk, IfOk, flat_map};
ghost use Rattle.chill_tree.specs.ItemTree.{item_tree, item_trees, item_nodes, modulion_tree, modulion_item, program_tree};
ghost use Rattle.checks_model.specs.Sites.{outermost_locals, outermost_locals_in, items_of};
ghost use Rattle.local_names.specs.Found.{names_found};

use crate::statements::{add_in_handler, add_in_statement};
use chill_base::{List, Memory};
use chill_tree::tree::{Item, Modulion, Name, Tree};
use std::alloc::Global;

#[tactic(auto, using(crate::proofs::ItemViews::item_views))]
#[cycle(item)]
fn add_in_item<'a>(item: &'a Item, found: &mut List<&'a Name>) -> Result<(), Memory>
    ensures { OnOk result (names_found found.new ≡ names_found found.old ++ outermost_locals (item_tree item.now)) }
{
    match item {
        Item::Seize { .. }
        | Item::Grant { .. }
        | Item::Local(_)
        | Item::Signals { .. }
        | Item::Procedure(_)
        | Item::Process(_) => Ok(()),
        Item::Modulion(modulion) => add_in_modulion(modulion, found),
        Item::Statement(statement) => add_in_statement(statement, found),
    }
}

#[cycle(item)]
fn add_in_items<'a>(items: &'a [Item], found: &mut List<&'a Name>) -> Result<(), Memory>
    ensures { OnOk result (names_found found.new ≡ names_found found.old ++ outermost_locals_in (item_nodes (item_trees items.now))) }
{
    for item in items {
        add_in_item(item, found)?;
    }
    Ok(())
}

#[tactic(auto, using(crate::proofs::ItemViews::item_views))]
#[cycle(item)]
fn add_in_modulion<'a>(own: &'a Modulion, found: &mut List<&'a Name>) -> Result<(), Memory>
    ensures { OnOk result (names_found found.new ≡ names_found found.old ++ outermost_locals (modulion_item (modulion_tree own.now))) }
{
    add_in_items(own.items.as_slice(), found)?;
    add_in_handler(&own.handler, found)
}

/// The locals of the outermost process of a program.
pub fn outermost_locals(alloc: Global, tree: &Tree) -> Result<List<&Name>, Memory>
    ensures { IfOk result (λ found. names_found found ≡ flat_map outermost_locals (items_of (program_tree tree.now))) }
{
    let mut found = List::new(alloc);
    for modulion in tree.modulions.as_slice() {
        add_in_modulion(modulion, &mut found)?;
    }
    Ok(found)
}
