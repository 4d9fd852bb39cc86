// What modulions and their items have.
ghost use Rattle.std.specs.Prelude.{◌≡◌, ◌++◌, OnOk, IfOk, option_map};
ghost use Rattle.chill_tree.specs.StatementTree.{body_trees, boxed_handler};
ghost use Rattle.chill_tree.specs.ItemTree.{item_tree, item_trees, item_nodes, modulion_tree, modulion_item, program_tree};
ghost use Rattle.wait_exprs.specs.Waits.{waits_in_body, waits_in_item, waits_in_items, waits_of};
ghost use Rattle.wait_exprs.specs.Views.{wait_trees};

use crate::statements::{add_in_body, add_in_handler, add_in_statement};
use crate::wait::Wait;
use chill_base::{List, Memory};
use chill_tree::tree::{BodyPart, Handler, Item, Modulion, Tree};
use std::alloc::Global;

fn add_in_whole_body<'a>(
    body: &'a [BodyPart],
    handler: &'a Option<Box<Handler>>,
    found: &mut List<Wait<'a>>,
) -> Result<(), Memory>
    ensures { OnOk result (wait_trees found.new ≡ wait_trees found.old ++ waits_in_body (body_trees body.now) (option_map boxed_handler handler.now)) }
{
    add_in_body(body, found)?;
    add_in_handler(handler, found)
}

#[tactic(auto, using(crate::proofs::ItemViews::item_views))]
#[cycle(item)]
fn add_in_item<'a>(item: &'a Item, found: &mut List<Wait<'a>>) -> Result<(), Memory>
    ensures { OnOk result (wait_trees found.new ≡ wait_trees found.old ++ waits_in_item (item_tree item.now)) }
{
    match item {
        Item::Seize { .. } | Item::Grant { .. } | Item::Local(_) | Item::Signals { .. } => Ok(()),
        Item::Procedure(own) => add_in_whole_body(own.body.as_slice(), &own.handler, found),
        Item::Process(own) => add_in_whole_body(own.body.as_slice(), &own.handler, found),
        Item::Modulion(modulion) => add_in_modulion(modulion, found),
        Item::Statement(statement) => add_in_statement(statement, found),
    }
}

#[cycle(item)]
fn add_in_items<'a>(items: &'a [Item], found: &mut List<Wait<'a>>) -> Result<(), Memory>
    ensures { OnOk result (wait_trees found.new ≡ wait_trees found.old ++ waits_in_items (item_nodes (item_trees items.now))) }
{
    for item in items {
        add_in_item(item, found)?;
    }
    Ok(())
}

#[tactic(auto, using(crate::proofs::ItemViews::item_views))]
#[cycle(item)]
fn add_in_modulion<'a>(own: &'a Modulion, found: &mut List<Wait<'a>>) -> Result<(), Memory>
    ensures { OnOk result (wait_trees found.new ≡ wait_trees found.old ++ waits_in_item (modulion_item (modulion_tree own.now))) }
{
    add_in_items(own.items.as_slice(), found)?;
    add_in_handler(&own.handler, found)
}

/// The priorities of a program, and the locations that take an instance.
pub fn waits_of(alloc: Global, tree: &Tree) -> Result<List<Wait<'_>>, Memory>
    ensures { IfOk result (λ found. wait_trees found ≡ waits_of (program_tree tree.now)) }
{
    let mut found = List::new(alloc);
    for modulion in tree.modulions.as_slice() {
        add_in_modulion(modulion, &mut found)?;
    }
    Ok(found)
}
