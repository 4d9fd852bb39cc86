// The size of modulions and programs.
ghost use Rattle.std.specs.Prelude.{◌≡◌, map, option_map};
ghost use Rattle.chill_tree.specs.ModeTree.{mode_tree};
ghost use Rattle.chill_tree.specs.ItemTree.{item_tree, item_trees, item_nodes, modulion_tree, program_tree, signal_tree, param_tree, formal_tree, procedure_tree, process_tree};
ghost use Rattle.text_size.specs.ModeNodes.{nodes_in_modes};
ghost use Rattle.text_size.specs.Sizes as sizes;
ghost use Rattle.text_size.specs.Nodes.{capped};

use crate::locals::nodes_in_local;
use crate::mode_nodes::{nodes_in_mode, nodes_in_some_mode};
use crate::statements::{size_of_body, size_of_nodes, size_of_some_handler, size_of_statement};
use chill_base::List;
use chill_tree::tree::{Formal, Item, Mode, Modulion, Param, Procedure, Process, Signal, Tree};

// The size of a body, with nothing that it holds.
const BODY: u32 = 16;

/// The size of a program's text, or 4,294,967,295 where it is greater: 4 for each node of an expression, 8 for each action
/// and for each alternative of a CASE, DELAY CASE, RECEIVE CASE or handler, and 16 for each body, the outermost process
/// being one.
pub fn size_of_program(tree: &Tree) -> u32
    ensures { result ≡ capped (sizes.program_size (program_tree tree.now)) }
{
    BODY.saturating_add(size_of_modulions(tree.modulions.as_slice()))
}

fn size_of_modulions(modulions: &[Modulion]) -> u32
    ensures { result ≡ capped (sizes.modulions_size (map modulion_tree modulions.now)) }
{
    let mut size = 0_u32;
    for own in modulions {
        size = size.saturating_add(size_of_modulion(own));
    }
    size
}

#[tactic(auto, using(crate::proofs::ItemLemmas::item_views))]
#[cycle(item)]
fn size_of_modulion(own: &Modulion) -> u32
    ensures { result ≡ capped (sizes.modulion_size (modulion_tree own.now)) }
{
    let items = size_of_items(own.items.as_slice());
    items.saturating_add(size_of_some_handler(&own.handler))
}

#[cycle(item)]
fn size_of_items(items: &[Item]) -> u32
    ensures { result ≡ capped (sizes.items_size (item_nodes (item_trees items.now))) }
{
    let mut size = 0_u32;
    for item in items {
        size = size.saturating_add(size_of_item(item));
    }
    size
}

#[tactic(auto, using(crate::proofs::ItemLemmas::item_views))]
#[cycle(item)]
fn size_of_item(item: &Item) -> u32
    ensures { result ≡ capped (sizes.item_size (item_tree item.now)) }
{
    match item {
        Item::Modulion(inner) => size_of_modulion(inner),
        Item::Seize { .. }
        | Item::Grant { .. }
        | Item::Local(_)
        | Item::Signals { .. }
        | Item::Procedure(_)
        | Item::Process(_)
        | Item::Statement(_) => own_size(item),
    }
}

/// The size of a modulion's text without the modulions that stand in it, or 4,294,967,295 where it is greater.
#[tactic(auto, using(crate::proofs::ItemLemmas::item_views))]
pub fn size_without_inner(own: &Modulion) -> u32
    ensures { result ≡ capped (sizes.size_without_inner (modulion_tree own.now)) }
{
    let items = own_sizes(own.items.as_slice());
    items.saturating_add(size_of_some_handler(&own.handler))
}

fn own_sizes(items: &[Item]) -> u32
    ensures { result ≡ capped (sizes.own_sizes (item_trees items.now)) }
{
    let mut size = 0_u32;
    for item in items {
        size = size.saturating_add(own_size(item));
    }
    size
}

// The size of what stands in a modulion, another one aside.
#[tactic(auto, using(crate::proofs::ItemLemmas::item_views))]
fn own_size(item: &Item) -> u32
    ensures { result ≡ capped (sizes.own_size (item_tree item.now)) }
{
    match item {
        Item::Seize { .. } | Item::Grant { .. } | Item::Modulion(_) => 0,
        Item::Local(local) => size_of_nodes(nodes_in_local(local)),
        Item::Signals { signals, .. } => size_of_nodes(nodes_in_signals(signals.as_slice())),
        Item::Procedure(procedure) => size_of_procedure(procedure),
        Item::Process(process) => size_of_process(process),
        Item::Statement(statement) => size_of_statement(statement),
    }
}

fn nodes_in_signals(signals: &[Signal]) -> u32
    ensures { result ≡ capped (sizes.nodes_in_signals (map signal_tree signals.now)) }
{
    let mut count = 0_u32;
    for signal in signals {
        count = count.saturating_add(nodes_in_parts(&signal.parts));
    }
    count
}

fn nodes_in_parts(parts: &Option<List<Mode>>) -> u32
    ensures { result ≡ capped (sizes.nodes_in_parts (option_map (map mode_tree) parts.now)) }
{
    match parts {
        None => 0,
        Some(modes) => nodes_in_modes(modes.as_slice()),
    }
}

fn nodes_in_modes(modes: &[Mode]) -> u32
    ensures { result ≡ capped (nodes_in_modes (map mode_tree modes.now)) }
{
    let mut count = 0_u32;
    for mode in modes {
        count = count.saturating_add(nodes_in_mode(mode));
    }
    count
}

fn nodes_in_params(params: &[Param]) -> u32
    ensures { result ≡ capped (sizes.nodes_in_params (map param_tree params.now)) }
{
    let mut count = 0_u32;
    for param in params {
        count = count.saturating_add(nodes_in_mode(&param.mode));
    }
    count
}

fn nodes_in_formals(formals: &[Formal]) -> u32
    ensures { result ≡ capped (sizes.nodes_in_formals (map formal_tree formals.now)) }
{
    let mut count = 0_u32;
    for formal in formals {
        count = count.saturating_add(nodes_in_mode(&formal.mode));
    }
    count
}

fn size_of_procedure(own: &Procedure) -> u32
    ensures { result ≡ capped (sizes.procedure_size (procedure_tree own.now)) }
{
    let returns = nodes_in_some_mode(&own.returns);
    let count = returns.saturating_add(nodes_in_params(own.params.as_slice()));
    let head = BODY.saturating_add(size_of_nodes(count));
    let body = size_of_body(own.body.as_slice());
    head.saturating_add(body)
        .saturating_add(size_of_some_handler(&own.handler))
}

fn size_of_process(own: &Process) -> u32
    ensures { result ≡ capped (sizes.process_size (process_tree own.now)) }
{
    let count = nodes_in_formals(own.formals.as_slice());
    let head = BODY.saturating_add(size_of_nodes(count));
    let body = size_of_body(own.body.as_slice());
    head.saturating_add(body)
        .saturating_add(size_of_some_handler(&own.handler))
}
