// The definitions in items, and all those of a program.
ghost use Rattle.std.specs.Prelude.{◌≡◌, ◌++◌, IfOk, OnOk, map, flat_map};
ghost use Rattle.chill_tree.specs.ItemTree.{signal_tree, param_tree, formal_tree, procedure_tree, process_tree, item_tree, item_trees, item_nodes, modulion_tree, modulion_item, program_tree};
ghost use Rattle.class_operators.specs.Predefined.{predefined_tree};
ghost use Rattle.chill_tree.specs.StatementTree.{handler_node};
ghost use Rattle.checks_model.specs.Origins.{origins_in_handler, origins_of_signal, origins_of_param, origins_of_formal, origins_of_procedure, origins_of_process, origins_of_item, origins_of_items, in_both_cases, origins_of};
ghost use Rattle.definition_origins.specs.OriginTrees.{origin_trees};

use crate::locals::add_local;
use crate::mode_elements::{add_mode, add_modes, add_some_mode};
use crate::origin::Origin;
use crate::origin_list::{Origins, add_names};
use crate::statements::{add_body, add_some_handler, add_statement};
use chill_base::Memory;
use chill_tree::tree::{Formal, Item, Modulion, Param, Passing, Procedure, Process, Signal, Tree};
use class_operators::{PREDEFINED, Predefined};
use std::alloc::Global;

// A signal, and the elements in the modes of its parts.
fn add_signal<'a>(signal: &'a Signal, found: &mut Origins<'a>) -> Result<(), Memory>
    ensures { OnOk result (origin_trees found.new ≡ origin_trees found.old ++ origins_of_signal (signal_tree signal.now)) }
{
    found.push(Origin::Signal(signal))?;
    match &signal.parts {
        None => Ok(()),
        Some(parts) => add_modes(parts.as_slice(), found),
    }
}

// Signals.
fn add_signals<'a>(signals: &'a [Signal], found: &mut Origins<'a>) -> Result<(), Memory>
    ensures { OnOk result (origin_trees found.new ≡ origin_trees found.old ++ flat_map origins_of_signal (map signal_tree signals.now)) }
{
    for signal in signals {
        add_signal(signal, found)?;
    }
    Ok(())
}

// Parameters of a procedure that have one mode.
#[tactic(auto, using(crate::proofs::Views::owned_views))]
fn add_param<'a>(param: &'a Param, found: &mut Origins<'a>) -> Result<(), Memory>
    ensures { OnOk result (origin_trees found.new ≡ origin_trees found.old ++ origins_of_param (param_tree param.now)) }
{
    let first = found.next()?;
    let origin = Origin::Parameter {
        mode: &param.mode,
        passing: param.passing.unwrap_or(Passing::In),
        first,
    };
    add_names(param.names.as_slice(), origin, found)?;
    add_mode(&param.mode, None, found)
}

// Parameters of a procedure.
fn add_params<'a>(params: &'a [Param], found: &mut Origins<'a>) -> Result<(), Memory>
    ensures { OnOk result (origin_trees found.new ≡ origin_trees found.old ++ flat_map origins_of_param (map param_tree params.now)) }
{
    for param in params {
        add_param(param, found)?;
    }
    Ok(())
}

// Parameters of a process that have one mode.
#[tactic(auto, using(crate::proofs::Views::owned_views))]
fn add_formal<'a>(formal: &'a Formal, found: &mut Origins<'a>) -> Result<(), Memory>
    ensures { OnOk result (origin_trees found.new ≡ origin_trees found.old ++ origins_of_formal (formal_tree formal.now)) }
{
    let first = found.next()?;
    let origin = Origin::Parameter {
        mode: &formal.mode,
        passing: Passing::In,
        first,
    };
    add_names(formal.names.as_slice(), origin, found)?;
    add_mode(&formal.mode, None, found)
}

// Parameters of a process.
fn add_formals<'a>(formals: &'a [Formal], found: &mut Origins<'a>) -> Result<(), Memory>
    ensures { OnOk result (origin_trees found.new ≡ origin_trees found.old ++ flat_map origins_of_formal (map formal_tree formals.now)) }
{
    for formal in formals {
        add_formal(formal, found)?;
    }
    Ok(())
}

// A procedure, and what its head and its body define.
#[tactic(auto, using(crate::proofs::Views::item_views))]
fn add_procedure<'a>(procedure: &'a Procedure, found: &mut Origins<'a>) -> Result<(), Memory>
    ensures { OnOk result (origin_trees found.new ≡ origin_trees found.old ++ origins_of_procedure (procedure_tree procedure.now)) }
{
    found.push(Origin::Procedure(procedure))?;
    add_params(procedure.params.as_slice(), found)?;
    add_some_mode(&procedure.returns, found)?;
    add_body(procedure.body.as_slice(), found)?;
    add_some_handler(&procedure.handler, found)
}

// A process, and what its head and its body define.
#[tactic(auto, using(crate::proofs::Views::item_views))]
fn add_process<'a>(process: &'a Process, found: &mut Origins<'a>) -> Result<(), Memory>
    ensures { OnOk result (origin_trees found.new ≡ origin_trees found.old ++ origins_of_process (process_tree process.now)) }
{
    found.push(Origin::Process(process))?;
    add_formals(process.formals.as_slice(), found)?;
    add_body(process.body.as_slice(), found)?;
    add_some_handler(&process.handler, found)
}

// The definitions in an item.
#[tactic(auto, using(crate::proofs::Views::item_views))]
#[cycle(item)]
fn add_item<'a>(item: &'a Item, found: &mut Origins<'a>) -> Result<(), Memory>
    ensures { OnOk result (origin_trees found.new ≡ origin_trees found.old ++ origins_of_item (item_tree item.now)) }
{
    match item {
        Item::Seize { .. } | Item::Grant { .. } => Ok(()),
        Item::Local(local) => add_local(local, found),
        Item::Signals { signals, .. } => add_signals(signals.as_slice(), found),
        Item::Procedure(procedure) => add_procedure(procedure, found),
        Item::Process(process) => add_process(process, found),
        Item::Modulion(modulion) => add_modulion(modulion, found),
        Item::Statement(statement) => add_statement(statement, found),
    }
}

// The definitions in items.
#[cycle(item)]
fn add_items<'a>(items: &'a [Item], found: &mut Origins<'a>) -> Result<(), Memory>
    ensures { OnOk result (origin_trees found.new ≡ origin_trees found.old ++ origins_of_items (item_nodes (item_trees items.now))) }
{
    for item in items {
        add_item(item, found)?;
    }
    Ok(())
}

// What a module or a region holds.
#[tactic(auto, using(crate::proofs::Views::item_views))]
#[cycle(item)]
fn add_inside<'a>(modulion: &'a Modulion, found: &mut Origins<'a>) -> Result<(), Memory>
    ensures { OnOk result (origin_trees found.new ≡ origin_trees found.old ++ (origins_of_items (item_nodes (modulion_tree modulion.now).items) ++ origins_in_handler (handler_node (modulion_tree modulion.now).handler))) }
{
    add_items(modulion.items.as_slice(), found)?;
    add_some_handler(&modulion.handler, found)
}

// A module or a region, and what it holds.
#[cycle(item)]
fn add_modulion<'a>(modulion: &'a Modulion, found: &mut Origins<'a>) -> Result<(), Memory>
    ensures { OnOk result (origin_trees found.new ≡ origin_trees found.old ++ origins_of_item (modulion_item (modulion_tree modulion.now))) }
{
    found.push(Origin::Modulion(modulion))?;
    add_inside(modulion, found)
}

// A predefined name, in upper and in lower case.
fn add_predefined<'a>(own: Predefined, found: &mut Origins<'a>) -> Result<(), Memory>
    ensures { OnOk result (origin_trees found.new ≡ origin_trees found.old ++ in_both_cases (predefined_tree own)) }
{
    found.push(Origin::Predefined(own))?;
    found.push(Origin::Predefined(own))
}

// Predefined names, each in upper and in lower case.
fn add_all_predefined<'a>(all: &[Predefined], found: &mut Origins<'a>) -> Result<(), Memory>
    ensures { OnOk result (origin_trees found.new ≡ origin_trees found.old ++ flat_map in_both_cases (map predefined_tree all.now)) }
{
    for own in all {
        add_predefined(*own, found)?;
    }
    Ok(())
}

// The definitions of a text.
fn add_modulions<'a>(modulions: &'a [Modulion], found: &mut Origins<'a>) -> Result<(), Memory>
    ensures { OnOk result (origin_trees found.new ≡ origin_trees found.old ++ flat_map (λ m. origins_of_item (modulion_item m)) (map modulion_tree modulions.now)) }
{
    for modulion in modulions {
        add_modulion(modulion, found)?;
    }
    Ok(())
}

/// The origins of all definitions in a tree, in the order of the text, and of the predefined ones behind them. It answers
/// `Memory` also where no `u32` numbers all definitions.
pub fn origins<'a>(alloc: Global, tree: &'a Tree) -> Result<Origins<'a>, Memory>
    ensures { IfOk result (λ found. origin_trees found ≡ origins_of (program_tree tree.now)) }
{
    let mut found = Origins::new(alloc);
    add_modulions(tree.modulions.as_slice(), &mut found)?;
    add_all_predefined(&PREDEFINED, &mut found)?;
    Ok(found)
}
