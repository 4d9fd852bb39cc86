// What is told in modulions and their items.
ghost use Rattle.std.specs.Prelude.{◌≡◌, ◌++◌, OnOk, option_map, map, flat_map};
ghost use Rattle.chill_tree.specs.ModeTree.{mode_tree};
ghost use Rattle.chill_tree.specs.StatementTree.{body_trees, boxed_handler};
ghost use Rattle.chill_tree.specs.ItemTree.{signal_tree, param_tree, procedure_tree, formal_tree, process_tree, item_tree, item_trees, item_nodes, modulion_tree, modulion_item, program_tree};
ghost use Rattle.met_names.specs.Facts.{told_source};
ghost use Rattle.met_names.specs.Sources.{over_mode};
ghost use Rattle.process_names.specs.Walk.{over_some_modes, over_signal, over_param, over_formal, whole_body, over_procedure, over_process, over_item, inside_item, over_items, over_program};

use crate::granted::tell_grants;
use crate::locals::tell_in_local;
use crate::rules::tell_place;
use crate::statements::{tell_in_body, tell_in_handler, tell_in_statement};
use chill_base::{List, Memory};
use chill_tree::tree::{
    BodyPart, Formal, Handler, Item, Mode, Modulion, ModulionKind, Param, Procedure, Process,
    Signal, Tree,
};
use definition_origins::Told;
use met_names::Meetings;

fn tell_in_all_modes(meetings: &Meetings<'_>, modes: &[Mode], told: &mut Told) -> Result<(), Memory>
    ensures { OnOk result (told.new ≡ told.old ++ flat_map (over_mode (told_source meetings.now)) (map mode_tree modes.now)) }
{
    for mode in modes {
        meetings.tell_in_mode(mode, told)?;
    }
    Ok(())
}

fn tell_in_some_modes(
    meetings: &Meetings<'_>,
    modes: &Option<List<Mode>>,
    told: &mut Told,
) -> Result<(), Memory>
    ensures { OnOk result (told.new ≡ told.old ++ over_some_modes meetings.now (option_map (map mode_tree) modes.now)) }
{
    match modes {
        None => Ok(()),
        Some(modes) => tell_in_all_modes(meetings, modes.as_slice(), told),
    }
}

fn tell_in_signals(
    meetings: &Meetings<'_>,
    signals: &[Signal],
    told: &mut Told,
) -> Result<(), Memory>
    ensures { OnOk result (told.new ≡ told.old ++ flat_map (over_signal meetings.now) (map signal_tree signals.now)) }
{
    for signal in signals {
        tell_in_some_modes(meetings, &signal.parts, told)?;
    }
    Ok(())
}

fn tell_in_params(meetings: &Meetings<'_>, params: &[Param], told: &mut Told) -> Result<(), Memory>
    ensures { OnOk result (told.new ≡ told.old ++ flat_map (over_param meetings.now) (map param_tree params.now)) }
{
    for param in params {
        meetings.tell_in_mode(&param.mode, told)?;
    }
    Ok(())
}

fn tell_in_formals(
    meetings: &Meetings<'_>,
    formals: &[Formal],
    told: &mut Told,
) -> Result<(), Memory>
    ensures { OnOk result (told.new ≡ told.old ++ flat_map (over_formal meetings.now) (map formal_tree formals.now)) }
{
    for formal in formals {
        meetings.tell_in_mode(&formal.mode, told)?;
    }
    Ok(())
}

fn tell_in_whole_body(
    meetings: &Meetings<'_>,
    body: &[BodyPart],
    handler: &Option<Box<Handler>>,
    told: &mut Told,
) -> Result<(), Memory>
    ensures { OnOk result (told.new ≡ told.old ++ whole_body meetings.now (body_trees body.now) (option_map boxed_handler handler.now)) }
{
    tell_in_body(meetings, body, told)?;
    tell_in_handler(meetings, handler, told)
}

fn tell_in_procedure(
    meetings: &Meetings<'_>,
    own: &Procedure,
    told: &mut Told,
) -> Result<(), Memory>
    ensures { OnOk result (told.new ≡ told.old ++ over_procedure meetings.now (procedure_tree own.now)) }
{
    tell_in_params(meetings, own.params.as_slice(), told)?;
    meetings.tell_in_some_mode(&own.returns, told)?;
    tell_in_whole_body(meetings, own.body.as_slice(), &own.handler, told)
}

fn tell_in_process(meetings: &Meetings<'_>, own: &Process, told: &mut Told) -> Result<(), Memory>
    ensures { OnOk result (told.new ≡ told.old ++ over_process meetings.now (process_tree own.now)) }
{
    tell_in_formals(meetings, own.formals.as_slice(), told)?;
    tell_in_whole_body(meetings, own.body.as_slice(), &own.handler, told)
}

#[tactic(auto, using(crate::proofs::Views::append_views))]
#[cycle(item)]
fn tell_in_item(
    meetings: &Meetings<'_>,
    around: ModulionKind,
    item: &Item,
    told: &mut Told,
) -> Result<(), Memory>
    ensures { OnOk result (told.new ≡ told.old ++ over_item meetings.now around (item_tree item.now)) }
{
    tell_place(around, item, told)?;
    tell_inside(meetings, item, told)
}

#[tactic(auto, using(crate::proofs::Views::item_views))]
#[cycle(item)]
fn tell_inside(meetings: &Meetings<'_>, item: &Item, told: &mut Told) -> Result<(), Memory>
    ensures { OnOk result (told.new ≡ told.old ++ inside_item meetings.now (item_tree item.now)) }
{
    match item {
        Item::Seize { .. } | Item::Grant { .. } => Ok(()),
        Item::Local(local) => tell_in_local(meetings, local, told),
        Item::Signals { signals, .. } => tell_in_signals(meetings, signals.as_slice(), told),
        Item::Procedure(procedure) => tell_in_procedure(meetings, procedure, told),
        Item::Process(process) => tell_in_process(meetings, process, told),
        Item::Modulion(modulion) => tell_in_modulion(meetings, modulion, told),
        Item::Statement(statement) => tell_in_statement(meetings, statement, told),
    }
}

#[cycle(item)]
fn tell_in_items(
    meetings: &Meetings<'_>,
    around: ModulionKind,
    items: &[Item],
    told: &mut Told,
) -> Result<(), Memory>
    ensures { OnOk result (told.new ≡ told.old ++ over_items meetings.now around (item_nodes (item_trees items.now))) }
{
    for item in items {
        tell_in_item(meetings, around, item, told)?;
    }
    Ok(())
}

#[tactic(auto, using(crate::proofs::Views::item_views))]
#[cycle(item)]
pub fn tell_in_modulion(
    meetings: &Meetings<'_>,
    own: &Modulion,
    told: &mut Told,
) -> Result<(), Memory>
    ensures { OnOk result (told.new ≡ told.old ++ inside_item meetings.now (modulion_item (modulion_tree own.now))) }
{
    tell_grants(meetings.allocator(), own.kind, own.items.as_slice(), told)?;
    tell_in_items(meetings, own.kind, own.items.as_slice(), told)?;
    tell_in_handler(meetings, &own.handler, told)
}

/// What names decide of the rules on processes, all that a program breaks of P1 to P5 and P8.
pub fn tell_in_program(meetings: &Meetings<'_>, tree: &Tree, told: &mut Told) -> Result<(), Memory>
    ensures { OnOk result (told.new ≡ told.old ++ over_program meetings.now (program_tree tree.now)) }
{
    for modulion in tree.modulions.as_slice() {
        tell_in_modulion(meetings, modulion, told)?;
    }
    Ok(())
}
