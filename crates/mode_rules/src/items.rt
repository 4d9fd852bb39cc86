// What is told in modulions and their items.
ghost use Rattle.std.specs.Prelude.{◌≡◌, ◌++◌, OnOk, option_map, map, flat_map};
ghost use Rattle.chill_tree.specs.ModeTree.{mode_tree};
ghost use Rattle.chill_tree.specs.StatementTree.{body_trees, boxed_handler};
ghost use Rattle.chill_tree.specs.ItemTree.{signal_tree, param_tree, procedure_tree, formal_tree, process_tree, item_tree, item_trees, item_nodes, modulion_tree, modulion_item};
ghost use Rattle.constant_operators.specs.Grounds.{ground_of};
ghost use Rattle.mode_rules.specs.Ready.{IsReady};
ghost use Rattle.mode_rules.specs.Walk.{over_modes, over_some_modes, over_signal, over_param, over_formal, whole_body, over_procedure, over_process, over_item, over_items};

use crate::expressions::{tell_in_mode, tell_in_some_mode};
use crate::locals::tell_in_local;
use crate::statements::{tell_in_body, tell_in_handler, tell_in_statement};
use chill_base::{List, Memory};
use chill_tree::tree::{
    BodyPart, Formal, Handler, Item, Mode, Modulion, Param, Procedure, Process, Signal,
};
use constant_operators::Evaluation;
use definition_origins::Told;
use written_modes::Standing;

fn tell_in_all_modes(ground: &Evaluation<'_>, modes: &[Mode], told: &mut Told) -> Result<(), Memory>
    ensures { IsReady ground.now → OnOk result (told.new ≡ told.old ++ over_modes (ground_of ground.now) (map mode_tree modes.now)) }
{
    for mode in modes {
        tell_in_mode(ground, mode, Standing::Part, told)?;
    }
    Ok(())
}

fn tell_in_some_modes(
    ground: &Evaluation<'_>,
    modes: &Option<List<Mode>>,
    told: &mut Told,
) -> Result<(), Memory>
    ensures { IsReady ground.now → OnOk result (told.new ≡ told.old ++ over_some_modes (ground_of ground.now) (option_map (map mode_tree) modes.now)) }
{
    match modes {
        None => Ok(()),
        Some(modes) => tell_in_all_modes(ground, modes.as_slice(), told),
    }
}

fn tell_in_signals(
    ground: &Evaluation<'_>,
    signals: &[Signal],
    told: &mut Told,
) -> Result<(), Memory>
    ensures { IsReady ground.now → OnOk result (told.new ≡ told.old ++ flat_map (over_signal (ground_of ground.now)) (map signal_tree signals.now)) }
{
    for signal in signals {
        tell_in_some_modes(ground, &signal.parts, told)?;
    }
    Ok(())
}

fn tell_in_params(ground: &Evaluation<'_>, params: &[Param], told: &mut Told) -> Result<(), Memory>
    ensures { IsReady ground.now → OnOk result (told.new ≡ told.old ++ flat_map (over_param (ground_of ground.now)) (map param_tree params.now)) }
{
    for param in params {
        tell_in_mode(ground, &param.mode, Standing::Part, told)?;
    }
    Ok(())
}

fn tell_in_formals(
    ground: &Evaluation<'_>,
    formals: &[Formal],
    told: &mut Told,
) -> Result<(), Memory>
    ensures { IsReady ground.now → OnOk result (told.new ≡ told.old ++ flat_map (over_formal (ground_of ground.now)) (map formal_tree formals.now)) }
{
    for formal in formals {
        tell_in_mode(ground, &formal.mode, Standing::Part, told)?;
    }
    Ok(())
}

fn tell_in_whole_body(
    ground: &Evaluation<'_>,
    body: &[BodyPart],
    handler: &Option<Box<Handler>>,
    told: &mut Told,
) -> Result<(), Memory>
    ensures { IsReady ground.now → OnOk result (told.new ≡ told.old ++ whole_body (ground_of ground.now) (body_trees body.now) (option_map boxed_handler handler.now)) }
{
    tell_in_body(ground, body, told)?;
    tell_in_handler(ground, handler, told)
}

fn tell_in_procedure(
    ground: &Evaluation<'_>,
    own: &Procedure,
    told: &mut Told,
) -> Result<(), Memory>
    ensures { IsReady ground.now → OnOk result (told.new ≡ told.old ++ over_procedure (ground_of ground.now) (procedure_tree own.now)) }
{
    tell_in_params(ground, own.params.as_slice(), told)?;
    tell_in_some_mode(ground, &own.returns, told)?;
    tell_in_whole_body(ground, own.body.as_slice(), &own.handler, told)
}

fn tell_in_process(ground: &Evaluation<'_>, own: &Process, told: &mut Told) -> Result<(), Memory>
    ensures { IsReady ground.now → OnOk result (told.new ≡ told.old ++ over_process (ground_of ground.now) (process_tree own.now)) }
{
    tell_in_formals(ground, own.formals.as_slice(), told)?;
    tell_in_whole_body(ground, own.body.as_slice(), &own.handler, told)
}

#[tactic(auto, using(crate::proofs::BodyViews::item_views))]
#[cycle(item)]
fn tell_in_item(ground: &Evaluation<'_>, item: &Item, told: &mut Told) -> Result<(), Memory>
    ensures { IsReady ground.now → OnOk result (told.new ≡ told.old ++ over_item (ground_of ground.now) (item_tree item.now)) }
{
    match item {
        Item::Seize { .. } | Item::Grant { .. } => Ok(()),
        Item::Local(local) => tell_in_local(ground, local, told),
        Item::Signals { signals, .. } => tell_in_signals(ground, signals.as_slice(), told),
        Item::Procedure(procedure) => tell_in_procedure(ground, procedure, told),
        Item::Process(process) => tell_in_process(ground, process, told),
        Item::Modulion(modulion) => tell_in_modulion(ground, modulion, told),
        Item::Statement(statement) => tell_in_statement(ground, statement, told),
    }
}

#[cycle(item)]
fn tell_in_items(ground: &Evaluation<'_>, items: &[Item], told: &mut Told) -> Result<(), Memory>
    ensures { IsReady ground.now → OnOk result (told.new ≡ told.old ++ over_items (ground_of ground.now) (item_nodes (item_trees items.now))) }
{
    for item in items {
        tell_in_item(ground, item, told)?;
    }
    Ok(())
}

#[tactic(auto, using(crate::proofs::BodyViews::item_views))]
#[cycle(item)]
pub fn tell_in_modulion(
    ground: &Evaluation<'_>,
    own: &Modulion,
    told: &mut Told,
) -> Result<(), Memory>
    ensures { IsReady ground.now → OnOk result (told.new ≡ told.old ++ over_item (ground_of ground.now) (modulion_item (modulion_tree own.now))) }
{
    tell_in_items(ground, own.items.as_slice(), told)?;
    tell_in_handler(ground, &own.handler, told)
}

/// What is told in the modulions of a program.
pub fn tell_in_modulions(
    ground: &Evaluation<'_>,
    modulions: &[Modulion],
    told: &mut Told,
) -> Result<(), Memory>
    ensures { IsReady ground.now → OnOk result (told.new ≡ told.old ++ flat_map (λ m. over_item (ground_of ground.now) (modulion_item m)) (map modulion_tree modulions.now)) }
{
    for modulion in modulions {
        tell_in_modulion(ground, modulion, told)?;
    }
    Ok(())
}
