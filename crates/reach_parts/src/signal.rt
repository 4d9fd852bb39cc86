// The parts that signals, and the names that pass a modulion's border, are of their reach.
ghost use Rattle.std.specs.Prelude.{◌≡◌, ◌++◌, OnOk, map, flat_map, option_map};
ghost use Rattle.chill_tree.specs.ModeTree.{mode_tree};
ghost use Rattle.chill_tree.specs.ItemTree.{signal_tree};
ghost use Rattle.names_model.specs.Identifiers.{identifier};
ghost use Rattle.names_model.specs.Parts.{seize, grant, part_trees};
ghost use Rattle.names_model.specs.ModeMentions.{mentions_of_mode};
ghost use Rattle.names_model.specs.ItemParts.{seized, granted, receiver_parts, mentions_of_parts, signal_parts};

use crate::clause::clause_of_one;
use crate::mode::add_mode;
use crate::part::{add_part, mention_used};
use chill_base::{List, Memory};
use chill_tree::tree::{Mode, Name, Passed, Signal};
use names_model::{Identifier, Kind, Mention, Need, Part};
use std::alloc::Global;

// Adds names that are seized.
fn add_seized_names(alloc: Global, names: &[Name], out: &mut List<Part>) -> Result<(), Memory>
    ensures { OnOk result (part_trees out.new ≡ part_trees out.old ++ map (λ n. seize (identifier n)) names.now) }
{
    for name in names {
        add_part(Part::seize(Identifier::of(alloc, name)?), out)?;
    }
    Ok(())
}

/// Adds what is seized.
pub(crate) fn add_seized(alloc: Global, passed: &Passed, out: &mut List<Part>) -> Result<(), Memory>
    ensures { OnOk result (part_trees out.new ≡ part_trees out.old ++ seized passed.now) }
{
    match passed {
        Passed::Names(names) => add_seized_names(alloc, names.as_slice(), out),
        Passed::All(at) => add_part(Part::seize_all(*at), out),
    }
}

// Adds names that are granted.
fn add_granted_names(alloc: Global, names: &[Name], out: &mut List<Part>) -> Result<(), Memory>
    ensures { OnOk result (part_trees out.new ≡ part_trees out.old ++ map (λ n. grant (identifier n)) names.now) }
{
    for name in names {
        add_part(Part::grant(Identifier::of(alloc, name)?), out)?;
    }
    Ok(())
}

/// Adds what is granted.
pub(crate) fn add_granted(
    alloc: Global,
    passed: &Passed,
    out: &mut List<Part>,
) -> Result<(), Memory>
    ensures { OnOk result (part_trees out.new ≡ part_trees out.old ++ granted passed.now) }
{
    match passed {
        Passed::Names(names) => add_granted_names(alloc, names.as_slice(), out),
        Passed::All(at) => add_part(Part::grant_all(*at), out),
    }
}

// Adds the names in modes.
fn add_modes(alloc: Global, modes: &[Mode], out: &mut List<Mention>) -> Result<(), Memory>
    ensures { OnOk result (out.new ≡ out.old ++ flat_map mentions_of_mode (map mode_tree modes.now)) }
{
    for mode in modes {
        add_mode(alloc, mode, out)?;
    }
    Ok(())
}

// Adds the names in the modes of a signal's parts.
fn add_some_modes(
    alloc: Global,
    modes: &Option<List<Mode>>,
    out: &mut List<Mention>,
) -> Result<(), Memory>
    ensures { OnOk result (out.new ≡ out.old ++ mentions_of_parts (option_map (map mode_tree) modes.now)) }
{
    match modes {
        None => Ok(()),
        Some(modes) => add_modes(alloc, modes.as_slice(), out),
    }
}

// Adds the process that a signal is for.
fn add_receiver(alloc: Global, process: &Option<Name>, out: &mut List<Part>) -> Result<(), Memory>
    ensures { OnOk result (part_trees out.new ≡ part_trees out.old ++ receiver_parts process.now) }
{
    match process {
        None => Ok(()),
        Some(process) => mention_used(alloc, Need::Process, process, out),
    }
}

// Adds the definition of a signal, and the process that it is for.
fn add_signal(alloc: Global, signal: &Signal, out: &mut List<Part>) -> Result<(), Memory>
    ensures { OnOk result (part_trees out.new ≡ part_trees out.old ++ signal_parts (signal_tree signal.now)) }
{
    let mut text = List::new(alloc);
    add_some_modes(alloc, &signal.parts, &mut text)?;
    let clause = clause_of_one(alloc, Kind::Signal, &signal.name, text)?;
    add_part(Part::define(clause), out)?;
    add_receiver(alloc, &signal.process, out)
}

/// Adds the parts of signals.
pub(crate) fn add_signals(
    alloc: Global,
    signals: &[Signal],
    out: &mut List<Part>,
) -> Result<(), Memory>
    ensures { OnOk result (part_trees out.new ≡ part_trees out.old ++ flat_map signal_parts (map signal_tree signals.now)) }
{
    for signal in signals {
        add_signal(alloc, signal, out)?;
    }
    Ok(())
}
