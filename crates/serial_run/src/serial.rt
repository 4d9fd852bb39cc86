// The serial run of a code.
ghost use Rattle.std.specs.Prelude.{◌≡◌, ◌+◌, IfErr, IfOk, OnErr, OnOk, IfSome, IsSomeAnd, None, Some, slice_get};
ghost use Rattle.kernel_base.specs.Facts.{IsSound};
ghost use Rattle.world_model.specs.Over.{over_of};
ghost use Rattle.code_types.specs.declared.code.Code.{Code};
ghost use Rattle.code_types.specs.Runs.{Suits};
ghost use Rattle.machine_steps.specs.Views.{state_of};
ghost use Rattle.code_machine.specs.Running.{IsUp};
ghost use Rattle.serial_run.specs.Driven.{HasAllMachines, IsDriven, made_of};
ghost use Rattle.serial_run.specs.Standing.{AllStand, IsAllTaken, KeepsJournal, Spends};
ghost use Rattle.serial_run.specs.Suiting.{IsRefused, IsUnsuited, RestFrom};

use crate::runner::{fetch_all, next_from, next_listed};
use crate::serving::serve;
use crate::taking::take_all;
use crate::turns::Turns;
use crate::{Machines, Misfit, RunRefusal, Runner};
use chill_base::List;
use code_guard::Guarded;
use kernel_base::{Events, Facts, Over};
use kernel_core::Kernel;
use std::alloc::Global;

/// A run that is over: its journal, the machines of its instances as they were left, and how the run was over.
#[derive(Drop)]
pub struct Driven {
    pub events: Events,
    pub machines: Machines,
    pub over: Over,
}

// The place of the next machine that can make a burst: a listed one from a place on, or else from the first on. All are asked
// where none of these can, which then holds of each.
fn next_turn(
    kernel: &mut Kernel,
    runners: &mut [Runner],
    turns: &Turns,
) -> Result<Option<usize>, Misfit>
    ensures journal { KeepsJournal kernel.old kernel.new }
    ensures stand { IfOk result (λ place. (code : Code) → AllStand code kernel.old runners.old → AllStand code kernel.new runners.new) }
    ensures found { IfOk result (λ place. IfSome place (λ k. IsSomeAnd (slice_get runners.new k) (λ r. IsUp (state_of r.machine).mode))) }
    ensures rest { IfOk result (RestFrom kernel.new runners.new 0) }
    ensures misfit { OnErr result (IsUnsuited kernel.old runners.old) }
{
    if let Some(k) = next_listed(kernel, runners, turns.rest())? {
        return Ok(Some(k));
    }
    if let Some(k) = next_listed(kernel, runners, &turns.ready)? {
        return Ok(Some(k));
    }
    next_from(kernel, runners, 0)
}

// The run that is over, once each machine has had its answers.
fn finish(
    guarded: &Guarded,
    kernel: Kernel,
    runners: Vec<Runner>,
    over: Over,
) -> Result<Driven, Misfit>
    requires stand { AllStand guarded.now kernel runners.items }
    requires all { IsAllTaken kernel }
    requires over { over_of kernel.facts kernel.events ≡ Some over }
    ensures driven { IfOk result (λ d. IsDriven guarded.now kernel.facts d × HasAllMachines guarded.now kernel.facts d) }
    ensures misfit { OnErr result (Suits guarded.now kernel.facts → ⊥) }
{
    let mut kernel = kernel;
    let mut runners = runners;
    fetch_all(&mut kernel, &mut runners)?;
    kernel.is_run();
    Ok(Driven {
        events: kernel.into_events(),
        machines: List::from_vec(runners),
        over,
    })
}

// One turn: the next process that can go makes a burst, which is committed.
pub(crate) fn make_turn(
    guarded: &Guarded,
    kernel: &mut Kernel,
    runners: &mut [Runner],
    turns: &mut Turns,
) -> Result<(), RunRefusal>
    requires stand { AllStand guarded.now kernel.old runners.old }
    requires all { IsAllTaken kernel.old }
    requires open { over_of kernel.old.facts kernel.old.events ≡ None }
    ensures stand { OnOk result (AllStand guarded.now kernel.new runners.new) }
    ensures spends { OnOk result (Spends kernel.old kernel.new) }
    ensures made { OnOk result (made_of kernel.new.events ≡ made_of kernel.old.events + 1) }
    ensures refused { IfErr result (IsRefused guarded.now kernel.old.facts) }
{
    // The count fits its type, and so does each place behind one.
    let _count = runners.len();
    match next_turn(kernel, runners, turns)? {
        Some(k) => {
            let place = kernel.events().len();
            serve(guarded, kernel, &mut runners[k])?;
            turns.note(kernel.events(), place)?;
            turns.go_on(k);
            Ok(())
        }
        None => {
            // Somebody can go in each run that isn't over.
            kernel.is_run();
            unreachable!()
        }
    }
}

// Turns up to the end of the run.
fn make_turns(
    alloc: Global,
    guarded: &Guarded,
    kernel: &mut Kernel,
    runners: &mut Vec<Runner>,
) -> Result<Over, RunRefusal>
    requires { AllStand guarded.now kernel.old runners.old.items }
    ensures stand { OnOk result (AllStand guarded.now kernel.new runners.new.items) }
    ensures all { OnOk result (IsAllTaken kernel.new) }
    ensures over { IfOk result (λ over. over_of kernel.new.facts kernel.new.events ≡ Some over) }
    ensures facts { OnOk result (kernel.new.facts ≡ kernel.old.facts) }
    ensures refused { IfErr result (IsRefused guarded.now kernel.old.facts) }
{
    let mut turns = Turns::new(alloc);
    'turns: loop {
        let count = runners.len();
        take_all(alloc, guarded, kernel, runners)?;
        turns.add(count, runners.len())?;
        if let Some(over) = kernel.over() {
            return Ok(over);
        }
        make_turn(guarded, kernel, runners, &mut turns)?;
    }
}

/// Runs a code from facts: one burst of 256 ticks at most after another, each by the next process that can go. It is refused
/// as a misfit only where the code doesn't suit the facts.
pub fn attempt(alloc: Global, guarded: &Guarded, facts: Facts) -> Result<Driven, RunRefusal>
    requires { IsSound facts }
    ensures run { IfOk result (IsDriven guarded.now facts) }
    ensures machines { IfOk result (HasAllMachines guarded.now facts) }
    ensures refused { IfErr result (IsRefused guarded.now facts) }
{
    // What was guarded agrees, and a code that agrees has talks.
    let _code = guarded.code();
    let mut kernel = Kernel::new(alloc, facts)?;
    let mut runners = Vec::new(alloc);
    let over = make_turns(alloc, guarded, &mut kernel, &mut runners)?;
    let driven = finish(guarded, kernel, runners, over)?;
    Ok(driven)
}
