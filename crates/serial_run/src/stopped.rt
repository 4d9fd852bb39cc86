// A run that is stopped behind so many commits.
ghost use Rattle.std.specs.Prelude.{◌≡◌, ◌≤◌, IfErr, IfOk, OnOk, None};
ghost use Rattle.kernel_base.specs.Facts.{IsSound};
ghost use Rattle.world_model.specs.Over.{over_of};
ghost use Rattle.serial_run.specs.Driven.{IsStopped, made_of};
ghost use Rattle.serial_run.specs.Standing.{AllStand};
ghost use Rattle.serial_run.specs.Suiting.{IsRefused};

use crate::serial::make_turn;
use crate::taking::take_all;
use crate::turns::Turns;
use crate::{RunRefusal, Runner};
use code_guard::Guarded;
use kernel_base::{Events, Facts, Over};
use kernel_core::Kernel;
use std::alloc::Global;

/// A run up to where it was stopped, or to its end.
#[derive(Drop)]
pub struct Stopped {
    pub events: Events,
    /// How many of the events are no goings on: what was committed, and the notes of whole bursts.
    pub made: u64,
    /// How the run was over, if it was.
    pub over: Option<Over>,
}

// Turns up to the end of the run, but at most so many: how many there were.
fn make_some_turns(
    alloc: Global,
    guarded: &Guarded,
    kernel: &mut Kernel,
    runners: &mut Vec<Runner>,
    most: u64,
) -> Result<u64, RunRefusal>
    requires stand { AllStand guarded.now kernel.old runners.old.items }
    requires none { made_of kernel.old.events ≡ 0 }
    ensures stand { OnOk result (AllStand guarded.now kernel.new runners.new.items) }
    ensures made { IfOk result (λ made. made ≡ made_of kernel.new.events) }
    ensures few { IfOk result (λ made. made ≤ most) }
    ensures all { IfOk result (λ made. over_of kernel.new.facts kernel.new.events ≡ None → made ≡ most) }
    ensures facts { OnOk result (kernel.new.facts ≡ kernel.old.facts) }
    ensures refused { IfErr result (IsRefused guarded.now kernel.old.facts) }
{
    let mut turns = Turns::new(alloc);
    for made in 0..most {
        let count = runners.len();
        take_all(alloc, guarded, kernel, runners)?;
        turns.add(count, runners.len())?;
        if kernel.over().is_some() {
            return Ok(made);
        }
        make_turn(guarded, kernel, runners, &mut turns)?;
    }
    Ok(most)
}

/// Runs a code from facts as `attempt` does, up to so many commits and notes of whole bursts. It is refused as a misfit only where
/// the code doesn't suit the facts.
pub fn attempt_some(
    alloc: Global,
    guarded: &Guarded,
    facts: Facts,
    most: u64,
) -> Result<Stopped, RunRefusal>
    requires { IsSound facts }
    ensures stopped { IfOk result (IsStopped guarded.now facts most) }
    ensures refused { IfErr result (IsRefused guarded.now facts) }
{
    // What was guarded agrees, and a code that agrees has talks.
    let _code = guarded.code();
    let mut kernel = Kernel::new(alloc, facts)?;
    let mut runners = Vec::new(alloc);
    let made = make_some_turns(alloc, guarded, &mut kernel, &mut runners, most)?;
    let over = kernel.over();
    Ok(Stopped {
        events: kernel.into_events(),
        made,
        over,
    })
}
