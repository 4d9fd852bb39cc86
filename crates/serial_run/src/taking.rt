// Processes that were started get their machines.
ghost use Rattle.std.specs.Prelude.{◌≡◌, IfErr, IfOk, OnOk};
ghost use Rattle.serial_run.specs.Standing.{AllStand, IsAllTaken, KeepsEvents, StartsAs};
ghost use Rattle.serial_run.specs.Suiting.{IsRefused, IsUnstarted};

use crate::{RunRefusal, Runner};
use code_guard::Guarded;
use code_machine::Machine;
use kernel_core::{Kernel, New};
use std::alloc::Global;

/// The machine of a process that was started.
pub fn start(alloc: Global, guarded: &Guarded, new: New) -> Result<Runner, RunRefusal>
    ensures starts { IfOk result (StartsAs guarded.now new) }
    ensures unstarted { IfErr result (IsUnstarted guarded.now new) }
{
    if !Machine::can_start(guarded, new.process, &new.scalars) {
        return Err(RunRefusal::Misfit);
    }
    let machine = Machine::start(alloc, guarded, new.instance, new.process, new.scalars)?;
    Ok(Runner {
        instance: new.instance,
        machine,
    })
}

/// Gives each process that was started, and wasn't taken yet, its machine.
pub fn take_all(
    alloc: Global,
    guarded: &Guarded,
    kernel: &mut Kernel,
    runners: &mut Vec<Runner>,
) -> Result<(), RunRefusal>
    requires { AllStand guarded.now kernel.old runners.old.items }
    ensures stand { OnOk result (AllStand guarded.now kernel.new runners.new.items) }
    ensures all { OnOk result (IsAllTaken kernel.new) }
    ensures events { KeepsEvents kernel.old kernel.new }
    ensures refused { IfErr result (IsRefused guarded.now kernel.old.facts) }
{
    'takes: loop {
        match kernel.take_new() {
            Some(new) => {
                let runner = start(alloc, guarded, new)?;
                match runners.push(runner) {
                    Ok(()) => {}
                    Err(_) => return Err(RunRefusal::Memory),
                }
            }
            None => return Ok(()),
        }
    }
}
