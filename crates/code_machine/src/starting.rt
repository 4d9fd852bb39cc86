// Processes that are started run on their code.
ghost use Rattle.std.specs.Prelude.{◌≡◌, IfOk, IsSomeAnd, Some, length, slice_get};
ghost use Rattle.code_types.specs.Talk.{start_of};
ghost use Rattle.machine_steps.specs.Views.{state_of};
ghost use Rattle.code_machine.specs.Running.{RunsOn};

use chill_base::{Memory, Scalars};
use code_guard::Guarded;
use machine_steps::Process;
use std::alloc::Global;

/// A process at the first instruction of a body of the code, which runs on it.
pub fn start_running(
    alloc: Global,
    guarded: &Guarded,
    instance: u32,
    process: u32,
    scalars: Scalars,
) -> Result<Process, Memory>
    requires { IsSomeAnd (slice_get guarded.now.bodies process) (λ row. row.params ≡ length scalars) }
    ensures starts { IfOk result (λ p. start_of guarded.now instance process scalars ≡ Some (state_of p)) }
    ensures runs { IfOk result (RunsOn guarded.now) }
{
    // The number of instructions fits 64 bits, and so does each place behind one.
    let _count = guarded.code().instrs.len();
    let started = Process::start(alloc, guarded, instance, process, scalars)?;
    Ok(started)
}
