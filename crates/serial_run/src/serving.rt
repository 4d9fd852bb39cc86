// Bursts, and what is committed of them.
ghost use Rattle.std.specs.Prelude.{◌≡◌, ◌<◌, IfErr, IfOk, OnErr, OnOk, length};
ghost use Rattle.machine_steps.specs.Views.{state_of};
ghost use Rattle.code_machine.specs.Running.{IsUp};
ghost use Rattle.kernel_steps.specs.View.{Commits, Pauses, Keeps};
ghost use Rattle.serial_run.specs.Standing.{Stands, Advances, IsAnswered, TakesReply};
ghost use Rattle.serial_run.specs.Suiting.{IsUnserved, RefusesReply};

use crate::{Misfit, RunRefusal, Runner};
use chill_base::Memory;
use code_guard::Guarded;
use code_machine::{Machine, Stop};
use kernel_base::Request;
use kernel_core::{Kernel, Reply};

/// Commits a request of `who`, in room that it makes first. Where there is no memory for it the kernel is as it was.
pub fn commit(kernel: &mut Kernel, who: u32, ticks: u32, request: Request) -> Result<Reply, Memory>
    ensures commits { IfOk result (Commits kernel.old kernel.new who ticks request) }
    ensures keeps { OnErr result (Keeps kernel.old kernel.new) }
{
    kernel.room(who, &request)?;
    Ok(kernel.commit(who, ticks, request))
}

/// Notes a whole burst of `who`, in room that it makes first. Where there is no memory for it the kernel is as it was.
pub fn pause(kernel: &mut Kernel, who: u32, ticks: u32) -> Result<Reply, Memory>
    requires { ticks ≡ 256 }
    ensures pauses { IfOk result (Pauses kernel.old kernel.new who ticks) }
    ensures keeps { OnErr result (Keeps kernel.old kernel.new) }
{
    kernel.room(who, &Request::Get)?;
    Ok(kernel.pause(who, ticks))
}

/// Hands over the answer to a request, where it comes at once.
pub fn take_reply(machine: &mut Machine, reply: Reply) -> Result<(), Misfit>
    ensures takes { OnOk result (TakesReply machine.old machine.new reply) }
    ensures misfit { OnErr result (RefusesReply machine.old reply) }
{
    match reply {
        Reply::Now(answer) => {
            if !machine.can_answer(&answer) {
                return Err(Misfit);
            }
            machine.answer(answer);
            Ok(())
        }
        Reply::Later => Ok(()),
        Reply::Over | Reply::Stranger => Err(Misfit),
    }
}

// Whether a burst was noted.
fn take_note(reply: Reply) -> Result<(), Misfit>
    ensures answered { OnOk result (IsAnswered reply) }
    ensures misfit { OnErr result (IsAnswered reply → ⊥) }
{
    match reply {
        Reply::Now(_) => Ok(()),
        Reply::Later | Reply::Over | Reply::Stranger => Err(Misfit),
    }
}

/// Makes one burst of a machine that can make one, commits what it came to, and hands over the answer where it comes at once.
pub fn serve(guarded: &Guarded, kernel: &mut Kernel, runner: &mut Runner) -> Result<(), RunRefusal>
    requires stands { Stands guarded.now kernel.old runner.old }
    requires up { IsUp (state_of runner.old.machine).mode }
    requires place { runner.old.instance < length kernel.old.unfetched }
    ensures instance { runner.new.instance ≡ runner.old.instance }
    ensures advances { OnOk result (Advances guarded.now kernel.old kernel.new runner.old.instance) }
    ensures stands { OnOk result (Stands guarded.now kernel.new runner.new) }
    ensures unserved { IfErr result (IsUnserved guarded.now kernel.old) }
{
    match runner.machine.burst(guarded, 256)? {
        Stop::Asks { ticks, request } => {
            let reply = commit(kernel, runner.instance, ticks, request)?;
            kernel.is_run();
            take_reply(&mut runner.machine, reply)?;
            Ok(())
        }
        Stop::Paused { ticks } => {
            let reply = pause(kernel, runner.instance, ticks)?;
            kernel.is_run();
            take_note(reply)?;
            Ok(())
        }
    }
}
