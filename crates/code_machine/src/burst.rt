// Bursts: steps up to a request or a number of ticks.
ghost use Rattle.std.specs.Prelude.{◌≡◌, ◌≤◌, IfOk, OnErr};
ghost use Rattle.machine_steps.specs.Views.{state_of};
ghost use Rattle.code_machine.specs.Running.{Bursts, IsUnderway, IsUp, RunsOn};

use crate::stepping::step;
use chill_base::Memory;
use code_types::Code;
use kernel_base::Request;
use machine_steps::{Process, Room, Stepped, greatest_height};

/// Why a burst is over.
#[derive(Drop)]
pub enum Stop {
    /// A request is asked, after so many ticks.
    Asks { ticks: u32, request: Request },
    /// As many ticks were made as were allowed, and no request was asked.
    Paused { ticks: u32 },
}

// Makes steps up to a request or so many ticks, in room that was taken before.
fn make_steps(process: &mut Process, code: &Code, room: &mut Room, most: u32) -> Stop
    requires { IsUnderway code.now most (state_of process.old) 0 process.old room.old }
    ensures bursts { Bursts code.now most (state_of process.old) (state_of process.new) result }
    ensures runs { RunsOn code.now process.new }
{
    let mut ticks = 0;
    'steps: loop {
        match step(process, code, room) {
            Stepped::GoesOn => {}
            Stepped::Ticks => {
                ticks += 1;
                if ticks == most {
                    return Stop::Paused { ticks };
                }
            }
            Stepped::Asks(request) => return Stop::Asks { ticks, request },
            Stepped::Wants => unreachable!(),
        }
    }
}

/// Makes a burst of at most so many ticks.
pub fn burst_of(process: &mut Process, code: &Code, most: u32) -> Result<Stop, Memory>
    requires runs { RunsOn code.now process.old }
    requires up { IsUp (state_of process.old).mode }
    requires most { 1 ≤ most }
    ensures bursts { IfOk result (Bursts code.now most (state_of process.old) (state_of process.new)) }
    ensures kept { OnErr result (state_of process.new ≡ state_of process.old) }
    ensures runs { RunsOn code.now process.new }
{
    let alloc = *process.regions.allocator();
    let mut room = Room::new(alloc, greatest_height(code) as usize)?;
    process.regions.reserve(1)?;
    Ok(make_steps(process, code, &mut room, most))
}
