// Calls of the top call.
ghost use Rattle.std.specs.Prelude.{◌<◌, ◌^◌, length};

use crate::ports::Ports;
use chill_base::{Memory, Numbers};
use chill_top::{Outcome, chill};
use kernel_base::Events;
use outside_ports::{Gate, OpenGate, Watcher};
use std::alloc::Global;
use std::sync::Wait;
use std::thread::Threads;

/// The watchers of a call.
pub type Watchers = Vec<Box<dyn Watcher>>;

/// What a call answered, but for its code and its machines.
#[derive(Drop)]
pub struct Answered {
    pub status: u8,
    pub events: Events,
    pub dropped: Numbers,
}

// The words of a line.
fn words_of(alloc: Global, line: &str) -> Result<Vec<String>, Memory> {
    let mut words = Vec::new(alloc);
    for word in line.split(' ') {
        words.push(String::from_str(alloc, word)?)?;
    }
    Ok(words)
}

impl Answered {
    fn of(outcome: Outcome) -> Answered {
        let Outcome {
            status,
            events,
            dropped,
            ..
        } = outcome;
        Answered {
            status,
            events,
            dropped,
        }
    }
}

/// A call with the words of a line.
pub fn call<R: Threads + Wait + Sync, G: Gate>(
    rt: &R,
    alloc: Global,
    line: &str,
    ports: &mut Ports,
    gate: &G,
    watchers: &mut Watchers,
) -> Result<Answered, Memory>
    requires { length watchers.old.items < 2 ^ 32 }
{
    let words = words_of(alloc, line)?;
    let Ports {
        library,
        input,
        out,
        err,
    } = ports;
    Ok(Answered::of(chill(rt, alloc, &words, library, input, out, err, gate, watchers)))
}

/// A call that nobody watches, at an open gate: its status.
pub fn status_of<R: Threads + Wait + Sync>(
    rt: &R,
    alloc: Global,
    line: &str,
    ports: &mut Ports,
) -> Result<u8, Memory> {
    let mut watchers = Vec::new(alloc);
    Ok(call(rt, alloc, line, ports, &OpenGate, &mut watchers)?.status)
}
