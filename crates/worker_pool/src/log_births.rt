// Whether logs have the processes and the arguments with which their instances were born.
ghost use Rattle.std.specs.Prelude.{◌≡◌, ◌↔◌, ℕ, [], false, true, IfOk, IsTrue, length, nat_eq};
ghost use Rattle.std.specs.Bool.{OnTrue, OnFalse};
ghost use Rattle.std.specs.HashMap.{get};
ghost use Rattle.kernel_base.specs.declared.event.Event.TheVariants.{Did};
ghost use Rattle.std.specs.declared.option.Option.{Option};
ghost use Rattle.worker_pool.specs.Gather.{birth_of};
ghost use Rattle.worker_pool.specs.LogPlaces.{Admits, AreStarted, Begets, HasPlaces, HaveBirths, Rejects, birth_with};

use crate::log::Log;
use crate::log_places::{LogPlaces, find};
use chill_base::{Item, Memory, Scalars};
use kernel_base::{Answer, Event, Request};
use std::alloc::Global;

/// An instance that is started, as this process with these arguments.
#[derive(Clone, Copy)]
pub(crate) struct Start<'a> {
    pub instance: u32,
    pub process: u32,
    pub scalars: &'a Scalars,
}

// The start that was asked and answered so.
fn start_with<'a>(request: &'a Request, answer: &Answer) -> Option<Start<'a>>
    ensures { (who ticks : ℕ) (refill : Option ℕ) → Begets (Did who ticks request.now answer.now refill) result }
{
    match request {
        Request::Start { process, scalars } => match answer {
            Answer::Instance(made) => Some(Start {
                instance: *made,
                process: *process,
                scalars,
            }),
            _ => None,
        },
        _ => None,
    }
}

// The start that an event is.
fn start_in(event: &Event) -> Option<Start<'_>>
    ensures { Begets event.now result }
{
    match event {
        Event::Did {
            request,
            answer,
            ..
        } => start_with(request, answer),
        _ => None,
    }
}

// Whether a log is of a process that was started so.
fn is_of(log: &Log, start: &Start<'_>) -> bool
    ensures { IsTrue result ↔ (birth_of log.now ≡ birth_with start.now) }
{
    log.process == start.process && log.scalars.equals(start.scalars)
}

// Whether a log is of the outermost process.
fn is_outermost(log: &Log) -> bool
    ensures { IsTrue result ↔ (birth_of log.now ≡ record { process = 0; arguments = [] }) }
{
    log.process == 0 && log.scalars.is_empty()
}

// Whether a log that wasn't started is started so; it is started from now on.
fn starts(log: &Log, is_started: &mut bool, start: &Start<'_>) -> bool
    ensures now { is_started.new ≡ true }
    ensures yes { OnTrue result (is_started.old ≡ false → birth_of log.now ≡ birth_with start.now) }
    ensures no { OnFalse result ((is_started.old ≡ false) × (birth_of log.now ≡ birth_with start.now → ⊥)) }
{
    let was_started = *is_started;
    *is_started = true;
    was_started || is_of(log, start)
}

// Whether an event starts no log otherwise than it says. A start of instance 1, the outermost process, counts for nothing.
fn admits(logs: &[Log], places: &LogPlaces, started: &mut Vec<bool>, event: &Event) -> bool
    requires places { HasPlaces logs.now (get nat_eq places.now) }
    requires started { length started.old.items ≡ length logs.now }
    ensures count { length started.new.items ≡ length started.old.items }
    ensures yes { OnTrue result (Admits logs.now started.old.items started.new.items event.now) }
    ensures no { OnFalse result (Rejects logs.now started.old.items event.now) }
{
    match start_in(event) {
        Some(start) => {
            if start.instance == 1 {
                return true;
            }
            match find(logs, places, start.instance) {
                Some((place, log)) => starts(log, &mut started[place], &start),
                None => true,
            }
        }
        None => true,
    }
}

// Whether each log was started, or is of the outermost process.
fn are_started(logs: &[Log], started: &[bool]) -> bool
    requires { length started.now ≡ length logs.now }
    ensures { IsTrue result ↔ AreStarted logs.now started.now }
{
    for place in 0..logs.len() {
        let log = &logs[place];
        let is_right = if log.instance == 1 {
            is_outermost(log)
        } else {
            started[place]
        };
        if !is_right {
            return false;
        }
    }
    true
}

/// Whether each log's instance was born as the log says.
pub fn have_births(
    alloc: Global,
    logs: &[Log],
    places: &LogPlaces,
    journal: &[Event],
) -> Result<bool, Memory>
    requires { HasPlaces logs.now (get nat_eq places.now) }
    ensures { IfOk result (λ b. IsTrue b ↔ HaveBirths journal.now logs.now) }
{
    let mut started = vec![in alloc; false; logs.len()]?;
    for event in journal {
        if !admits(logs, places, &mut started, event) {
            return Ok(false);
        }
    }
    Ok(are_started(logs, &started))
}
