// Whether logs have the events of a journal. Each log is followed beside the journal, from its first event on.
ghost use Rattle.std.specs.Prelude.{◌≡◌, ◌+◌, ◌↔◌, Some, IfOk, IsTrue, length, nat_eq, slice_get};
ghost use Rattle.std.specs.Bool.{OnTrue, OnFalse};
ghost use Rattle.std.specs.HashMap.{get};
ghost use Rattle.worker_pool.specs.Gather.{who_of};
ghost use Rattle.worker_pool.specs.LogPlaces.{ArePassed, Denies, HasPlaces, HaveEvents, TakesNext};

use crate::log::Log;
use crate::log_places::{LogPlaces, find};
use chill_base::{Item, Memory};
use kernel_base::Event;
use std::alloc::Global;

/// The instance whose event it is.
pub fn instance_of(event: &Event) -> u32
    ensures { result ≡ who_of event.now }
{
    match event {
        Event::Did { who, .. } => *who,
        Event::Waits { who, .. } => *who,
        Event::Goes { who, .. } => *who,
        Event::Runs { who, .. } => *who,
    }
}

// Whether the next event of a log is this one, which is then passed.
fn passes(log: &Log, next: &mut usize, event: &Event) -> bool
    ensures yes { OnTrue result ((slice_get log.now.events next.old ≡ Some event.now) × (next.new ≡ next.old + 1)) }
    ensures no { OnFalse result (slice_get log.now.events next.old ≡ Some event.now → ⊥) }
{
    match log.events.as_slice().get(*next) {
        Some(found) => {
            let is_same = found.equals(event);
            if is_same {
                *next += 1;
            }
            is_same
        }
        None => false,
    }
}

// The same of the log of the event's instance.
fn takes(logs: &[Log], places: &LogPlaces, nexts: &mut Vec<usize>, event: &Event) -> bool
    requires places { HasPlaces logs.now (get nat_eq places.now) }
    requires nexts { length nexts.old.items ≡ length logs.now }
    ensures yes { OnTrue result (TakesNext logs.now nexts.old.items nexts.new.items event.now) }
    ensures no { OnFalse result (Denies logs.now nexts.old.items event.now) }
{
    match find(logs, places, instance_of(event)) {
        Some((place, log)) => passes(log, &mut nexts[place], event),
        None => false,
    }
}

// Whether each log was followed to its end.
fn are_passed(logs: &[Log], nexts: &[usize]) -> bool
    requires { length nexts.now ≡ length logs.now }
    ensures { IsTrue result ↔ ArePassed logs.now nexts.now }
{
    for place in 0..logs.len() {
        if nexts[place] < logs[place].events.len() {
            return false;
        }
    }
    true
}

/// Whether each log has the events of its instance, and each event is of an instance with a log.
pub fn have_events(
    alloc: Global,
    logs: &[Log],
    places: &LogPlaces,
    journal: &[Event],
) -> Result<bool, Memory>
    requires { HasPlaces logs.now (get nat_eq places.now) }
    ensures { IfOk result (λ b. IsTrue b ↔ HaveEvents journal.now logs.now) }
{
    let mut nexts = vec![in alloc; 0usize; logs.len()]?;
    for event in journal {
        if !takes(logs, places, &mut nexts, event) {
            return Ok(false);
        }
    }
    Ok(are_passed(logs, &nexts))
}
