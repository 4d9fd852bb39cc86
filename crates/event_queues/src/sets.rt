// Events and those that are delayed on them (Z.200, chapter on concurrent execution).
ghost use Rattle.std.specs.Prelude.{◌≡◌, ℕ, ◌+◌, ◌<◌, ◌≤◌, [], None, Some, option_copied, length, replicate, slice_get, slice_index_or, IfOk, IfSome, IfNone, OnOk};
ghost use Rattle.std.specs.Option.{option_map, option_and_then};
ghost use Rattle.kernel_lists.specs.Once.{entry_of};
ghost use Rattle.wait_queues.specs.Waiting.{AreOrdered, AreTied, waiter_of, waiting_at};
ghost use Rattle.event_queues.specs.Delayed.{Comes, NobodyOn, Wakes, delayed_on, events_of, is_full_for, is_full_on, listed_in};

use chill_base::{Item, Lengths, Memory};
use indexmap::IndexMap;
use kernel_base::{Alternative, Alternatives};
use std::alloc::Global;
use std::marker::Model;
use wait_queues::{WaitQueues, Waiters};
use world_model::number_at;

/// What a process that is delayed waits for, and its priority.
#[derive(Drop)]
pub struct Delayed {
    pub events: Alternatives,
    pub priority: u32,
}

/// The events, and who is delayed on them: by process what it waits for, and by event those that wait.
#[derive(Drop)]
pub struct EventSets {
    lengths: Lengths,
    delayed: IndexMap<u32, Delayed>,
    waits: WaitQueues,
}

impl Model for EventSets {
    ghost use Rattle.std.specs.Prelude.{min};
    ghost use Rattle.indexmap.specs.IndexMap.{spare};
    ghost use Rattle.event_queues.specs.Delayed.{AreKept, Sets};

    ghost Value = { Sets };

    ghost view = { λ s. record {
      lengths = s.lengths;
      delayed = s.delayed.entries;
      waiting = s.waits.waiting;
      spare = min (spare s.delayed) s.waits.room;
    } };

    ghost invariant = { λ s. AreKept s.lengths s.delayed.entries s.waits.waiting };
}

impl EventSets {
    /// The events of these lengths, on which nobody is delayed.
    pub fn new(alloc: Global, lengths: &Lengths) -> Result<EventSets, Memory>
        ensures lengths { IfOk result (λ s. s.lengths ≡ lengths.now) }
        ensures delayed { IfOk result (λ s. s.delayed ≡ []) }
        ensures waiting { IfOk result (λ s. s.waiting ≡ replicate (length lengths.now) []) }
    {
        Ok(EventSets {
            lengths: lengths.copy()?,
            delayed: IndexMap::new(alloc),
            waits: WaitQueues::new(alloc, lengths.len())?,
        })
    }

    /// Makes room for `n` changes.
    pub fn reserve(&mut self, n: u32) -> Result<(), Memory>
        ensures room { OnOk result (n ≤ self.new.spare) }
        ensures lengths { self.new.lengths ≡ self.old.lengths }
        ensures delayed { self.new.delayed ≡ self.old.delayed }
        ensures waiting { self.new.waiting ≡ self.old.waiting }
        ensures spare { self.old.spare ≤ self.new.spare }
    {
        self.delayed.reserve(n as usize)?;
        self.waits.reserve(n as usize)?;
        Ok(())
    }

    /// On each event exactly those wait that list it, each once, by falling priority.
    pub fn each_waits(&self)
        ensures each { length self.now.waiting ≡ length self.now.lengths }
        ensures tied { AreTied delayed_on self.now.delayed self.now.waiting }
        ensures order { AreOrdered self.now.waiting }
    {
        self.waits.in_order();
    }

    /// Those that are delayed on an event, in the order in which CONTINUE chooses them.
    pub fn waiting(&self, event: u32) -> &Waiters
        requires { event < length self.now.lengths }
        ensures is { slice_get self.now.waiting event ≡ Some result.now.waiters }
        ensures exactly { (who : ℕ) → entry_of waiter_of result.now.waiters who ≡ option_and_then (delayed_on event who) (listed_in self.now.delayed who) }
    {
        self.waits.at(event)
    }

    /// What a process is delayed on; none exactly where it is delayed on nothing.
    pub fn listed(&self, who: u32) -> Option<&Alternatives>
        ensures { option_copied result ≡ option_map events_of (listed_in self.now.delayed who) }
    {
        match self.delayed.get(&who) {
            Some(delayed) => Some(&delayed.events),
            None => None,
        }
    }

    /// Whether one of the events has as many delayed processes as its length.
    pub fn full(&self, events: &Alternatives) -> bool
        ensures { result ≡ is_full_for self.now events.now }
    {
        events.as_slice().iter().any(|event| is_full_at(
            self.lengths.as_slice(),
            &self.waits,
            event.thing,
        ))
    }

    /// A process is delayed that is not delayed already. On each event it comes to wait directly behind those of its own
    /// or a higher priority. It takes no memory.
    pub fn delay(&mut self, who: u32, events: Alternatives, priority: u32)
        requires spare { 0 < self.old.spare }
        requires once { listed_in self.old.delayed who ≡ None }
        ensures comes { Comes self.old self.new who (record { events = events; priority = priority }) }
        ensures lengths { self.new.lengths ≡ self.old.lengths }
        ensures spare { self.old.spare ≤ self.new.spare + 1 }
    {
        self.waits.join(who, priority, events.as_slice());
        let _none = self
            .delayed
            .insert(who, Delayed { events, priority })
            .unwrap();
    }

    /// Takes out the process that CONTINUE chooses, with the number of the alternative through which it goes on; none
    /// exactly where nobody is delayed on the event. It takes no memory.
    pub fn wake(&mut self, event: u32) -> Option<Alternative>
        requires { event < length self.old.lengths }
        ensures some { IfSome result (Wakes event self.old self.new) }
        ensures none { IfNone result (NobodyOn event self.old.delayed × (self.new.delayed ≡ self.old.delayed) × (self.new.waiting ≡ self.old.waiting)) }
        ensures lengths { self.new.lengths ≡ self.old.lengths }
        ensures spare { self.old.spare ≤ self.new.spare }
    {
        self.waits.in_order();
        let first = self.waits.at(event).first()?;
        let woken = self.delayed.swap_remove(&first.who).unwrap();
        self.waits.leave(first.who, woken.events.as_slice());
        Some(Alternative {
            thing: first.who,
            number: first.number,
        })
    }
}

fn is_full_at(lengths: &[Option<u32>], waits: &WaitQueues, event: u32) -> bool
    ensures { result ≡ is_full_on lengths.now waits.now.waiting event }
{
    match number_at(lengths, event) {
        Some(most) => most as usize <= waits.count(event),
        None => false,
    }
}
