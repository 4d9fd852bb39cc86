// The journal and its units (our own choice).
ghost use Rattle.std.specs.Prelude.{◌≡◌, ◌+◌, ◌<◌, ◌≤◌, ◌++◌, ◌∷◌, [], OnOk};
ghost use Rattle.journal_book.specs.Book.{units_up_to};

use chill_base::{List, Memory};
use kernel_base::{Event, Events, event_units};
use std::alloc::Global;
use std::marker::Model;

/// The events of a run, in order.
#[derive(Drop)]
pub struct Journal {
    events: Vec<Event>,
    units: u64,
}

impl Model for Journal {
    ghost use Rattle.std.specs.Prelude.{◌≡◌};
    ghost use Rattle.kernel_lists.specs.Room.{spare};
    ghost use Rattle.journal_book.specs.Book.{Book, units_up_to};

    ghost Value = { Book };

    ghost view = { λ j. record { events = j.events.items; spare = spare j.events } };

    ghost invariant = { λ j. j.units ≡ units_up_to j.events.items };
}

impl Journal {
    /// The empty journal. It takes no memory.
    pub fn new(alloc: Global) -> Journal
        ensures { result.events ≡ [] }
    {
        Journal {
            events: Vec::new(alloc),
            units: 0,
        }
    }

    /// Makes room for `n` more events.
    pub fn reserve(&mut self, n: usize) -> Result<(), Memory>
        ensures room { OnOk result (n ≤ self.new.spare) }
        ensures events { self.new.events ≡ self.old.events }
        ensures spare { self.old.spare ≤ self.new.spare }
    {
        self.events.reserve(n)?;
        Ok(())
    }

    /// Puts an event behind the last. It takes no memory.
    pub fn append(&mut self, event: Event)
        requires { 0 < self.old.spare }
        ensures events { self.new.events ≡ self.old.events ++ event ∷ [] }
        ensures spare { self.old.spare ≤ self.new.spare + 1 }
    {
        self.units = self.units.saturating_add(event_units(&event));
        self.events.push_reserved(event);
    }

    /// The units of the events, or 2^64 - 1 where there are more.
    pub fn units(&self) -> u64
        ensures { result ≡ units_up_to self.now.events }
    {
        self.units
    }

    /// The events in order.
    pub fn events(&self) -> &[Event]
        ensures { result.now ≡ self.now.events }
    {
        &self.events
    }

    /// Gives up the journal for its events. It takes no memory.
    pub fn into_events(self) -> Events
        ensures { result ≡ self.events }
    {
        List::from_vec(self.events)
    }
}
