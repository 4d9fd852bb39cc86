// Counts the events of a journal by their kinds.
ghost use Rattle.std.specs.Prelude.{◌≡◌, [], ◌∷◌, IsOk};
ghost use Rattle.outside_ports.specs.Watcher.{Sees};
ghost use Rattle.watchers.specs.Counts.{event_counter};

use crate::text::append;
use chill_base::{Memory, Text};
use kernel_base::Event;
use outside_ports::{WatchFault, Watcher};
use std::marker::Model;

/// How many events of each kind there were. A count stays at the end of its type. No event is refused.
#[derive(Drop)]
pub struct EventCounter {
    did: u64,
    waits: u64,
    goes: u64,
    runs: u64,
}

impl Model for EventCounter {
    ghost use Rattle.std.specs.Prelude.{ℕ, List, [], ◌∷◌};

    ghost Value = { List ℕ };

    ghost view = { λ c. c.did ∷ c.waits ∷ c.goes ∷ c.runs ∷ [] };
}

impl EventCounter {
    /// One that has seen no event.
    pub fn new() -> EventCounter
        ensures { result ≡ 0 ∷ 0 ∷ 0 ∷ 0 ∷ [] }
    {
        EventCounter {
            did: 0,
            waits: 0,
            goes: 0,
            runs: 0,
        }
    }
}

impl Watcher for EventCounter {
    ghost watching = { event_counter };

    // It takes no memory.
    fn see(&mut self, event: &Event) -> Result<(), WatchFault>
        ensures sees { Sees (event_counter self.old) event.now result (event_counter self.new) }
        ensures always { IsOk result }
    {
        match event {
            Event::Did { .. } => self.did = self.did.saturating_add(1),
            Event::Waits { .. } => self.waits = self.waits.saturating_add(1),
            Event::Goes { .. } => self.goes = self.goes.saturating_add(1),
            Event::Runs { .. } => self.runs = self.runs.saturating_add(1),
        }
        Ok(())
    }

    fn tell(&self, text: &mut Text) -> Result<(), Memory> {
        let (did, waits, goes, runs) = (self.did, self.waits, self.goes, self.runs);
        let lines = format!(in text.allocator();
            "did {did}\nwaits {waits}\ngoes {goes}\nruns {runs}\n"
        )?;
        append(text, lines.as_bytes())
    }
}
