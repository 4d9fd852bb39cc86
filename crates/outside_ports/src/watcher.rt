// What looks on at the events of a journal.
ghost use Rattle.std.specs.Prelude.{◌≡◌, ◌++◌, OnOk, OnErr};
ghost use Rattle.outside_ports.specs.Watcher.{Sees, Watching, told};

use chill_base::{Memory, Text};
use kernel_base::Event;

/// Why a watcher didn't see an event.
#[derive(Clone, Copy, Debug, PartialEq, Eq)]
pub enum WatchFault {
    /// It refuses the event.
    Refused,
    /// There was no memory.
    Memory,
}

/// What looks on at the events of a journal, one by one, and tells of them at the end.
pub trait Watcher: Drop {
    /// Its state, the step of that state at an event, the events that it refuses in a state, and the text of a state.
    ghost watching: { Self → Watching };

    /// Is shown an event. Where it sees it, its state makes the step; else it stays as it was.
    fn see(&mut self, event: &Event) -> Result<(), WatchFault>
        ensures sees { Sees (watching self.old) event.now result (watching self.new) };

    /// Appends the text of its state. After want of memory the text is as before.
    fn tell(&self, text: &mut Text) -> Result<(), Memory>
        ensures tells { OnOk result (text.new ≡ text.old ++ told (watching self.now)) }
        ensures kept { OnErr result (text.new ≡ text.old) };
}
