// Watchers that refuse an event, or have no memory.
ghost use Rattle.std.specs.Prelude.{[], ◌∷◌, ◌-◌, ◌==◌, false, slice_index};

use chill_base::{Memory, Text};
use kernel_base::Event;
use outside_ports::{WatchFault, Watcher};

/// Sees this many more events, refuses the one behind them, and tells one byte.
#[derive(Drop)]
pub struct Refusing {
    pub left: u32,
}

impl Watcher for Refusing {
    ghost watching = { λ w. record {
      state = w.left ∷ [];
      step = λ state event. (slice_index state 0 - 1) ∷ [];
      refuses = λ state event. slice_index state 0 == 0;
      text = λ state. 114 ∷ [];
    } };

    fn see(&mut self, _: &Event) -> Result<(), WatchFault> {
        if self.left == 0 {
            return Err(WatchFault::Refused);
        }
        self.left -= 1;
        Ok(())
    }

    fn tell(&self, text: &mut Text) -> Result<(), Memory> {
        text.push(b'r')
    }
}

/// Has no memory for an event, and tells one byte.
#[derive(Drop)]
pub struct OutOfMemory;

impl Watcher for OutOfMemory {
    ghost watching = { λ w. record {
      state = [];
      step = λ state event. state;
      refuses = λ state event. false;
      text = λ state. 112 ∷ [];
    } };

    fn see(&mut self, _: &Event) -> Result<(), WatchFault> {
        Err(WatchFault::Memory)
    }

    fn tell(&self, text: &mut Text) -> Result<(), Memory> {
        text.push(b'p')
    }
}
