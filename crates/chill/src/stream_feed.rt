// A standard stream as a feed.
ghost use Rattle.std.specs.Prelude.{None};

use crate::patience::read_patiently;
use outside_ports::{Feed, PortFault};
use std::io::Read;
use std::time::Clock;

#[derive(Drop)]
pub struct StreamFeed<'a, C: Clock, R: Read> {
    clock: &'a C,
    stream: R,
    faults: u64,
}

impl<'a, C: Clock, R: Read> StreamFeed<'a, C, R> {
    pub fn new(clock: &'a C, stream: R) -> Self {
        StreamFeed {
            clock,
            stream,
            faults: 0,
        }
    }
}

impl<C: Clock, R: Read> Feed for StreamFeed<'_, C, R> {
    ghost bytes = { λ _. None };

    ghost faults = { λ f. f.faults };

    fn take(&mut self, into: &mut [u8]) -> Result<usize, PortFault> {
        match read_patiently(self.clock, &mut self.stream, into) {
            Ok(count) => Ok(count),
            Err(_) => {
                self.faults = self.faults.saturating_add(1);
                Err(PortFault)
            }
        }
    }
}
