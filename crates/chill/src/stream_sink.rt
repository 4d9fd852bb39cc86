// A standard stream as a sink.
ghost use Rattle.std.specs.Prelude.{None};

use crate::patience::write_patiently;
use outside_ports::{PortFault, Sink};
use std::io::Write;
use std::time::Clock;

#[derive(Drop)]
pub struct StreamSink<'a, C: Clock, W: Write> {
    clock: &'a C,
    stream: W,
    faults: u64,
}

impl<'a, C: Clock, W: Write> StreamSink<'a, C, W> {
    pub fn new(clock: &'a C, stream: W) -> Self {
        StreamSink {
            clock,
            stream,
            faults: 0,
        }
    }
}

impl<C: Clock, W: Write> Sink for StreamSink<'_, C, W> {
    ghost taken = { λ _. None };

    ghost faults = { λ s. s.faults };

    fn put(&mut self, piece: &[u8]) -> Result<usize, PortFault> {
        match write_patiently(self.clock, &mut self.stream, piece) {
            Ok(count) if count > 0 || piece.is_empty() => Ok(count),
            _ => {
                self.faults = self.faults.saturating_add(1);
                Err(PortFault)
            }
        }
    }
}
