// A sink in memory, whose faults are chosen beforehand.
ghost use Rattle.std.specs.Prelude.{◌≡◌, ◌<◌, ◌≤◌, ◌↔◌, [], length, IfOk, Some, IsErr, IsTrue};
ghost use Rattle.outside_ports.specs.Faults.{HasCause};
ghost use Rattle.outside_ports.specs.MemorySink.{RefusesPut, amount_taken, new_sink, sink_after};
ghost use Rattle.outside_ports.specs.Sink.{Takes};

use crate::memory_library::is_to_fail;
use crate::{PortFault, Sink};
use chill_base::{Memory, Numbers};
use std::alloc::Global;
use std::marker::Model;

/// A sink in memory. A put takes at most `piece` bytes, and at most what is left of `room`; where nothing is left,
/// a put of a piece that isn't empty is a fault. Puts are numbered from 1, and one whose number stands in `fails`
/// is a fault.
#[derive(Drop)]
pub struct MemorySink {
    taken: Vec<u8>,
    piece: usize,
    room: usize,
    fails: Numbers,
    calls: u64,
    faults: u64,
}

impl Model for MemorySink {
    ghost use Rattle.std.specs.Prelude.{◌<◌, ◌≤◌, vec_capacity};
    ghost use Rattle.outside_ports.specs.MemorySink.{SinkState};

    ghost Value = { SinkState };

    ghost view = { λ s. record { taken = s.taken.items; piece = s.piece; room = s.room; fails = s.fails; calls = s.calls; faults = s.faults } };

    ghost invariant = { λ s. (0 < s.piece) × (s.room ≤ vec_capacity s.taken) };
}

impl MemorySink {
    /// An empty sink. It takes the memory for all its room.
    pub fn new(
        alloc: Global,
        piece: usize,
        room: usize,
        fails: Numbers,
    ) -> Result<MemorySink, Memory>
        requires { 0 < piece }
        ensures { IfOk result (λ sink. sink ≡ new_sink piece room fails) }
    {
        let taken = Vec::with_capacity(alloc, room)?;
        Ok(MemorySink {
            taken,
            piece,
            room,
            fails,
            calls: 0,
            faults: 0,
        })
    }

    /// The bytes taken so far.
    pub fn taken(&self) -> &[u8]
        ensures { result.now ≡ self.now.taken }
    {
        &self.taken
    }
}

// Whether bytes come and no room is left for them.
fn finds_no_room(bytes: usize, room: usize, taken: usize) -> bool
    ensures { IsTrue result ↔ ((0 < bytes) × (room ≤ taken)) }
{
    0 < bytes && room <= taken
}

impl Sink for MemorySink {
    ghost taken = { λ s. Some s.taken };

    ghost faults = { λ s. s.faults };

    fn put(&mut self, piece: &[u8]) -> Result<usize, PortFault>
        ensures takes { Takes (Some self.old.taken) (Some self.new.taken) result piece.now }
        ensures cause { HasCause self.old.faults self.new.faults result }
        ensures fails { IsErr result ↔ RefusesPut self.old piece.now }
        ensures amount { IfOk result (λ n. n ≡ amount_taken self.old piece.now) }
        ensures counted { self.new ≡ sink_after self.old piece.now result }
    {
        self.calls = self.calls.saturating_add(1);
        let n = piece
            .len()
            .min(self.piece)
            .min(self.room.saturating_sub(self.taken.len()));
        let is_failing = is_to_fail(&self.fails, self.calls);
        if is_failing || finds_no_room(piece.len(), self.room, self.taken.len()) {
            self.faults = self.faults.saturating_add(1);
            return Err(PortFault);
        }
        self.taken.extend_from_slice(&piece[..n]).unwrap();
        Ok(n)
    }
}
