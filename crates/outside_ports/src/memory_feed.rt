// A feed in memory, whose faults are chosen beforehand.
ghost use Rattle.std.specs.Prelude.{◌≡◌, ◌≤◌, ◌↔◌, Some, Contains, IsErr, length, take, drop};
ghost use Rattle.std.specs.Io.{ReadsAtMost};
ghost use Rattle.outside_ports.specs.Faults.{HasCause, count_after};
ghost use Rattle.outside_ports.specs.Feed.{Hands};
ghost use Rattle.outside_ports.specs.MemoryFeed.{IsHandedOver, feed_after, new_feed, left_of};

use crate::memory_library::is_to_fail;
use crate::{Feed, PortFault};
use chill_base::{Numbers, Text};
use std::marker::Model;

/// Bytes in memory. Its takes are numbered from 1, and one whose number stands in `fails` is a fault.
#[derive(Drop)]
pub struct MemoryFeed {
    bytes: Text,
    taken: usize,
    fails: Numbers,
    calls: u64,
    faults: u64,
}

impl Model for MemoryFeed {
    ghost use Rattle.std.specs.Prelude.{◌≤◌, length};
    ghost use Rattle.outside_ports.specs.MemoryFeed.{FeedState};

    ghost Value = { FeedState };

    ghost view = { λ f. record { whole = f.bytes; taken = f.taken; fails = f.fails; calls = f.calls; faults = f.faults } };

    ghost invariant = { λ f. f.taken ≤ length f.bytes };
}

impl MemoryFeed {
    /// A feed of these bytes, of which none is taken. It takes no memory.
    pub fn new(bytes: Text, fails: Numbers) -> MemoryFeed
        ensures { result ≡ new_feed bytes fails }
    {
        MemoryFeed {
            bytes,
            taken: 0,
            fails,
            calls: 0,
            faults: 0,
        }
    }
}

// Copies a front of the bytes, as far as they fit.
fn copy_front(bytes: &[u8], into: &mut [u8]) -> usize
    ensures bound { result ≤ length into.new }
    ensures within { result ≤ length bytes.now }
    ensures copies { IsHandedOver bytes.now result into.new }
{
    let n = bytes.len().min(into.len());
    into[..n].copy_from_slice(&bytes[..n]);
    n
}

impl Feed for MemoryFeed {
    ghost bytes = { λ f. Some (left_of f) };

    ghost faults = { λ f. f.faults };

    fn take(&mut self, into: &mut [u8]) -> Result<usize, PortFault>
        ensures bound { ReadsAtMost result into.new }
        ensures hands { Hands (Some (left_of self.old)) (Some (left_of self.new)) result into.new }
        ensures cause { HasCause self.old.faults self.new.faults result }
        ensures fails { IsErr result ↔ Contains self.old.fails (count_after self.old.calls) }
        ensures counted { self.new ≡ feed_after self.old result }
    {
        self.calls = self.calls.saturating_add(1);
        if is_to_fail(&self.fails, self.calls) {
            self.faults = self.faults.saturating_add(1);
            return Err(PortFault);
        }
        let n = copy_front(&self.bytes.as_slice()[self.taken..], into);
        self.taken += n;
        Ok(n)
    }
}
