// Which value is received from buffers.
ghost use Rattle.std.specs.Prelude.{◌≡◌, ◌<◌, length, slice_index_or, IfSome, IfNone};
ghost use Rattle.kernel_base.specs.Facts.{NameThings};
ghost use Rattle.kernel_lists.specs.Best.{IsBest, NoneRanked};
ghost use Rattle.buffers_signals.specs.Ranks.{front_rank, is_unbuffered, offered_rank};

use crate::waiting::Senders;
use kernel_base::Alternative;
use kernel_lists::{Best, Rank, better};
use value_queues::ValueQueues;
use world_model::number_at;

/// Where the value that is received stands: first in the buffer at a place of the list, or with the sender that waits first
/// on that buffer.
#[derive(Clone, Copy)]
pub enum Source {
    Stored { place: usize },
    Offered { place: usize },
    Nowhere,
}

/// Whether no values lie in a buffer, as in one of length 0.
pub fn is_without_values(lengths: &[Option<u32>], buffer: u32) -> bool
    ensures { result ≡ is_unbuffered lengths.now buffer }
{
    match number_at(lengths, buffer) {
        Some(length) => length == 0,
        None => false,
    }
}

fn rank_offered(senders: &Senders, buffer: u32) -> Option<Rank>
    requires { buffer < senders.now.places }
    ensures { result ≡ offered_rank senders.now.senders buffer }
{
    match senders.first(buffer) {
        Some(first) => Some(Rank {
            priority: first.priority,
            arrival: first.number,
        }),
        None => None,
    }
}

fn rank_front(
    lengths: &[Option<u32>],
    stored: &ValueQueues,
    senders: &Senders,
    buffer: u32,
) -> Option<Rank>
    requires { buffer < senders.now.places }
    ensures { result ≡ front_rank lengths.now stored.now.values senders.now.senders buffer }
{
    if is_without_values(lengths, buffer) {
        rank_offered(senders, buffer)
    } else {
        stored.first(buffer)
    }
}

/// The listed buffer whose first value is the best of all that may be received from listed buffers.
pub fn best_front(
    lengths: &[Option<u32>],
    buffers: &[Alternative],
    stored: &ValueQueues,
    senders: &Senders,
) -> Option<Best>
    requires { NameThings senders.now.places buffers.now }
    ensures some { IfSome result (IsBest (λ a. front_rank lengths.now stored.now.values senders.now.senders a.thing) buffers.now) }
    ensures none { IfNone result (NoneRanked (λ a. front_rank lengths.now stored.now.values senders.now.senders a.thing) buffers.now) }
{
    let mut found = None;
    for place in 0..buffers.len() {
        found = better(
            found,
            place,
            rank_front(lengths, stored, senders, buffers[place].thing),
        );
    }
    found
}
