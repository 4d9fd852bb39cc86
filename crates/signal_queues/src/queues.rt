// The signals that are pending: a queue for each signal, in the order in which they are received.
ghost use Rattle.std.specs.Prelude.{◌≡◌, ℕ, ◌+◌, ◌<◌, ◌≤◌, ◌++◌, ◌∷◌, [], length, map, replicate, slice_get, IfOk, OnOk, Some};
ghost use Rattle.std.specs.VecDeque.{deque_len, deque_capacity};
ghost use Rattle.world_model.specs.declared.world.PendingSignal.{PendingSignal};
ghost use Rattle.world_model.specs.declared.world.StoredValue.{StoredValue};
ghost use Rattle.world_model.specs.World.{signals_but};
ghost use Rattle.value_queues.specs.Queues.{AreInOrder, IsPlaceFor, rank_of};
ghost use Rattle.signal_queues.specs.Pending.{IsThere, Puts, pending_in, queue_of, value_of};

use chill_base::Memory;
use kernel_lists::{Rank, precedes};
use std::alloc::Global;
use std::collections::VecDeque;
use std::marker::Model;
use value_queues::rank;
use world_model::PendingSignal;

/// The pending signals of each signal, with room for so many more of each, and the last send number.
#[derive(Drop)]
pub struct SignalQueues {
    queues: Vec<VecDeque<PendingSignal>>,
    last: u32,
    room: usize,
}

impl Model for SignalQueues {
    ghost use Rattle.std.specs.Prelude.{map};
    ghost use Rattle.std.specs.VecDeque.{deque_items};
    ghost use Rattle.signal_queues.specs.Pending.{AreKept, AreSent, SeenPending};

    ghost Value = { SeenPending };

    ghost view = { λ s. record { queues = map deque_items s.queues.items; last = s.last; room = s.room } };

    ghost invariant = { λ s. AreKept s.room s.queues.items × AreSent s.last (map deque_items s.queues.items) };
}

impl SignalQueues {
    /// So many signals, none of which is pending.
    pub fn new(alloc: Global, count: usize) -> Result<SignalQueues, Memory>
        ensures queues { IfOk result (λ s. s.queues ≡ replicate count []) }
        ensures pending { IfOk result (λ s. pending_in s ≡ []) }
        ensures last { IfOk result (λ s. s.last ≡ 0) }
    {
        let mut queues = Vec::new(alloc);
        for _ in 0..count {
            queues.push(VecDeque::new(alloc))?;
        }
        Ok(SignalQueues {
            queues,
            last: 0,
            room: 0,
        })
    }

    /// Makes room for `n` more of each signal.
    pub fn reserve(&mut self, n: usize) -> Result<(), Memory>
        ensures room { OnOk result (n ≤ self.new.room) }
        ensures queues { self.new.queues ≡ self.old.queues }
        ensures last { self.new.last ≡ self.old.last }
        ensures more { self.old.room ≤ self.new.room }
    {
        if n <= self.room {
            return Ok(());
        }
        for signal in 0..self.queues.len() {
            self.queues[signal].reserve(n)?;
        }
        self.room = n;
        Ok(())
    }

    /// Those of each signal stand in the order in which they are received, and are those of this signal that are pending.
    pub fn in_order(&self)
        ensures order { (signal : ℕ) → AreInOrder (map value_of (queue_of self.now.queues signal)) }
        ensures own { (signal : ℕ) (x : PendingSignal) → IsThere (queue_of self.now.queues signal) x → (x.signal ≡ signal) × IsThere (pending_in self.now) x }
        ensures each { (x : PendingSignal) → IsThere (pending_in self.now) x → IsThere (queue_of self.now.queues x.signal) x }
    {
        let _queues = &self.queues;
    }

    /// How many of a signal are pending.
    pub fn count(&self, signal: u32) -> usize
        ensures { result ≡ length (queue_of self.now.queues signal) }
    {
        match self.queues.get(signal as usize) {
            Some(queue) => queue.len(),
            None => 0,
        }
    }

    /// The one at a place of the queue of a signal, counted from 0.
    pub fn at(&self, signal: u32, place: usize) -> &PendingSignal
        requires { place < length (queue_of self.now.queues signal) }
        ensures { slice_get (queue_of self.now.queues signal) place ≡ Some result.now }
    {
        &self.queues[signal as usize][place]
    }

    /// One that is sent behind all others is pending. It takes no memory.
    pub fn put(&mut self, signal: PendingSignal)
        requires room { 0 < self.old.room }
        requires there { signal.signal < length self.old.queues }
        requires next { self.old.last < signal.value.send }
        ensures pending { pending_in self.new ≡ pending_in self.old ++ signal ∷ [] }
        ensures last { self.new.last ≡ signal.value.send }
        ensures places { length self.new.queues ≡ length self.old.queues }
        ensures room { self.new.room + 1 ≡ self.old.room }
    {
        self.room -= 1;
        self.last = signal.value.send;
        put_in(&mut self.queues[signal.signal as usize], signal);
    }

    /// Takes out the one at a place of the queue of a signal. The others keep their order.
    pub fn take(&mut self, signal: u32, place: usize) -> PendingSignal
        requires { place < length (queue_of self.old.queues signal) }
        ensures taken { slice_get (queue_of self.old.queues signal) place ≡ Some result }
        ensures pending { pending_in self.new ≡ signals_but result.value.send (pending_in self.old) }
        ensures last { self.new.last ≡ self.old.last }
        ensures places { length self.new.queues ≡ length self.old.queues }
        ensures room { self.new.room ≡ self.old.room }
    {
        self.queues[signal as usize].remove(place).unwrap()
    }
}

fn put_in(queue: &mut VecDeque<PendingSignal>, signal: PendingSignal)
    requires room { deque_len queue.old < deque_capacity queue.old }
    requires order { AreInOrder (map value_of queue.old.items) }
    ensures puts { Puts signal queue.old.items queue.new.items }
    ensures order { AreInOrder (map value_of queue.new.items) }
    ensures len { deque_len queue.new ≡ deque_len queue.old + 1 }
    ensures capacity { deque_capacity queue.old ≤ deque_capacity queue.new }
{
    let place = place_for(queue, rank(&signal.value));
    queue.insert(place, signal).unwrap();
}

fn place_for(queue: &VecDeque<PendingSignal>, rank: Rank) -> usize
    requires { AreInOrder (map value_of queue.now.items) }
    ensures { IsPlaceFor rank (map value_of queue.now.items) result }
{
    let len = queue.len();
    for back in 0..len {
        let place = len - back;
        if !precedes(rank, rank_at(queue, place - 1)) {
            return place;
        }
    }
    0
}

fn rank_at(queue: &VecDeque<PendingSignal>, place: usize) -> Rank
    requires { place < deque_len queue.now }
    ensures { (value : StoredValue) → slice_get (map value_of queue.now.items) place ≡ Some value → result ≡ rank_of value }
{
    rank(&queue[place].value)
}
