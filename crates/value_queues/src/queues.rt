// The values that lie in buffers: a queue for each buffer, in the order in which they are received.
ghost use Rattle.std.specs.Prelude.{◌≡◌, ℕ, ◌+◌, ◌<◌, ◌≤◌, [], length, replicate, IfOk, OnOk, IsSome};
ghost use Rattle.std.specs.VecDeque.{deque_len, deque_capacity};
ghost use Rattle.std.specs.Prelude.{slice_get, Some};
ghost use Rattle.world_model.specs.declared.world.StoredValue.{StoredValue};
ghost use Rattle.value_queues.specs.Queues.{AreInOrder, IsPlaceFor, TakesFirst, first_rank, placed, rank_of, values_in, with_placed};

use chill_base::Memory;
use kernel_lists::{Rank, precedes};
use std::alloc::Global;
use std::collections::VecDeque;
use std::marker::Model;
use world_model::StoredValue;

/// The values of each buffer, with room for so many more in each.
#[derive(Drop)]
pub struct ValueQueues {
    queues: Vec<VecDeque<StoredValue>>,
    room: usize,
}

impl Model for ValueQueues {
    ghost use Rattle.std.specs.Prelude.{◌≡◌, ◌+◌, ◌≤◌, ℕ, Some, map, slice_get};
    ghost use Rattle.std.specs.VecDeque.{deque_items, deque_len, deque_capacity};
    ghost use Rattle.std.specs.declared.collections.VecDeque.{VecDeque};
    ghost use Rattle.std.specs.declared.alloc.Global.{Global};
    ghost use Rattle.world_model.specs.declared.world.StoredValue.{StoredValue};
    ghost use Rattle.value_queues.specs.Queues.{SeenQueues, AreInOrder};

    ghost Value = { SeenQueues };

    ghost view = { λ s. record { values = map deque_items s.queues.items; room = s.room } };

    ghost invariant = { λ s. (k : ℕ) (q : VecDeque StoredValue Global) → slice_get s.queues.items k ≡ Some q → (deque_len q + s.room ≤ deque_capacity q) × AreInOrder q.items };
}

impl ValueQueues {
    /// So many buffers, all of them empty.
    pub fn new(alloc: Global, count: usize) -> Result<ValueQueues, Memory>
        ensures values { IfOk result (λ s. s.values ≡ replicate count []) }
    {
        let mut queues = Vec::new(alloc);
        for _ in 0..count {
            queues.push(VecDeque::new(alloc))?;
        }
        Ok(ValueQueues { queues, room: 0 })
    }

    /// Makes room for `n` more values in each buffer.
    pub fn reserve(&mut self, n: usize) -> Result<(), Memory>
        ensures room { OnOk result (n ≤ self.new.room) }
        ensures values { self.new.values ≡ self.old.values }
        ensures more { self.old.room ≤ self.new.room }
    {
        if n <= self.room {
            return Ok(());
        }
        for buffer in 0..self.queues.len() {
            self.queues[buffer].reserve(n)?;
        }
        self.room = n;
        Ok(())
    }

    /// The values of each buffer stand in the order in which they are received.
    pub fn in_order(&self)
        ensures { (buffer : ℕ) → AreInOrder (values_in self.now.values buffer) }
    {
        let _queues = &self.queues;
    }

    /// How many values lie in a buffer.
    pub fn count(&self, buffer: u32) -> usize
        ensures { result ≡ length (values_in self.now.values buffer) }
    {
        match self.queues.get(buffer as usize) {
            Some(queue) => queue.len(),
            None => 0,
        }
    }

    /// How the value stands that is received first from a buffer.
    pub fn first(&self, buffer: u32) -> Option<Rank>
        ensures { result ≡ first_rank (values_in self.now.values buffer) }
    {
        match self.queues.get(buffer as usize)?.front() {
            Some(value) => Some(rank(value)),
            None => None,
        }
    }

    /// Puts a value into a buffer. It takes no memory.
    pub fn put(&mut self, buffer: u32, value: StoredValue)
        requires room { 0 < self.old.room }
        requires there { buffer < length self.old.values }
        ensures values { self.new.values ≡ with_placed self.old.values buffer value }
        ensures room { self.new.room + 1 ≡ self.old.room }
    {
        self.room -= 1;
        put_in(&mut self.queues[buffer as usize], value);
    }

    /// Takes out the value that is received first from a buffer.
    pub fn take_first(&mut self, buffer: u32) -> StoredValue
        requires { IsSome (first_rank (values_in self.old.values buffer)) }
        ensures taken { TakesFirst self.old.values self.new.values buffer result }
        ensures room { self.new.room ≡ self.old.room }
    {
        self.queues[buffer as usize].pop_front().unwrap()
    }
}

/// How a value stands.
pub fn rank(value: &StoredValue) -> Rank
    ensures { result ≡ rank_of value.now }
{
    Rank {
        priority: value.priority,
        arrival: value.send,
    }
}

fn put_in(queue: &mut VecDeque<StoredValue>, value: StoredValue)
    requires room { deque_len queue.old < deque_capacity queue.old }
    requires order { AreInOrder queue.old.items }
    ensures values { queue.new.items ≡ placed value queue.old.items }
    ensures order { AreInOrder queue.new.items }
    ensures len { deque_len queue.new ≡ deque_len queue.old + 1 }
    ensures capacity { deque_capacity queue.old ≤ deque_capacity queue.new }
{
    let place = place_for(queue, rank(&value));
    queue.insert(place, value).unwrap();
}

fn place_for(queue: &VecDeque<StoredValue>, rank: Rank) -> usize
    requires { AreInOrder queue.now.items }
    ensures { IsPlaceFor rank queue.now.items result }
{
    let len = queue.len();
    for back in 0..len {
        let place = len - back;
        if !precedes(rank, rank_at(queue, place - 1)) {
            return place;
        }
    }
    0
}

fn rank_at(queue: &VecDeque<StoredValue>, place: usize) -> Rank
    requires { place < deque_len queue.now }
    ensures { (value : StoredValue) → slice_get queue.now.items place ≡ Some value → result ≡ rank_of value }
{
    rank(&queue[place])
}
