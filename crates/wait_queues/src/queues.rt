// Those that wait at each place.
ghost use Rattle.std.specs.Prelude.{◌≡◌, ◌+◌, ◌<◌, ◌≤◌, [], Some, length, replicate, slice_get, IfOk, OnOk};
ghost use Rattle.wait_queues.specs.Waiting.{AreOrdered, HaveRoom, IsNowhere, Joins, Leaves, waiting_at};
ghost use Rattle.wait_queues.specs.Steps.{IsUnseen, JoinsAt, JoinsSeen, LeavesAt, LeavesSeen, MayJoin};

use crate::{Waiter, Waiters};
use chill_base::Memory;
use kernel_base::Alternative;
use std::alloc::Global;
use std::marker::Model;
use world_model::number_for;

/// Those that wait at each place, with room for so many more at each.
#[derive(Drop)]
pub struct WaitQueues {
    queues: Vec<Waiters>,
    room: usize,
}

impl Model for WaitQueues {
    ghost use Rattle.std.specs.Prelude.{map};
    ghost use Rattle.wait_queues.specs.Waiting.{AreOrdered, HaveRoom, SeenQueues, those_of};

    ghost Value = { SeenQueues };

    ghost view = { λ s. record { waiting = map those_of s.queues.items; room = s.room } };

    ghost invariant = { λ s. HaveRoom s.room s.queues.items × AreOrdered (map those_of s.queues.items) };
}

impl WaitQueues {
    /// So many places, at which nobody waits.
    pub fn new(alloc: Global, count: usize) -> Result<WaitQueues, Memory>
        ensures waiting { IfOk result (λ s. s.waiting ≡ replicate count []) }
    {
        let mut queues = Vec::new(alloc);
        for _ in 0..count {
            queues.push(Waiters::new(alloc))?;
        }
        Ok(WaitQueues { queues, room: 0 })
    }

    /// Makes room for `n` more at each place.
    pub fn reserve(&mut self, n: usize) -> Result<(), Memory>
        ensures room { OnOk result (n ≤ self.new.room) }
        ensures waiting { self.new.waiting ≡ self.old.waiting }
        ensures more { self.old.room ≤ self.new.room }
    {
        if n <= self.room {
            return Ok(());
        }
        for place in 0..self.queues.len() {
            self.queues[place].reserve(n)?;
        }
        self.room = n;
        Ok(())
    }

    /// At each place they stand by falling priority, and each once.
    pub fn in_order(&self)
        ensures { AreOrdered self.now.waiting }
    {
        let _queues = &self.queues;
    }

    /// Those that wait at a place.
    pub fn at(&self, place: u32) -> &Waiters
        requires { place < length self.now.waiting }
        ensures { slice_get self.now.waiting place ≡ Some result.now.waiters }
    {
        &self.queues[place as usize]
    }

    /// How many wait at a place.
    pub fn count(&self, place: u32) -> usize
        ensures { result ≡ length (waiting_at self.now.waiting place) }
    {
        match self.queues.get(place as usize) {
            Some(waiters) => waiters.len(),
            None => 0,
        }
    }

    /// One that waits nowhere comes to wait at the listed places that are there, each under the number of the first
    /// alternative that lists it. It takes no memory.
    pub fn join(&mut self, who: u32, priority: u32, places: &[Alternative])
        requires room { 0 < self.old.room }
        requires nowhere { IsNowhere self.old.waiting who }
        ensures waiting { Joins who priority places.now self.old.waiting self.new.waiting }
        ensures room { self.new.room + 1 ≡ self.old.room }
    {
        self.room -= 1;
        join_each(&mut self.queues, who, priority, places);
    }

    /// One doesn't wait at the listed places any more. The others keep their order.
    pub fn leave(&mut self, who: u32, places: &[Alternative])
        ensures waiting { Leaves who places.now self.old.waiting self.new.waiting }
        ensures room { self.new.room ≡ self.old.room }
    {
        leave_each(&mut self.queues, who, places);
    }
}

fn join_each(queues: &mut Vec<Waiters>, who: u32, priority: u32, places: &[Alternative])
    requires room { HaveRoom 1 queues.old.items }
    requires nowhere { IsUnseen queues.old.items who }
    ensures { JoinsSeen who priority places.now queues.old.items queues.new.items }
{
    for listed in 0..places.len() {
        let Alternative { thing, number } = places[listed];
        if number_for(&places[..listed], thing).is_none() {
            let waiter = Waiter {
                who,
                number,
                priority,
            };
            join_at(queues, thing, waiter);
        }
    }
}

fn join_at(queues: &mut Vec<Waiters>, place: u32, waiter: Waiter)
    requires { MayJoin place waiter.who queues.old.items }
    ensures { JoinsAt place waiter queues.old.items queues.new.items }
{
    if (place as usize) < queues.len() {
        queues[place as usize].put(waiter);
    }
}

fn leave_each(queues: &mut Vec<Waiters>, who: u32, places: &[Alternative])
    ensures { LeavesSeen who places.now queues.old.items queues.new.items }
{
    for listed in 0..places.len() {
        leave_at(queues, places[listed].thing, who);
    }
}

fn leave_at(queues: &mut Vec<Waiters>, place: u32, who: u32)
    ensures { LeavesAt place who queues.old.items queues.new.items }
{
    if (place as usize) < queues.len() {
        queues[place as usize].take(who);
    }
}
