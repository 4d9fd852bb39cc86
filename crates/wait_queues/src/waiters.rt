// Those that wait at one place, in the order in which they are chosen.
ghost use Rattle.std.specs.Prelude.{◌≡◌, ◌+◌, ◌<◌, ◌≤◌, [], None, Some, length, slice_get, IfNone, IfSome, OnOk};
ghost use Rattle.std.specs.VecDeque.{deque_len};
ghost use Rattle.kernel_lists.specs.First.{IsFirst};
ghost use Rattle.kernel_lists.specs.Once.{AreOnce, entry_of, others};
ghost use Rattle.wait_queues.specs.Waiting.{AreInOrder, IsPlaceFor, is_of, placed, waiter_of};

use chill_base::Memory;
use std::alloc::Global;
use std::collections::VecDeque;
use std::marker::Model;

/// One that waits at a place: with the number of the first alternative that lists the place, or the send number of its
/// value, and its priority.
#[derive(Clone, Copy)]
pub struct Waiter {
    pub who: u32,
    pub number: u32,
    pub priority: u32,
}

/// Those that wait at a place, each once, by falling priority.
#[derive(Drop)]
pub struct Waiters {
    waiters: VecDeque<Waiter>,
}

impl Model for Waiters {
    ghost use Rattle.std.specs.Prelude.{◌-◌};
    ghost use Rattle.std.specs.VecDeque.{deque_capacity, deque_len};
    ghost use Rattle.kernel_lists.specs.Once.{AreOnce};
    ghost use Rattle.wait_queues.specs.Waiting.{AreInOrder, SeenWaiters, waiter_of};

    ghost Value = { SeenWaiters };

    ghost view = { λ w. record { waiters = w.waiters.items; room = deque_capacity w.waiters - deque_len w.waiters } };

    ghost invariant = { λ w. AreInOrder w.waiters.items × AreOnce waiter_of w.waiters.items };
}

impl Waiters {
    /// Nobody. It takes no memory.
    pub fn new(alloc: Global) -> Waiters
        ensures { result.waiters ≡ [] }
    {
        Waiters {
            waiters: VecDeque::new(alloc),
        }
    }

    /// Makes room for `n` more.
    pub fn reserve(&mut self, n: usize) -> Result<(), Memory>
        ensures room { OnOk result (n ≤ self.new.room) }
        ensures waiters { self.new.waiters ≡ self.old.waiters }
        ensures more { self.old.room ≤ self.new.room }
    {
        self.waiters.reserve(n)?;
        Ok(())
    }

    /// How many wait.
    pub fn len(&self) -> usize
        ensures { result ≡ length self.now.waiters }
    {
        self.waiters.len()
    }

    /// The one at a place of the list, counted from 0.
    pub fn at(&self, place: usize) -> Waiter
        requires { place < length self.now.waiters }
        ensures { slice_get self.now.waiters place ≡ Some result }
    {
        self.waiters[place]
    }

    /// The one that is chosen first.
    pub fn first(&self) -> Option<Waiter>
        ensures { result ≡ slice_get self.now.waiters 0 }
    {
        match self.waiters.front() {
            Some(waiter) => Some(*waiter),
            None => None,
        }
    }

    /// They stand by falling priority, and each once.
    pub fn in_order(&self)
        ensures order { AreInOrder self.now.waiters }
        ensures once { AreOnce waiter_of self.now.waiters }
    {
        let _waiters = &self.waiters;
    }

    /// Puts one directly behind those of its own or a higher priority. It takes no memory.
    pub fn put(&mut self, waiter: Waiter)
        requires room { 0 < self.old.room }
        requires once { entry_of waiter_of self.old.waiters waiter.who ≡ None }
        ensures waiters { self.new.waiters ≡ placed waiter self.old.waiters }
        ensures room { self.old.room ≤ self.new.room + 1 }
    {
        let place = place_for(&self.waiters, waiter.priority);
        self.waiters.insert(place, waiter).unwrap();
    }

    /// Takes out one, if it waits here. The others keep their order.
    pub fn take(&mut self, who: u32)
        ensures waiters { self.new.waiters ≡ others waiter_of self.old.waiters who }
        ensures room { self.old.room ≤ self.new.room }
    {
        match place_of(&self.waiters, who) {
            Some(place) => {
                let _taken = self.waiters.remove(place);
            }
            None => {}
        }
    }
}

// Where one of this priority comes to stand.
fn place_for(waiters: &VecDeque<Waiter>, priority: u32) -> usize
    ensures { IsPlaceFor priority waiters.now.items result }
{
    let len = waiters.len();
    for back in 0..len {
        let place = len - back;
        if priority <= waiters[place - 1].priority {
            return place;
        }
    }
    0
}

// Where one stands.
fn place_of(waiters: &VecDeque<Waiter>, who: u32) -> Option<usize>
    ensures some { IfSome result (IsFirst (is_of who) waiters.now.items) }
    ensures none { IfNone result (entry_of waiter_of waiters.now.items who ≡ None) }
{
    for place in 0..waiters.len() {
        if waiters[place].who == who {
            return Some(place);
        }
    }
    None
}
