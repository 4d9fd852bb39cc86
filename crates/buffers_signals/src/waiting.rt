// Those that wait to receive and to send: in the order in which they came, and at each place in the order of choice.
ghost use Rattle.std.specs.Prelude.{◌≡◌, ◌+◌, ◌<◌, ◌≤◌, ◌++◌, ◌∷◌, [], None, Some, IfOk, OnOk, IsSome, option_copied, slice_get};
ghost use Rattle.std.specs.List.{find};
ghost use Rattle.std.specs.Option.{option_map};
ghost use Rattle.kernel_lists.specs.Once.{AreOnce, entry_of, others};
ghost use Rattle.buffers_signals.specs.Lists.{receiver_of, sender_of, lists};
ghost use Rattle.buffers_signals.specs.Arrivals.{AreBefore, AreRising, TakesOut, WaitsAt, process_in, receivers_at, senders_at};

use crate::{Held, Receiver};
use chill_base::Memory;
use indexmap::IndexMap;
use kernel_base::Alternative;
use std::alloc::Global;
use std::marker::Model;
use wait_queues::{WaitQueues, Waiter, Waiters};
use world_model::number_for;

/// The receivers that wait, by who they are, and those that wait at each place.
#[derive(Drop)]
pub struct Receivers {
    by_who: IndexMap<u32, Receiver>,
    queues: WaitQueues,
}

impl Model for Receivers {
    ghost use Rattle.std.specs.Prelude.{length, min};
    ghost use Rattle.std.specs.Map.{values_of};
    ghost use Rattle.indexmap.specs.IndexMap.{spare};
    ghost use Rattle.buffers_signals.specs.Lists.{receiver_of};
    ghost use Rattle.buffers_signals.specs.Arrivals.{AreListed, SeenReceivers, no_priority, receives_at};

    ghost Value = { SeenReceivers };

    ghost view = { λ r. record {
      receivers = values_of r.by_who.entries;
      places = length r.queues.waiting;
      room = min (spare r.by_who) r.queues.room;
    } };

    ghost invariant = { λ r. AreListed receiver_of no_priority receives_at r.by_who.entries r.queues.waiting };
}

impl Receivers {
    /// So many places, at which nobody waits.
    pub fn new(alloc: Global, places: usize) -> Result<Receivers, Memory>
        ensures receivers { IfOk result (λ r. r.receivers ≡ []) }
        ensures places { IfOk result (λ r. r.places ≡ places) }
    {
        Ok(Receivers {
            by_who: IndexMap::new(alloc),
            queues: WaitQueues::new(alloc, places)?,
        })
    }

    /// Makes room for `n` more.
    pub fn reserve(&mut self, n: usize) -> Result<(), Memory>
        ensures room { OnOk result (n ≤ self.new.room) }
        ensures receivers { self.new.receivers ≡ self.old.receivers }
        ensures places { self.new.places ≡ self.old.places }
        ensures more { self.old.room ≤ self.new.room }
    {
        self.by_who.reserve(n)?;
        self.queues.reserve(n)?;
        Ok(())
    }

    /// No process waits twice.
    pub fn each_once(&self)
        ensures { AreOnce receiver_of self.now.receivers }
    {
        let _by_who = &self.by_who;
    }

    /// Those that wait at a place.
    pub fn at(&self, place: u32) -> &Waiters
        requires { place < self.now.places }
        ensures { result.now.waiters ≡ receivers_at place self.now.receivers }
    {
        self.queues.at(place)
    }

    /// Who came first of those that wait at a place.
    pub fn first(&self, place: u32) -> Option<u32>
        requires { place < self.now.places }
        ensures { result ≡ option_map receiver_of (find (lists place) self.now.receivers) }
    {
        match self.queues.at(place).first() {
            Some(waiter) => Some(waiter.who),
            None => None,
        }
    }

    /// One that waits.
    pub fn get(&self, who: u32) -> Option<&Receiver>
        ensures { option_copied result ≡ entry_of receiver_of self.now.receivers who }
    {
        self.by_who.get(&who)
    }

    /// The process of one that waits.
    pub fn process_of(&self, who: u32) -> u32
        ensures { result ≡ process_in self.now.receivers who }
    {
        match self.by_who.get(&who) {
            Some(receiver) => receiver.process,
            None => 0,
        }
    }

    /// One that didn't wait comes to wait. It takes no memory.
    pub fn put(&mut self, receiver: Receiver)
        requires room { 0 < self.old.room }
        requires once { entry_of receiver_of self.old.receivers receiver.who ≡ None }
        ensures receivers { self.new.receivers ≡ self.old.receivers ++ receiver ∷ [] }
        ensures places { self.new.places ≡ self.old.places }
        ensures room { self.old.room ≤ self.new.room + 1 }
    {
        self.queues
            .join(receiver.who, 0, receiver.things.as_slice());
        let _none = self.by_who.insert(receiver.who, receiver).unwrap();
    }

    /// Takes out one that waits at a place, and tells the number of its alternative. The others keep their order.
    pub fn take(&mut self, who: u32, place: u32) -> u32
        requires { WaitsAt self.old.receivers who place }
        ensures taken { TakesOut self.old.receivers self.new.receivers who place result }
        ensures places { self.new.places ≡ self.old.places }
        ensures room { self.old.room ≤ self.new.room }
    {
        let receiver = self.by_who.shift_remove(&who).unwrap();
        self.queues.leave(who, receiver.things.as_slice());
        number_for(receiver.things.as_slice(), place).unwrap()
    }
}

/// Those that wait to send, by who they are, and those that wait at each place.
#[derive(Drop)]
pub struct Senders {
    by_who: IndexMap<u32, Held>,
    queues: WaitQueues,
}

impl Model for Senders {
    ghost use Rattle.std.specs.Prelude.{length, min};
    ghost use Rattle.std.specs.Map.{values_of};
    ghost use Rattle.indexmap.specs.IndexMap.{spare};
    ghost use Rattle.buffers_signals.specs.Lists.{sender_of};
    ghost use Rattle.buffers_signals.specs.Arrivals.{AreListed, AreRising, SeenSenders, priority_of, sends_at};

    ghost Value = { SeenSenders };

    ghost view = { λ s. record {
      senders = values_of s.by_who.entries;
      places = length s.queues.waiting;
      room = min (spare s.by_who) s.queues.room;
    } };

    ghost invariant = { λ s. AreListed sender_of priority_of sends_at s.by_who.entries s.queues.waiting × AreRising (values_of s.by_who.entries) };
}

impl Senders {
    /// So many places, at which nobody waits.
    pub fn new(alloc: Global, places: usize) -> Result<Senders, Memory>
        ensures senders { IfOk result (λ s. s.senders ≡ []) }
        ensures places { IfOk result (λ s. s.places ≡ places) }
    {
        Ok(Senders {
            by_who: IndexMap::new(alloc),
            queues: WaitQueues::new(alloc, places)?,
        })
    }

    /// Makes room for `n` more.
    pub fn reserve(&mut self, n: usize) -> Result<(), Memory>
        ensures room { OnOk result (n ≤ self.new.room) }
        ensures senders { self.new.senders ≡ self.old.senders }
        ensures places { self.new.places ≡ self.old.places }
        ensures more { self.old.room ≤ self.new.room }
    {
        self.by_who.reserve(n)?;
        self.queues.reserve(n)?;
        Ok(())
    }

    /// No process waits twice, and each was sent behind all that came before it.
    pub fn each_once(&self)
        ensures once { AreOnce sender_of self.now.senders }
        ensures rising { AreRising self.now.senders }
    {
        let _by_who = &self.by_who;
    }

    /// Those that wait at a place.
    pub fn at(&self, place: u32) -> &Waiters
        requires { place < self.now.places }
        ensures { result.now.waiters ≡ senders_at place self.now.senders }
    {
        self.queues.at(place)
    }

    /// The one at a place whose value goes first.
    pub fn first(&self, place: u32) -> Option<Waiter>
        requires { place < self.now.places }
        ensures { result ≡ slice_get (senders_at place self.now.senders) 0 }
    {
        self.queues.at(place).first()
    }

    /// One that didn't wait comes to wait. It takes no memory.
    pub fn put(&mut self, held: Held)
        requires room { 0 < self.old.room }
        requires once { entry_of sender_of self.old.senders held.value.sender ≡ None }
        requires rising { AreBefore held.value.send self.old.senders }
        ensures senders { self.new.senders ≡ self.old.senders ++ held ∷ [] }
        ensures places { self.new.places ≡ self.old.places }
        ensures room { self.old.room ≤ self.new.room + 1 }
    {
        let who = held.value.sender;
        let place = Alternative {
            thing: held.buffer,
            number: held.value.send,
        };
        self.queues.join(who, held.value.priority, &[place]);
        let _none = self.by_who.insert(who, held).unwrap();
    }

    /// Takes out one that waits. The others keep their order.
    pub fn take(&mut self, who: u32) -> Held
        requires { IsSome (entry_of sender_of self.old.senders who) }
        ensures taken { entry_of sender_of self.old.senders who ≡ Some result }
        ensures rest { self.new.senders ≡ others sender_of self.old.senders who }
        ensures places { self.new.places ≡ self.old.places }
        ensures room { self.old.room ≤ self.new.room }
    {
        let held = self.by_who.shift_remove(&who).unwrap();
        let place = Alternative {
            thing: held.buffer,
            number: held.value.send,
        };
        self.queues.leave(who, &[place]);
        held
    }
}
