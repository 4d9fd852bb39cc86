// Regions (Z.200, chapter on concurrent execution; who locks a region that becomes free is our own choice).
ghost use Rattle.std.specs.Prelude.{◌≡◌, ℕ, ◌+◌, ◌<◌, ◌≤◌, ◌++◌, ◌∷◌, [], None, length, replicate, slice_get, slice_set, vec_len, vec_capacity, IfOk, OnOk};
ghost use Rattle.kernel_lists.specs.Once.{AreOnce};
ghost use Rattle.kernel_lists.specs.Room.{spare};
ghost use Rattle.world_model.specs.Lists.{last_of};
ghost use Rattle.region_kernel.specs.Regions.{AreAlone, Changes, IsOccupied, WaitsNowhere, first_waiting, held_by, itself, locks_but, locks_locked, may_lock, occupant_of, occupants_locked, queue_but, queue_of, with_lock};

use chill_base::Memory;
use std::alloc::Global;
use std::marker::Model;

/// A region, and a process that locked it.
#[derive(Clone, Copy)]
pub struct Lock {
    pub region: u32,
    pub who: u32,
}

/// The regions of a program.
#[derive(Drop)]
pub struct Regions {
    occupants: Vec<Option<u32>>,
    locks: Vec<Lock>,
    queues: Vec<Vec<u32>>,
    room: usize,
}

impl Model for Regions {
    ghost use Rattle.std.specs.Prelude.{map, min};
    ghost use Rattle.kernel_lists.specs.Room.{spare};
    ghost use Rattle.region_kernel.specs.Regions.{AreFit, AreQueued, SeenRegions, items_of};

    ghost Value = { SeenRegions };

    ghost view = { λ r. record {
      occupants = r.occupants.items;
      locks = r.locks.items;
      queues = map items_of r.queues.items;
      spare = min (spare r.locks) r.room;
    } };

    ghost invariant = { λ r. AreFit r.room r.queues.items × AreQueued r.occupants.items (map items_of r.queues.items) };
}

impl Regions {
    /// So many regions, all free.
    pub fn new(alloc: Global, count: u32) -> Result<Regions, Memory>
        ensures occupants { IfOk result (λ r. r.occupants ≡ replicate count None) }
        ensures locks { IfOk result (λ r. r.locks ≡ []) }
        ensures queues { IfOk result (λ r. r.queues ≡ replicate count []) }
    {
        let mut occupants = Vec::new(alloc);
        let mut queues = Vec::new(alloc);
        for _ in 0..count {
            occupants.push(None)?;
            queues.push(Vec::new(alloc))?;
        }
        Ok(Regions {
            occupants,
            locks: Vec::new(alloc),
            queues,
            room: 0,
        })
    }

    /// Makes room for `n` changes.
    pub fn reserve(&mut self, n: usize) -> Result<(), Memory>
        ensures room { OnOk result (n ≤ self.new.spare) }
        ensures occupants { self.new.occupants ≡ self.old.occupants }
        ensures locks { self.new.locks ≡ self.old.locks }
        ensures queues { self.new.queues ≡ self.old.queues }
        ensures spare { self.old.spare ≤ self.new.spare }
    {
        self.locks.reserve(n)?;
        if n <= self.room {
            return Ok(());
        }
        for region in 0..self.queues.len() {
            self.queues[region].reserve(n)?;
        }
        self.room = n;
        Ok(())
    }

    /// No process waits twice to lock a region, and none waits for two.
    pub fn each_once(&self)
        ensures once { (region : ℕ) → AreOnce itself (queue_of self.now.queues region) }
        ensures alone { AreAlone self.now.queues }
    {
        let _queues = &self.queues;
    }

    /// Those that wait to lock a region, the longest waiting first.
    pub fn queue(&self, region: u32) -> &[u32]
        requires { region < length self.now.occupants }
        ensures is { result.now ≡ queue_of self.now.queues region }
        ensures once { AreOnce itself result.now }
    {
        &self.queues[region as usize]
    }

    /// The occupant of a region; none exactly where it is free.
    pub fn occupant(&self, region: u32) -> Option<u32>
        requires { region < length self.now.occupants }
        ensures { result ≡ occupant_of self.now region }
    {
        self.occupants[region as usize]
    }

    /// Locks a region that is free. Whether the process occupies it now: false exactly where another does. It takes no
    /// memory.
    pub fn lock(&mut self, region: u32, who: u32) -> bool
        requires spare { 0 < self.old.spare }
        requires there { region < length self.old.occupants }
        ensures answer { result ≡ may_lock (occupant_of self.old region) who }
        ensures occupants { self.new.occupants ≡ occupants_locked self.old.occupants region who (occupant_of self.old region) }
        ensures locks { self.new.locks ≡ locks_locked self.old.locks region who (occupant_of self.old region) }
        ensures queues { self.new.queues ≡ self.old.queues }
        ensures spare { self.old.spare ≤ self.new.spare + 1 }
    {
        match self.occupants[region as usize] {
            Some(other) => other == who,
            None => {
                self.occupants[region as usize] = Some(who);
                self.locks.push_reserved(Lock { region, who });
                true
            }
        }
    }

    /// A process comes to wait for a region that is occupied. It takes no memory.
    pub fn wait(&mut self, region: u32, who: u32)
        requires spare { 0 < self.old.spare }
        requires occupied { IsOccupied self.old region }
        requires nowhere { WaitsNowhere self.old.queues who }
        ensures occupants { self.new.occupants ≡ self.old.occupants }
        ensures locks { self.new.locks ≡ self.old.locks }
        ensures queues { Changes region (queue_of self.old.queues region ++ who ∷ []) self.old.queues self.new.queues }
        ensures spare { self.old.spare ≤ self.new.spare + 1 }
    {
        self.room -= 1;
        self.queues[region as usize].push_reserved(who);
    }

    /// Frees a region. The process that waits longest for it occupies it now and is named; none exactly where nobody
    /// waits. It takes no memory.
    pub fn free(&mut self, region: u32) -> Option<u32>
        requires spare { 0 < self.old.spare }
        requires there { region < length self.old.occupants }
        ensures answer { result ≡ first_waiting self.old.queues region }
        ensures occupants { self.new.occupants ≡ slice_set self.old.occupants region result }
        ensures locks { self.new.locks ≡ with_lock (locks_but self.old.locks region (occupant_of self.old region)) region result }
        ensures queues { Changes region (queue_but (queue_of self.old.queues region) result) self.old.queues self.new.queues }
        ensures spare { self.old.spare ≤ self.new.spare + 1 }
    {
        unlock(&mut self.locks, region, self.occupants[region as usize]);
        let next = take_first(&mut self.queues[region as usize]);
        self.occupants[region as usize] = next;
        if let Some(who) = next {
            self.locks.push_reserved(Lock { region, who });
        }
        next
    }

    /// The region that a process locked last of those that it holds; none exactly where it holds none.
    pub fn last_held(&self, who: u32) -> Option<u32>
        ensures { result ≡ last_of (held_by self.now.locks who) }
    {
        let mut last = None;
        for lock in &self.locks {
            if lock.who == who {
                last = Some(lock.region);
            }
        }
        last
    }
}

// Takes out the lock of a region by its occupant.
fn unlock(locks: &mut Vec<Lock>, region: u32, occupant: Option<u32>)
    ensures locks { locks.new.items ≡ locks_but locks.old.items region occupant }
    ensures room { spare locks.old ≤ spare locks.new }
{
    match occupant {
        Some(who) => locks.retain(move |lock| !(lock.region == region && lock.who == who)),
        None => {}
    }
}

// Takes out the process that waits longest.
fn take_first(queue: &mut Vec<u32>) -> Option<u32>
    requires { AreOnce itself queue.old.items }
    ensures answer { result ≡ slice_get queue.old.items 0 }
    ensures queue { queue.new.items ≡ queue_but queue.old.items result }
    ensures once { AreOnce itself queue.new.items }
    ensures len { vec_len queue.new ≤ vec_len queue.old }
    ensures capacity { vec_capacity queue.new ≡ vec_capacity queue.old }
{
    if queue.is_empty() {
        return None;
    }
    Some(queue.remove(0))
}
