// The table of instances.
ghost use Rattle.std.specs.Prelude.{◌≡◌, ◌+◌, ◌-◌, ◌<◌, ◌≤◌, ◌^◌, ◌++◌, [], ◌∷◌, length, slice_get, slice_set, OnOk, IfOk};
ghost use Rattle.kernel_base.specs.declared.ends.How.TheVariants.{Normal};
ghost use Rattle.instance_table.specs.Table.{made_at, count_of_live, count_of_active};
ghost use Rattle.instance_table.specs.Kept.{one_if};
ghost use Rattle.instance_table.specs.declared.phase.Phase.TheVariants.{Active, Ended};

use crate::Phase;
use crate::records::{Record, record_at, set_at};
use chill_base::Memory;
use slab::Slab;
use std::alloc::Global;
use std::marker::Model;

/// The instances that were made, by number from 1 on.
#[derive(Drop)]
pub struct Instances {
    keys: Vec<usize>,
    records: Slab<Record>,
    live: u32,
    active: u32,
}

impl Model for Instances {
    ghost use Rattle.std.specs.Prelude.{◌∷◌, min, ◌-◌, vec_len, vec_capacity};
    ghost use Rattle.slab.specs.Slab.{slab_len};
    ghost use Rattle.kernel_base.specs.declared.ends.How.TheVariants.{Normal};
    ghost use Rattle.instance_table.specs.declared.phase.Phase.TheVariants.{Ended};
    ghost use Rattle.instance_table.specs.Table.{Table};
    ghost use Rattle.instance_table.specs.Kept.{processes_of, phases_of, IsKept};

    ghost Value = { Table };

    ghost view = { λ t. record {
      processes = 0 ∷ processes_of t.records.slots t.keys.items;
      phases = Ended Normal ∷ phases_of t.records.slots t.keys.items;
      spare = min (vec_capacity t.keys - vec_len t.keys) (t.records.capacity - slab_len t.records);
    } };

    ghost invariant = { λ t. IsKept t.records.slots t.keys.items t.live t.active };
}

impl Instances {
    /// A table with instance 1, of the outermost process 0.
    pub fn new(alloc: Global) -> Result<Instances, Memory>
        ensures processes { IfOk result (λ t. t.processes ≡ 0 ∷ 0 ∷ []) }
        ensures phases { IfOk result (λ t. t.phases ≡ Ended Normal ∷ Active ∷ []) }
    {
        let mut table = Instances {
            keys: Vec::new(alloc),
            records: Slab::new(alloc),
            live: 0,
            active: 0,
        };
        table.reserve(1)?;
        table.start(0);
        Ok(table)
    }

    /// Makes room for `n` more instances. A phase is set without room.
    pub fn reserve(&mut self, n: u32) -> Result<(), Memory>
        ensures room { OnOk result (n ≤ self.new.spare) }
        ensures processes { self.new.processes ≡ self.old.processes }
        ensures phases { self.new.phases ≡ self.old.phases }
        ensures spare { self.old.spare ≤ self.new.spare }
    {
        self.keys.reserve(n as usize)?;
        self.records.reserve(n as usize)?;
        Ok(())
    }

    /// Makes an active instance, whose number is one more than that of the last. It takes no memory.
    pub fn start(&mut self, process: u32) -> u32
        requires spare { 0 < self.old.spare }
        requires few { length self.old.phases < 2 ^ 32 }
        ensures number { result ≡ length self.old.phases }
        ensures processes { self.new.processes ≡ self.old.processes ++ process ∷ [] }
        ensures phases { self.new.phases ≡ self.old.phases ++ Active ∷ [] }
        ensures spare { self.old.spare ≤ self.new.spare + 1 }
    {
        let number = self.keys.len() as u32 + 1;
        let key = self.records.insert_reserved(Record {
            number,
            process,
            phase: Phase::Active,
        });
        self.keys.push_reserved(key);
        self.live += 1;
        self.active += 1;
        number
    }

    /// How many instances have not ended.
    pub fn live(&self) -> u32
        ensures { result ≡ count_of_live self.now.phases }
    {
        self.live
    }

    /// How many instances are active.
    pub fn actives(&self) -> u32
        ensures { result ≡ count_of_active self.now.phases }
    {
        self.active
    }

    /// The process of an instance; none exactly where it was never made.
    pub fn process(&self, instance: u32) -> Option<u32>
        ensures { result ≡ made_at self.now.processes instance }
    {
        if instance == 0 || instance as usize > self.keys.len() {
            return None;
        }
        Some(record_at(&self.records, self.keys[instance as usize - 1]).process)
    }

    /// The phase of an instance; none exactly where it was never made.
    pub fn phase(&self, instance: u32) -> Option<Phase>
        ensures { result ≡ made_at self.now.phases instance }
    {
        if instance == 0 || instance as usize > self.keys.len() {
            return None;
        }
        Some(record_at(&self.records, self.keys[instance as usize - 1]).phase)
    }

    /// Sets the phase of an instance that was made. It takes no memory.
    pub fn set_phase(&mut self, instance: u32, phase: Phase)
        requires first { 0 < instance }
        requires made { instance < length self.old.phases }
        ensures processes { self.new.processes ≡ self.old.processes }
        ensures phases { self.new.phases ≡ slice_set self.old.phases instance phase }
        ensures spare { self.new.spare ≡ self.old.spare }
    {
        let key = self.keys[instance as usize - 1];
        let before = record_at(&self.records, key).phase;
        set_at(&mut self.records, key, phase);
        self.live = counted(self.live, before.is_live(), phase.is_live());
        self.active = counted(self.active, before.is_active(), phase.is_active());
    }
}

// A count in which one counted before or not, and counts now or not.
fn counted(count: u32, before: bool, now: bool) -> u32
    requires before { one_if before ≤ count }
    requires fits { count + one_if now < 2 ^ 32 + one_if before }
    ensures { result + one_if before ≡ count + one_if now }
{
    match (before, now) {
        (true, false) => count - 1,
        (false, true) => count + 1,
        _ => count,
    }
}
