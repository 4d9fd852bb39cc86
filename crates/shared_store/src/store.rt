// The values of shared locations (Z.200, chapter on locations).
ghost use Rattle.std.specs.Prelude.{◌≡◌, ◌+◌, ◌<◌, ◌≤◌, ◌++◌, ℕ, length, map, slice_get, Some, IfOk};
ghost use Rattle.kernel_base.specs.Facts.{IsSound};
ghost use Rattle.kernel_base.specs.Value.{scalars_of};
ghost use Rattle.kernel_lists.specs.Room.{spare};
ghost use Rattle.layout_map.specs.Spots.{words_of};
ghost use Rattle.packed_words.specs.Packed.{scalars_in};
ghost use Rattle.world_model.specs.Lists.{scalars_at, with_scalars};
ghost use Rattle.world_model.specs.World.{opening};
ghost use Rattle.shared_store.specs.Places.{FitAt, FitBits, LiesIn, layout_of, location_of, read_at, written_at};

use chill_base::{Item, List, Memory, Scalars};
use kernel_base::{Facts, Place};
use packed_words::Packed;
use std::alloc::Global;
use std::marker::Model;
use world_check::{opening_world, sound_facts_law};

/// The words of each shared location.
#[derive(Drop)]
pub struct Store {
    locations: Vec<Packed>,
}

impl Model for Store {
    ghost use Rattle.std.specs.Prelude.{map};
    ghost use Rattle.shared_store.specs.Places.{SeenStore, layout_in, numbers_in};

    ghost Value = { SeenStore };

    ghost view = { λ s. record { layouts = map layout_in s.locations.items; scalars = map numbers_in s.locations.items } };
}

impl Store {
    /// The lowest values of the facts, by their layouts.
    pub fn new(alloc: Global, facts: &Facts) -> Result<Store, Memory>
        requires { IsSound facts.now }
        ensures layouts { IfOk result (λ s. s.layouts ≡ facts.now.layouts) }
        ensures scalars { IfOk result (λ s. s.scalars ≡ (opening facts.now).store) }
    {
        sound_facts_law();
        let opening = opening_world(alloc, facts)?;
        let mut locations = Vec::new(alloc);
        for location in 0..facts.store.len() {
            locations.push(packed(alloc, facts, &opening.store, location)?)?;
        }
        Ok(Store { locations })
    }

    /// The words of a location: as many as its layout needs, in which each scalar stands in its bits. It takes no memory.
    pub fn words(&self, location: u32) -> &[u32]
        requires { location < length self.now.scalars }
        ensures count { length result.now ≡ words_of (layout_of self.now location) }
        ensures scalars { scalars_in result.now (layout_of self.now location) ≡ location_of self.now.scalars location }
    {
        self.locations[location as usize].words()
    }

    /// Makes room for `n` changes. A write takes none.
    pub fn reserve(&mut self, _n: u32) -> Result<(), Memory>
        ensures { self.new ≡ self.old }
    {
        Ok(())
    }

    /// Puts the scalars of a place behind those of a vector that has room for them. It takes no memory.
    pub fn read(&self, place: Place, into: &mut Vec<i64>)
        requires lies { LiesIn self.now.scalars place }
        requires room { place.count ≤ spare into.old }
        ensures scalars { into.new.items ≡ into.old.items ++ read_at self.now.scalars place }
        ensures room { spare into.old ≤ spare into.new + place.count }
    {
        let location = &self.locations[place.location as usize];
        read_into(location, place.first, place.count, into);
    }

    /// Writes scalars that fit their bits into a place. It takes no memory.
    pub fn write(&mut self, place: Place, scalars: &Scalars)
        requires lies { LiesIn self.old.scalars place }
        requires count { length scalars.now ≡ place.count }
        requires fits { FitBits self.old place scalars.now }
        ensures layouts { self.new.layouts ≡ self.old.layouts }
        ensures scalars { self.new.scalars ≡ written_at self.old.scalars place scalars.now }
    {
        let location = &mut self.locations[place.location as usize];
        write_from(location, place.first, scalars.as_slice());
    }
}

// The words of a location of the facts, with its scalars of the opening world.
fn packed(
    alloc: Global,
    facts: &Facts,
    store: &List<Scalars>,
    location: usize,
) -> Result<Packed, Memory>
    requires sound { IsSound facts.now }
    requires store { store.now ≡ map scalars_of facts.now.store }
    requires there { location < length facts.now.store }
    ensures layout { IfOk result (λ p. slice_get facts.now.layouts location ≡ Some p.layout) }
    ensures scalars { IfOk result (λ p. slice_get store.now location ≡ Some p.scalars) }
{
    let layout = facts.layouts.at(location).copy()?;
    Packed::new(alloc, layout, store.at(location).as_slice())
}

// Puts so many scalars behind those of a vector.
fn read_into(packed: &Packed, first: u32, count: u32, into: &mut Vec<i64>)
    requires lies { first + count ≤ length packed.now.scalars }
    requires room { count ≤ spare into.old }
    ensures scalars { into.new.items ≡ into.old.items ++ scalars_at packed.now.scalars first count }
    ensures room { spare into.old ≤ spare into.new + count }
{
    for k in 0..count {
        into.push_reserved(packed.get(first as usize + k as usize));
    }
}

// Puts numbers into the bits of as many scalars.
fn write_from(packed: &mut Packed, first: u32, numbers: &[i64])
    requires lies { first + length numbers.now ≤ length packed.old.scalars }
    requires fits { FitAt packed.old.layout first numbers.now }
    ensures layout { packed.new.layout ≡ packed.old.layout }
    ensures scalars { packed.new.scalars ≡ with_scalars packed.old.scalars first numbers.now }
{
    for k in 0..numbers.len() {
        packed.put(first as usize + k, numbers[k]);
    }
}
