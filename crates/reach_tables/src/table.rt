// What is found under each name.
ghost use Rattle.std.specs.Prelude.{◌≡◌, ℕ, List, [], ◌∷◌, ◌++◌, ◌≤◌, length, true, OnOk, if◌then◌else◌};
ghost use Rattle.std.specs.Str.{bytes_eq};
ghost use Rattle.reach_tables.specs.Held.{held};

use chill_base::{Memory, Numbers};
use indexmap::IndexMap;
use names_model::Spelling;
use std::alloc::Global;
use std::marker::Model;

/// Definitions by names.
#[derive(Drop)]
pub struct Table {
    map: IndexMap<Spelling, Numbers>,
    // Whether it is known that no name has two.
    single: bool,
    ghost single_is: { single ≡ true → (n : List ℕ) → length (held map.entries n) ≤ 1 },
}

impl Model for Table {
    ghost use Rattle.reach_tables.specs.Held.{Holdings};

    ghost Value = { Holdings };

    ghost view = { λ t. t.map.entries };
}

// Puts the first definition of a name behind those of other names.
fn put_first(
    alloc: Global,
    map: &mut IndexMap<Spelling, Numbers>,
    name: &Spelling,
    number: u32,
) -> Result<(), Memory>
    ensures { OnOk result (held map.old.entries name.now ≡ [] → (n : List ℕ) → held map.new.entries n ≡ (if bytes_eq name.now n then number ∷ [] else held map.old.entries n)) }
{
    let mut numbers = Numbers::new(alloc);
    numbers.push(number)?;
    map.insert(name.copy(alloc)?, numbers)?;
    Ok(())
}

impl Table {
    /// The table with no definition. It takes no memory.
    pub fn new(alloc: Global) -> Table
        ensures { (n : List ℕ) → held result n ≡ [] }
    {
        Table {
            map: IndexMap::new(alloc),
            single: true,
        }
    }

    /// The definitions of a name.
    pub fn find(&self, name: &Spelling) -> &[u32]
        ensures { result.now ≡ held self.now name.now }
    {
        match self.map.get(name) {
            Some(numbers) => numbers.as_slice(),
            None => &[],
        }
    }

    /// Whether it is known that no name has two definitions.
    pub fn is_single(&self) -> bool
        ensures { result ≡ true → (n : List ℕ) → length (held self.now n) ≤ 1 }
    {
        self.single
    }

    /// Puts a definition behind those of a name.
    pub fn append(&mut self, alloc: Global, name: &Spelling, number: u32) -> Result<(), Memory>
        ensures { OnOk result ((n : List ℕ) → held self.new n ≡ (if bytes_eq name.now n then held self.old n ++ number ∷ [] else held self.old n)) }
    {
        if let Some(numbers) = self.map.get_mut(name) {
            self.single = false;
            numbers.push(number)?;
            return Ok(());
        }
        let single = self.single;
        self.single = false;
        put_first(alloc, &mut self.map, name, number)?;
        self.single = single;
        Ok(())
    }
}
