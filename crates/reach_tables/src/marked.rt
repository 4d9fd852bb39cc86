// Which numbers were met.
use chill_base::Memory;
use indexmap::IndexSet;
use std::alloc::Global;
use std::marker::Model;

/// Numbers, of which it is known at once whether one is there.
#[derive(Drop)]
pub struct Marked {
    set: IndexSet<u32>,
}

impl Model for Marked {
    ghost use Rattle.std.specs.Prelude.{List, ℕ};

    ghost Value = { List ℕ };

    ghost view = { λ m. m.set.keys };
}

impl Marked {
    ghost use Rattle.std.specs.Prelude.{◌≡◌, ℕ, [], true, not, nat_eq, IfOk, OnOk, if◌then◌else◌};
    ghost use Rattle.reach_tables.specs.Marks.{is_marked};

    /// No number is marked. It takes no memory.
    pub fn new(alloc: Global) -> Marked
        ensures { result ≡ [] }
    {
        Marked {
            set: IndexSet::new(alloc),
        }
    }

    /// Marks a number, and tells whether it is new.
    pub fn mark(&mut self, number: u32) -> Result<bool, Memory>
        ensures new { IfOk result (λ added. added ≡ not (is_marked self.old number)) }
        ensures marks { OnOk result ((d : ℕ) → is_marked self.new d ≡ (if nat_eq number d then true else is_marked self.old d)) }
    {
        let added = self.set.insert(number)?;
        Ok(added)
    }
}
