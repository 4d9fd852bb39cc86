// Names as they are looked up.
ghost use Rattle.std.specs.Prelude.{◌≡◌, ℕ, List, IfOk};
ghost use Rattle.std.proofs.Common.{rules};
ghost use Rattle.std.specs.Str.{bytes_eq};
ghost use Rattle.std.specs.Cmp.Rules.{comparing, hashing};
ghost use Rattle.std.specs.Hash as fed;

use chill_base::{Memory, Pos};
use chill_tree::tree::Name;
use std::alloc::Global;
use std::hash::{Hash, Hasher};
use std::marker::Model;

/// The bytes of a name. Contracts see them as a list.
#[derive(Debug, Drop)]
pub struct Spelling {
    bytes: Vec<u8>,
}

impl Model for Spelling {
    ghost use Rattle.std.specs.Prelude.{List, ℕ};

    ghost Value = { List ℕ };

    ghost view = { λ s. s.bytes.items };
}

impl Spelling {
    /// These bytes.
    pub fn from_bytes(alloc: Global, bytes: &[u8]) -> Result<Spelling, Memory>
        ensures { IfOk result (λ s. s ≡ bytes.now) }
    {
        Ok(Spelling {
            bytes: Vec::from_slice(alloc, bytes)?,
        })
    }

    /// The bytes.
    pub fn as_bytes(&self) -> &[u8]
        ensures { result.now ≡ self.now }
    {
        self.bytes.as_slice()
    }

    /// The same bytes again.
    pub fn copy(&self, alloc: Global) -> Result<Spelling, Memory>
        ensures { IfOk result (λ s. s ≡ self.now) }
    {
        Spelling::from_bytes(alloc, self.as_bytes())
    }
}

impl PartialEq for Spelling {
    ghost eq = { bytes_eq };

    ghost laws = { Prim.search (comparing, rules) };

    fn eq(&self, other: &Spelling) -> bool {
        self.as_bytes() == other.as_bytes()
    }
}

impl Eq for Spelling {
    ghost laws = { Prim.search (comparing, rules) };
}

impl Hash for Spelling {
    ghost hash_input = { fed.slice fed.u8 };

    ghost respects_eq = { Prim.search (hashing, rules) };

    fn hash<H: Hasher>(&self, state: &mut H) {
        self.as_bytes().hash(state);
    }
}

/// A name and the place of its first byte.
#[derive(Debug)]
pub struct Identifier {
    pub at: Pos,
    pub spelling: Spelling,
}

impl Identifier {
    ghost use Rattle.std.specs.Prelude.{◌≡◌, IfOk};
    ghost use Rattle.names_model.specs.Identifiers.{identifier};

    /// The name of a tree.
    pub fn of(alloc: Global, name: &Name) -> Result<Identifier, Memory>
        ensures { IfOk result (λ i. i ≡ identifier name.now) }
    {
        Ok(Identifier {
            at: name.at,
            spelling: Spelling::from_bytes(alloc, name.text.as_slice())?,
        })
    }

    /// The same name at the same place again.
    pub fn copy(&self, alloc: Global) -> Result<Identifier, Memory>
        ensures { IfOk result (λ i. i ≡ self.now) }
    {
        Ok(Identifier {
            at: self.at,
            spelling: self.spelling.copy(alloc)?,
        })
    }
}

// Dropped by hand, so that whoever drops one makes one call.
impl Drop for Identifier {
    fn drop(self) {
        let Identifier { at: _, spelling } = self;
        drop(spelling);
    }
}
