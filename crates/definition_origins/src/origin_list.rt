// The origins of a program's definitions, by their numbers.
ghost use Rattle.std.specs.Prelude.{◌≡◌, [], ◌∷◌, ◌++◌, ℕ, Some, None, IfOk, OnOk, length, replicate, slice_get};
ghost use Rattle.definition_origins.specs.Firsts.{first_of, FirstsAgree};
ghost use Rattle.definition_origins.specs.OriginTrees.{origin_tree, origin_trees};

use crate::origin::Origin;
use chill_base::{List, Memory};
use chill_tree::tree::Name;
use std::alloc::Global;
use std::marker::Model;

/// The origin of each definition of a program, by its number. Definitions of one clause tell the first of them, which has the
/// same origin.
#[derive(Drop)]
pub struct Origins<'a> {
    list: List<Origin<'a>>,
}

impl<'a> Model for Origins<'a> {
    ghost use Rattle.std.specs.Prelude.{List, []};
    ghost use Rattle.definition_origins.specs.declared.origin.Origin.{Origin as Found};
    ghost use Rattle.definition_origins.specs.Firsts.{FirstsAgree};
    ghost use Rattle.definition_origins.specs.contracts.origin.Origin as origin_row;
    ghost use Rattle.std.specs.Coded.{coded_list};
    ghost use denote.Ref.{NamedLft};
    ghost use mir.Syntax.{static};

    ghost Value = { List Found };

    // A code is the same at each lifetime.
    ghost coded = { coded_list (origin_row.the_row record { mir = static; lft = [] }).coded };

    ghost view = { λ o. o.list };

    ghost invariant = { λ o. FirstsAgree o.list };
}

impl<'a> Origins<'a> {
    /// None yet.
    pub fn new(alloc: Global) -> Origins<'a>
        ensures { result ≡ [] }
    {
        Origins {
            list: List::new(alloc),
        }
    }

    /// How many there are.
    pub fn len(&self) -> usize
        ensures { result ≡ length self.now }
    {
        self.list.len()
    }

    /// All of them, in the order of their numbers.
    pub fn as_slice(&self) -> &[Origin<'a>]
        ensures { result.now ≡ self.now }
    {
        self.list.as_slice()
    }

    /// The number of the next definition. It answers `Memory` where no `u32` numbers it.
    pub fn next(&self) -> Result<u32, Memory>
        ensures { IfOk result (λ number. number ≡ length self.now) }
    {
        match u32::try_from(self.list.len()) {
            Ok(number) => Ok(number),
            Err(_) => Err(Memory),
        }
    }

    /// Puts a definition behind the others.
    pub fn push(&mut self, origin: Origin<'a>) -> Result<(), Memory>
        requires { first_of origin ≡ None }
        ensures ok { OnOk result (self.new ≡ self.old ++ origin.entry ∷ []) }
    {
        self.list.push(origin)
    }

    // Puts a definition of a clause behind the others: the first, or another.
    fn push_of_clause(&mut self, origin: Origin<'a>) -> Result<(), Memory>
        requires { (f : ℕ) → first_of origin ≡ Some f → slice_get (self.old ++ origin ∷ []) f ≡ Some origin }
        ensures ok { OnOk result (self.new ≡ self.old ++ origin.entry ∷ []) }
    {
        self.list.push(origin)
    }

    /// Puts the definitions of one clause behind the others, one for each name; the first of them is the next.
    pub fn push_for_each(&mut self, names: &[Name], origin: Origin<'a>) -> Result<(), Memory>
        requires { first_of origin ≡ Some (length self.old) }
        ensures { OnOk result (self.new ≡ self.old ++ replicate (length names.now) origin.entry) }
    {
        for _name in names {
            self.push_of_clause(origin)?;
        }
        Ok(())
    }

    /// The first of a definition's clause has the same origin.
    pub fn firsts_law(&self)
        ensures { FirstsAgree self.now }
    {
        let _ = &self.list;
    }
}

/// Puts the definitions of one clause behind others, one for each name.
#[tactic(auto, using(crate::proofs::OriginLists::trees_of_each))]
pub fn add_names<'a>(
    names: &[Name],
    origin: Origin<'a>,
    found: &mut Origins<'a>,
) -> Result<(), Memory>
    requires { first_of origin ≡ Some (length found.old) }
    ensures { OnOk result (origin_trees found.new ≡ origin_trees found.old ++ replicate (length names.now) (origin_tree origin.entry)) }
{
    found.push_for_each(names, origin)
}
