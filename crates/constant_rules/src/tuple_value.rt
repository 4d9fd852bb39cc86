// The value of a tuple, as its parts are added (Z.200, chapter on values).
ghost use Rattle.std.specs.Prelude.{◌≡◌, ◌++◌, [], Some, IfOk, OnOk};
ghost use Rattle.modes.specs.ModeTree.{mode_tree};
ghost use Rattle.modes.specs.Bounds.{bounds_of};
ghost use Rattle.constant_rules.specs.Parts.{joined, first_number, widened, none_of};

use chill_base::{Memory, Scalars};
use constant_operators::{Known, add_members, empty_set, member_count};
use modes::{Bounds, Mode, bounds};
use std::alloc::Global;
use std::marker::Model;

/// The value of a tuple, as its parts are added: none where one of them has none. Contracts see its scalars.
pub struct TupleValue {
    all: Scalars,
    is_there: bool,
}

impl Model for TupleValue {
    ghost use Rattle.std.specs.Prelude.{List, ℤ, Option, Some, None, if◌then◌else◌};

    ghost Value = { Option (List ℤ) };

    ghost view = { λ t. if t.is_there then Some t.all else None };
}

// Dropped by hand, so that whoever drops one makes one call.
impl Drop for TupleValue {
    fn drop(self) {
        let TupleValue { all, is_there: _ } = self;
        drop(all);
    }
}

impl TupleValue {
    /// That of an array or a structure, without parts yet.
    pub fn of_parts(alloc: Global) -> TupleValue
        ensures { result ≡ Some [] }
    {
        TupleValue {
            all: Scalars::new(alloc),
            is_there: true,
        }
    }

    /// That of a powerset of this member mode, without members yet.
    pub fn of_members(alloc: Global, member: &Mode) -> Result<TupleValue, Memory>
        ensures { IfOk result (λ r. r ≡ none_of (bounds_of (mode_tree member.now))) }
    {
        Ok(TupleValue {
            all: empty_set(alloc, member_count(member))?,
            is_there: bounds(member).is_some(),
        })
    }

    /// Adds an element or a field.
    pub fn add(&mut self, part: &Known) -> Result<(), Memory>
        ensures { OnOk result (self.new ≡ joined self.old part.now.value) }
    {
        match &part.value {
            None => self.is_there = false,
            Some(value) => append(&mut self.all, value)?,
        }
        Ok(())
    }

    /// Adds the members of this mode from one to another.
    pub fn add_span(&mut self, member: &Mode, first: &Known, last: &Known)
        ensures { self.new ≡ widened (bounds_of (mode_tree member.now)) (first_number first.now.value) (first_number last.now.value) self.old }
    {
        match (bounds(member), first.number(), last.number()) {
            (Some(Bounds { low, .. }), Some(from), Some(to)) => add_members(
                &mut self.all,
                from.saturating_sub(low),
                to.saturating_sub(low),
            ),
            (None, _, _) | (_, None, _) | (_, _, None) => self.is_there = false,
        }
    }

    /// The value, where each part has one.
    pub fn into_value(self) -> Option<Scalars>
        ensures { result ≡ self }
    {
        let TupleValue { all, is_there } = self;
        if is_there { Some(all) } else { None }
    }
}

/// Puts the scalars of a part behind those of the parts before it.
pub(crate) fn append(all: &mut Scalars, part: &Scalars) -> Result<(), Memory>
    ensures { OnOk result (all.new ≡ all.old ++ part.now) }
{
    for number in part.as_slice() {
        all.push(*number)?;
    }
    Ok(())
}
