// What is told of a text, in the order in which it is found.
ghost use Rattle.std.specs.Prelude.{◌≡◌, ◌++◌, ◌∷◌, [], IfOk, OnOk};
ghost use Rattle.std.specs.List.Sorted.{IsStrictlySortedBy};
ghost use Rattle.diagnostics.specs.Listing.{listed};
ghost use Rattle.diagnostics.specs.Order.{diagnostic_cmp};
ghost use Rattle.names_model.specs.NameRules.{tell};
ghost use Rattle.checks_model.specs.Told.{tell_at};
ghost use Rattle.definition_origins.specs.CheckRules.{AreOfChecks, rule_of};
ghost use Rattle.definition_origins.specs.Told.{tell_both};

use crate::check_rule::CheckRule;
use chill_base::{Item, List, Memory, Pos, Text};
use diagnostics::{Diagnostic, Diagnostics, list_once, listed_law};
use std::alloc::Global;
use std::marker::Model;

/// The diagnostics of a phase, as they are found: contracts see their list.
#[derive(Drop)]
pub struct Told {
    diagnostics: Diagnostics,
}

impl Model for Told {
    ghost use Rattle.std.specs.Prelude.{List};
    ghost use Rattle.diagnostics.specs.declared.diagnostic.Diagnostic.{Diagnostic};
    ghost use Rattle.definition_origins.specs.CheckRules.{AreOfChecks};

    ghost Value = { List Diagnostic };

    ghost view = { λ t. t.diagnostics };

    ghost invariant = { λ t. AreOfChecks t.diagnostics };
}

impl Told {
    /// Nothing yet.
    pub fn new(alloc: Global) -> Told
        ensures { result ≡ [] }
    {
        Told {
            diagnostics: List::new(alloc),
        }
    }

    /// The same once more.
    pub fn copy(&self) -> Result<Told, Memory>
        ensures { IfOk result (λ copy. copy ≡ self.now) }
    {
        Ok(Told {
            diagnostics: self.diagnostics.copy()?,
        })
    }

    /// How many there are so far.
    pub fn count(&self) -> usize {
        self.diagnostics.len()
    }

    /// A rule that is broken at a place.
    pub fn tell(&mut self, rule: CheckRule, at: Pos) -> Result<(), Memory>
        ensures { OnOk result (self.new ≡ self.old ++ tell_at (rule_of rule) at ∷ []) }
    {
        self.tell_names(rule, at, &[], &[])
    }

    /// A rule that is broken at a place, of a name.
    pub fn tell_name(&mut self, rule: CheckRule, at: Pos, first: &[u8]) -> Result<(), Memory>
        ensures { OnOk result (self.new ≡ self.old ++ tell at (rule_of rule) first.now ∷ []) }
    {
        self.tell_names(rule, at, first, &[])
    }

    /// A rule that is broken at a place, of two names.
    pub fn tell_names(
        &mut self,
        rule: CheckRule,
        at: Pos,
        first: &[u8],
        second: &[u8],
    ) -> Result<(), Memory>
        ensures { OnOk result (self.new ≡ self.old ++ tell_both at (rule_of rule) first.now second.now ∷ []) }
    {
        let alloc = self.diagnostics.allocator();
        let first = Text::from_vec(Vec::from_slice(alloc, first)?);
        let second = Text::from_vec(Vec::from_slice(alloc, second)?);
        self.diagnostics.push(Diagnostic {
            at,
            rule: rule.rule(),
            first,
            second,
        })
    }

    /// All of them in order, each once.
    pub fn into_list(self) -> Diagnostics
        ensures list { result ≡ listed diagnostic_cmp self }
        ensures sorted { IsStrictlySortedBy diagnostic_cmp result }
        ensures checks { AreOfChecks result }
    {
        listed_law();
        let Told { diagnostics } = self;
        let mut list = diagnostics.into_vec();
        list_once(&mut list);
        Diagnostics::from_vec(list)
    }
}
