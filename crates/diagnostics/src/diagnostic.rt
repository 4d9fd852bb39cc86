// What is told of a text that isn't a program.
ghost use Rattle.std.specs.Prelude.{◌≡◌, ◌↔◌, IfOk, IsTrue};

use crate::Rule;
use chill_base::{Item, List, Memory, Pos, Text};

/// A rule that a text breaks, the place where it does, and the names that the rule's text tells.
/// A name that the rule's text lacks is empty.
#[derive(Drop)]
pub struct Diagnostic {
    pub at: Pos,
    pub rule: Rule,
    pub first: Text,
    pub second: Text,
}

pub type Diagnostics = List<Diagnostic>;

impl Item for Diagnostic {
    fn copy(&self) -> Result<Self, Memory> {
        Ok(Diagnostic {
            at: self.at,
            rule: self.rule,
            first: self.first.copy()?,
            second: self.second.copy()?,
        })
    }

    fn equals(&self, other: &Self) -> bool {
        let Diagnostic {
            at,
            rule,
            first,
            second,
        } = self;
        *at == other.at
            && rule.equals(&other.rule)
            && first.equals(&other.first)
            && second.equals(&other.second)
    }
}
