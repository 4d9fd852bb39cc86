// How a rule on names is told.
ghost use Rattle.std.specs.Prelude.{◌≡◌, ◌++◌, ◌∷◌, [], OnOk};
ghost use Rattle.names_model.specs.NameRules.{tell};

use crate::identifier::Spelling;
use chill_base::{Memory, Pos, Text};
use diagnostics::{Diagnostic, Rule};
use std::alloc::Global;

/// Tells a rule that is broken, and one name.
pub fn push_told(
    alloc: Global,
    at: Pos,
    rule: Rule,
    name: &Spelling,
    out: &mut Vec<Diagnostic>,
) -> Result<(), Memory>
    ensures { OnOk result (out.new.items ≡ out.old.items ++ tell at rule name.now ∷ []) }
{
    let first = Text::from_vec(Vec::from_slice(alloc, name.as_bytes())?);
    out.push(Diagnostic {
        at,
        rule,
        first,
        second: Text::new(alloc),
    })?;
    Ok(())
}
