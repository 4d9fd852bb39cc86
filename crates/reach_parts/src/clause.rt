// Names that are defined together.
ghost use Rattle.std.specs.Prelude.{◌≡◌, [], ◌∷◌, IfOk};
ghost use Rattle.chill_tree.specs.ModeTree.{mode_tree};
ghost use Rattle.names_model.specs.Identifiers.{identifiers};
ghost use Rattle.names_model.specs.ModeMentions.{mentions_of_mode};
ghost use Rattle.names_model.specs.StatementParts.{clause};

use crate::mode::add_mode;
use chill_base::{List, Memory};
use chill_tree::tree::{Mode, Name};
use names_model::{Clause, Identifier, Kind, Mention};
use std::alloc::Global;

// The names as they are looked up.
fn identifiers_of(alloc: Global, names: &[Name]) -> Result<List<Identifier>, Memory>
    ensures { IfOk result (λ l. l ≡ identifiers names.now) }
{
    let mut all = List::new(alloc);
    for name in names {
        all.push(Identifier::of(alloc, name)?)?;
    }
    Ok(all)
}

/// Names of a kind that a text defines.
pub(crate) fn clause_of(
    alloc: Global,
    kind: Kind,
    names: &[Name],
    text: List<Mention>,
) -> Result<Clause, Memory>
    ensures { IfOk result (λ c. c ≡ clause kind names.now text) }
{
    Ok(Clause {
        kind,
        names: identifiers_of(alloc, names)?,
        text,
    })
}

/// One name of a kind that a text defines.
pub(crate) fn clause_of_one(
    alloc: Global,
    kind: Kind,
    name: &Name,
    text: List<Mention>,
) -> Result<Clause, Memory>
    ensures { IfOk result (λ c. c ≡ clause kind (name.now ∷ []) text) }
{
    let mut names = List::new(alloc);
    names.push(Identifier::of(alloc, name)?)?;
    Ok(Clause { kind, names, text })
}

/// Names of a kind that a mode defines.
pub(crate) fn clause_by_mode(
    alloc: Global,
    kind: Kind,
    names: &[Name],
    mode: &Mode,
) -> Result<Clause, Memory>
    ensures { IfOk result (λ c. c ≡ clause kind names.now (mentions_of_mode (mode_tree mode.now))) }
{
    let mut text = List::new(alloc);
    add_mode(alloc, mode, &mut text)?;
    clause_of(alloc, kind, names, text)
}
