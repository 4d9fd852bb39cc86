// What is found at a part.
ghost use Rattle.std.specs.Prelude.{◌+◌, ◌<◌, ◌^◌, List, OnOk};
ghost use Rattle.names_model.specs.declared.definition.Definition.{Definition};
ghost use Rattle.names_model.specs.Parts.{part_tree};
ghost use Rattle.names_model.specs.Seeing.{Reach};
ghost use Rattle.names_model.specs.Sizes.{size_of};
ghost use Rattle.reach_walk.specs.Findings.{AddsHere};
ghost use Rattle.reach_tables.specs.Scopes.{Shows};

use crate::groups::note_groups;
use crate::told::tell_here;
use crate::uses::note_uses;
use chill_base::Memory;
use cycles::Group;
use diagnostics::Diagnostic;
use names_model::{Part, Resolved};
use reach_tables::{Book, Scope};
use std::alloc::Global;

/// The rules on names that are broken, what depends on what, and what each use stands for.
#[derive(Drop)]
pub struct Findings {
    pub told: Vec<Diagnostic>,
    pub groups: Vec<Group>,
    pub uses: Vec<Resolved>,
}

impl Findings {
    ghost use Rattle.std.specs.Prelude.{◌≡◌, []};

    /// Nothing is found yet.
    pub fn new(alloc: Global) -> Findings
        ensures { (result.told.items ≡ []) × (result.groups.items ≡ []) × (result.uses.items ≡ []) }
    {
        Findings {
            told: Vec::new(alloc),
            groups: Vec::new(alloc),
            uses: Vec::new(alloc),
        }
    }
}

/// Notes what is found at a part, whose first definition has the number `from`. What later phases tell of a part is told by
/// functions that are called here.
pub fn note_here(
    alloc: Global,
    book: &Book,
    scope: &Scope,
    from: u32,
    part: &Part,
    out: &mut Findings,
) -> Result<(), Memory>
    ensures { (text : List Definition) (r : Reach) → Shows book.now scope.now text r → from + size_of (part_tree part.now) < 2 ^ 32 → OnOk result (AddsHere out.old out.new text r from (part_tree part.now)) }
{
    tell_here(alloc, book, scope, part, &mut out.told)?;
    note_groups(alloc, book, scope, from, part, &mut out.groups)?;
    note_uses(book, scope, part, &mut out.uses)?;
    Ok(())
}
