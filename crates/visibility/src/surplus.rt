// L3: there is a definition too many.
ghost use Rattle.std.specs.Prelude.{◌≡◌, ◌++◌, List, OnOk, length};
ghost use Rattle.names_model.specs.declared.definition.Definition.{Definition};
ghost use Rattle.names_model.specs.NameRules.{told_surplus};
ghost use Rattle.reach_tables.specs.Books.{Keeps};

use chill_base::{Memory, Text};
use diagnostics::{Diagnostic, Rule};
use reach_tables::Book;
use std::alloc::Global;

/// The most definitions of a program.
const MOST: u32 = 4096;

/// Tells L3 of the first definition too many, where there is one among `count`.
pub fn tell_surplus(
    alloc: Global,
    book: &Book,
    count: u32,
    out: &mut Vec<Diagnostic>,
) -> Result<(), Memory>
    ensures { (text : List Definition) → Keeps book.now text → count ≡ length text → OnOk result (out.new.items ≡ out.old.items ++ told_surplus text) }
{
    if count <= MOST {
        return Ok(());
    }
    if let Some(definition) = book.all.get(MOST as usize) {
        out.push(Diagnostic {
            at: definition.name.at,
            rule: Rule::L3,
            first: Text::new(alloc),
            second: Text::new(alloc),
        })?;
    }
    Ok(())
}
