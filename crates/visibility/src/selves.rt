// N6: what depends on itself.
ghost use Rattle.std.specs.Prelude.{◌≡◌, ◌++◌, ℕ, List, IfOk, OnOk, Some, length, false, slice_get, slice_index_or};
ghost use Rattle.names_model.specs.declared.definition.Definition.{Definition};
ghost use Rattle.cycles.specs.declared.group.Group.{Group};
ghost use Rattle.names_model.specs.Kinds.{is_constant};
ghost use Rattle.names_model.specs.Definitions.{is_kind_at};
ghost use Rattle.names_model.specs.Dependence.{is_self, told_self, told_selves};
ghost use Rattle.reach_tables.specs.Books.{Keeps};
ghost use Rattle.visibility.specs.Tested.{Tests};

use crate::locations::among_locations;
use chill_base::Memory;
use cycles::{Group, selves};
use diagnostics::{Diagnostic, Rule};
use names_model::{Definition, Kind, push_told};
use reach_tables::Book;
use std::alloc::Global;

/// Which definitions depend on themselves, and which do so through locations alone.
#[derive(Drop)]
pub struct Flags {
    pub through: Vec<bool>,
    pub among: Vec<bool>,
}

// The flags of these groups.
fn flags_of(alloc: Global, book: &Book, groups: &[Group]) -> Result<Flags, Memory>
    ensures { IfOk result (λ f. Tests f book.now.all.items groups.now) }
{
    let through = selves(alloc, groups)?;
    let locations = among_locations(alloc, book, groups)?;
    let among = selves(alloc, locations.as_slice())?;
    Ok(Flags { through, among })
}

// The flag of a definition.
fn is_set(flags: &[bool], number: u32) -> bool
    ensures { result ≡ slice_index_or flags.now number false }
{
    match flags.get(number as usize) {
        Some(flag) => *flag,
        None => false,
    }
}

// Whether a definition is of a synonym or a mode.
fn is_constant(book: &Book, number: u32) -> bool
    ensures { result ≡ is_kind_at is_constant book.now.all.items number }
{
    matches!(book.kind(number), Some(Kind::Synonym | Kind::Mode))
}

// Whether N6 holds of a definition.
fn is_self(book: &Book, flags: &Flags, number: u32) -> bool
    ensures { (gs : List Group) → Tests flags.now book.now.all.items gs → result ≡ is_self book.now.all.items gs number }
{
    (is_constant(book, number) && is_set(&flags.through, number))
        || (book.is_location(number) && is_set(&flags.among, number))
}

// Tells N6 of a definition, where it holds.
fn push_self(
    alloc: Global,
    holds: bool,
    definition: &Definition,
    out: &mut Vec<Diagnostic>,
) -> Result<(), Memory>
    ensures { OnOk result (out.new.items ≡ out.old.items ++ told_self holds (Some definition.now)) }
{
    if holds {
        let name = &definition.name;
        push_told(alloc, name.at, Rule::N6, &name.spelling, out)?;
    }
    Ok(())
}

// Tells N6 of the definition of a number, where it holds.
fn tell_self(
    alloc: Global,
    book: &Book,
    flags: &Flags,
    number: u32,
    out: &mut Vec<Diagnostic>,
) -> Result<(), Memory>
    ensures { (gs : List Group) → Tests flags.now book.now.all.items gs → OnOk result (out.new.items ≡ out.old.items ++ told_self (is_self book.now.all.items gs number) (slice_get book.now.all.items number)) }
{
    let holds = is_self(book, flags, number);
    match book.all.get(number as usize) {
        Some(definition) => push_self(alloc, holds, definition, out),
        None => Ok(()),
    }
}

/// Tells N6 of the first `count` definitions.
pub fn tell_selves(
    alloc: Global,
    book: &Book,
    count: u32,
    groups: &[Group],
    out: &mut Vec<Diagnostic>,
) -> Result<(), Memory>
    ensures { (text : List Definition) → Keeps book.now text → count ≡ length text → OnOk result (out.new.items ≡ out.old.items ++ told_selves text groups.now) }
{
    let flags = flags_of(alloc, book, groups)?;
    for number in 0..count {
        tell_self(alloc, book, &flags, number, out)?;
    }
    Ok(())
}
