// Second entries of a name in one reach, for another definition.
ghost use Rattle.std.specs.Prelude.{◌≡◌, ◌++◌, List, IfOk, OnOk, flat_map};
ghost use Rattle.diagnostics.specs.Listing.{SameMembers};
ghost use Rattle.names_model.specs.declared.entry.Entry.{Entry};
ghost use Rattle.names_model.specs.Entries.{numbers_of};
ghost use Rattle.names_model.specs.NameRules.{told_number};
ghost use Rattle.reach_tables.specs.Held.{held};
ghost use Rattle.reach_tables.specs.Scopes.{Holds};
ghost use Rattle.reach_tables.specs.Tellings.{IsTold, Tells, is_another_among, is_last};

use crate::book::Book;
use crate::table::Table;
use chill_base::{Memory, Pos};
use diagnostics::{Diagnostic, Rule};
use names_model::{Spelling, push_told};
use std::alloc::Global;

// Whether the table has another number than this one under a name. It has no number twice, so one of the first two tells.
fn is_another_under(table: &Table, name: &Spelling, number: u32) -> bool
    ensures { result ≡ is_another_among number (held table.now name.now) }
{
    for other in table.find(name) {
        if *other != number {
            return true;
        }
    }
    false
}

/// Whether a number has the name of the one that was told of last.
pub fn is_last(book: &Book, last: Option<u32>, number: u32) -> bool
    ensures { result ≡ is_last book.now.all.items last number }
{
    match last {
        Some(told) => book.spelling(told as usize) == book.spelling(number as usize),
        None => false,
    }
}

// Tells of a number, if an earlier one of its name is another and its name wasn't told of last. It answers which number was
// told of last.
fn tell_number(
    alloc: Global,
    book: &Book,
    table: &Table,
    at: Pos,
    last: Option<u32>,
    number: u32,
    out: &mut Vec<Diagnostic>,
) -> Result<Option<u32>, Memory>
    ensures { (es : List Entry) → Holds table.now book.now.all.items es → IsTold book.now.all.items at out.old.items last → IfOk result (Tells book.now.all.items at (numbers_of es) number out.old.items out.new.items) }
{
    if is_last(book, last, number) {
        return Ok(last);
    }
    let name = book.spelling(number as usize);
    if !is_another_under(table, name, number) {
        return Ok(last);
    }
    push_told(alloc, at, Rule::N1, name, out)?;
    Ok(Some(number))
}

/// Tells of the numbers of one place, once for those of one name that stand together.
pub fn tell_numbers(
    alloc: Global,
    book: &Book,
    table: &Table,
    at: Pos,
    numbers: &[u32],
    out: &mut Vec<Diagnostic>,
) -> Result<(), Memory>
    ensures { (es : List Entry) → Holds table.now book.now.all.items es → OnOk result (SameMembers out.new.items (out.old.items ++ flat_map (told_number book.now.all.items (numbers_of es) at) numbers.now)) }
{
    let mut last = None;
    for number in numbers {
        last = tell_number(alloc, book, table, at, last, *number, out)?;
    }
    Ok(())
}
