// What is found under each name.
ghost use Rattle.std.specs.Prelude.{◌≡◌, ◌∷◌, ◌++◌, [], ℕ, List, IfOk, OnOk};
ghost use Rattle.names_model.specs.Definitions.{under};
ghost use Rattle.names_model.specs.Entries.{once_behind};
ghost use Rattle.reach_tables.specs.Held.{held};
ghost use Rattle.reach_tables.specs.Marks.{Added, EachHeld, Marks};

use crate::book::Book;
use crate::marked::Marked;
use crate::table::Table;
use chill_base::Memory;
use std::alloc::Global;

// Adds a definition under its own name, unless it is there.
fn add(
    alloc: Global,
    table: &mut Table,
    marked: &mut Marked,
    book: &Book,
    number: u32,
) -> Result<(), Memory>
    ensures { Marks marked.old table.old book.now.all.items → OnOk result (Added book.now.all.items (number ∷ []) table.old table.new marked.new) }
{
    if !marked.mark(number)? {
        return Ok(());
    }
    table.append(alloc, book.spelling(number as usize), number)?;
    Ok(())
}

/// The first of some numbers, where they are all that the table has under the name of the first, and those behind them. A
/// list that passes again is known by comparing it; a single number is looked up as fast.
pub fn split_known<'a>(table: &Table, book: &Book, numbers: &'a [u32]) -> (&'a [u32], &'a [u32])
    ensures parts { numbers.now ≡ result.0.now ++ result.1.now }
    ensures known { (marks : List ℕ) → Marks marks table.now book.now.all.items → EachHeld book.now.all.items table.now result.0.now }
{
    if numbers.len() < 2 {
        return numbers.split_at(0);
    }
    let known = table.find(book.spelling(numbers[0] as usize));
    if numbers.starts_with(known) {
        return numbers.split_at(known.len());
    }
    numbers.split_at(0)
}

/// Adds definitions, each once under its own name.
pub fn add_numbers(
    alloc: Global,
    table: &mut Table,
    marked: &mut Marked,
    book: &Book,
    numbers: &[u32],
) -> Result<(), Memory>
    ensures { Marks marked.old table.old book.now.all.items → OnOk result (Added book.now.all.items numbers.now table.old table.new marked.new) }
{
    for number in numbers {
        add(alloc, table, marked, book, *number)?;
    }
    Ok(())
}

/// The table of definitions, each once under its own name.
pub fn table_of_numbers(alloc: Global, book: &Book, numbers: &[u32]) -> Result<Table, Memory>
    ensures { IfOk result (λ t. (n : List ℕ) → held t n ≡ once_behind [] (under book.now.all.items n numbers.now)) }
{
    let mut table = Table::new(alloc);
    let mut marked = Marked::new(alloc);
    add_numbers(alloc, &mut table, &mut marked, book, numbers)?;
    Ok(table)
}
