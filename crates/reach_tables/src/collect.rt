// The book of a program.
ghost use Rattle.std.specs.Prelude.{◌≡◌, ◌++◌, ◌+◌, ◌<◌, ◌^◌, ℕ, List, length, IfOk, OnOk};
ghost use Rattle.names_model.specs.Definitions.{numbers_on, text_definitions, under, with_predefined};
ghost use Rattle.reach_tables.specs.Books.{Keeps};
ghost use Rattle.reach_tables.specs.Held.{held};
ghost use Rattle.reach_tables.specs.Offsets.{Fits};
ghost use Rattle.names_model.specs.Parts.{nodes_of};

use crate::book::Book;
use crate::definitions::definitions_in;
use crate::founds::table_of_numbers;
use crate::predefined::{COUNT, push_predefined};
use crate::table::Table;
use chill_base::{Memory, Numbers};
use names_model::{Inside, Part, Spelling, up_to_greatest};
use std::alloc::Global;

// So many numbers from one on.
fn push_on(first: u32, count: u32, out: &mut Numbers) -> Result<(), Memory>
    ensures { first + count < 2 ^ 32 → OnOk result (out.new ≡ out.old ++ numbers_on first count) }
{
    for step in 0..count {
        out.push(first.saturating_add(step))?;
    }
    Ok(())
}

// The table of so many definitions from one on.
fn table_on(alloc: Global, book: &Book, first: u32, count: u32) -> Result<Table, Memory>
    ensures { first + count < 2 ^ 32 → IfOk result (λ t. (n : List ℕ) → held t n ≡ under book.now.all.items n (numbers_on first count)) }
{
    let mut numbers = Numbers::new(alloc);
    push_on(first, count, &mut numbers)?;
    let table = table_of_numbers(alloc, book, numbers.as_slice())?;
    Ok(table)
}

impl Book {
    /// The definitions of a program, by the parts of its outermost level.
    pub fn of(alloc: Global, parts: &[Part]) -> Result<Book, Memory>
        ensures { Fits 0 (nodes_of parts.now) → length (with_predefined (text_definitions (nodes_of parts.now))) < 2 ^ 32 → IfOk result (λ b. Keeps b (text_definitions (nodes_of parts.now))) }
    {
        let mut all = Vec::new(alloc);
        definitions_in(alloc, Inside::Outermost, 0, parts, &mut all)?;
        let first = up_to_greatest(all.len());
        push_predefined(alloc, &mut all)?;
        let mut book = Book {
            all,
            predefined: Table::new(alloc),
            nameless: Spelling::from_bytes(alloc, &[])?,
        };
        book.predefined = table_on(alloc, &book, first, COUNT)?;
        Ok(book)
    }
}
