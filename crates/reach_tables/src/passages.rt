// What passed a border before, which adds nothing when it passes again.
ghost use Rattle.std.specs.Prelude.{◌≡◌, ◌∷◌, ◌++◌, [], ℕ, List, Some, None, IfOk, OnOk, if◌then◌else◌};
ghost use Rattle.std.specs.Str.{bytes_eq};
ghost use Rattle.reach_tables.specs.Held.{held};
ghost use Rattle.reach_tables.specs.Tellings.{firsts, is_last};

use crate::book::Book;
use crate::table::Table;
use crate::twice::is_last;
use chill_base::Memory;
use names_model::Spelling;
use std::alloc::Global;

// Notes a number under a name, unless the one before it has its name. It answers which number was noted last.
fn note_number(
    alloc: Global,
    book: &Book,
    name: &Spelling,
    last: Option<u32>,
    number: u32,
    out: &mut Table,
) -> Result<Option<u32>, Memory>
    ensures last { IfOk result (λ next. next ≡ (if is_last book.now.all.items last number then last else Some number)) }
    ensures noted { OnOk result ((n : List ℕ) → held out.new n ≡ (if bytes_eq name.now n then held out.old n ++ (if is_last book.now.all.items last number then [] else number ∷ []) else held out.old n)) }
{
    if is_last(book, last, number) {
        return Ok(last);
    }
    out.append(alloc, name, number)?;
    Ok(Some(number))
}

/// Notes under a name what passed under it, the first of numbers of one name that stand together.
pub fn note_passed(
    alloc: Global,
    book: &Book,
    name: &Spelling,
    numbers: &[u32],
    out: &mut Table,
) -> Result<(), Memory>
    ensures { OnOk result ((n : List ℕ) → held out.new n ≡ (if bytes_eq name.now n then held out.old n ++ firsts book.now.all.items None numbers.now else held out.old n)) }
{
    let mut last = None;
    for number in numbers {
        last = note_number(alloc, book, name, last, *number, out)?;
    }
    Ok(())
}
