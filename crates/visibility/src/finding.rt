// What the parts of a program tell of its names.
ghost use Rattle.std.specs.Prelude.{IfOk};
ghost use Rattle.chill_tree.specs.ItemTree.{program_tree};
ghost use Rattle.visibility.specs.Found.{IsFound};

use chill_base::Memory;
use chill_tree::tree::Tree;
use names_model::sizes_of;
use reach_parts::program_parts;
use reach_tables::{Book, PREDEFINED_COUNT};
use reach_walk::{Findings, find_in_program, fits_law, size_law};
use std::alloc::Global;

/// The definitions of a program, how many of them its text has, and what its parts tell, depend on and use.
#[derive(Drop)]
pub struct Found {
    pub book: Book,
    pub count: u32,
    pub findings: Findings,
}

/// What is found of the names of a program. It answers `Memory` also where no `u32` numbers all definitions.
pub fn find(alloc: Global, tree: &Tree) -> Result<Found, Memory>
    ensures { IfOk result (IsFound (program_tree tree.now)) }
{
    let parts = program_parts(alloc, tree)?;
    let count = sizes_of(parts.as_slice());
    if count >= u32::MAX - PREDEFINED_COUNT {
        return Err(Memory);
    }
    fits_law();
    size_law();
    let book = Book::of(alloc, parts.as_slice())?;
    let mut findings = Findings::new(alloc);
    find_in_program(alloc, &book, &parts, &mut findings)?;
    Ok(Found {
        book,
        count,
        findings,
    })
}
