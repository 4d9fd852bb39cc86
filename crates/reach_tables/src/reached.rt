// The entries of reaches.
ghost use Rattle.std.specs.Prelude.{◌≡◌, ◌++◌, ◌+◌, ◌<◌, ◌^◌, List, OnOk};
ghost use Rattle.names_model.specs.Parts.{part_tree};
ghost use Rattle.names_model.specs.Sizes.{size_of};
ghost use Rattle.names_model.specs.declared.entry.Entry.{Entry};
ghost use Rattle.names_model.specs.Entries.{given_entries, own_entries};
ghost use Rattle.names_model.specs.Seeing.{entries_in, is_seize_all, seized_entries, seizes_all};
ghost use Rattle.reach_tables.specs.Givens.{given_of, given_trees, givens};
ghost use Rattle.reach_tables.specs.Offsets.{Fits};
ghost use Rattle.names_model.specs.Parts.{nodes_of};
ghost use Rattle.reach_tables.specs.Opens.{Opens};
ghost use Rattle.reach_tables.specs.Passages.{Passes};
ghost use Rattle.reach_tables.specs.Places.{singles};
ghost use Rattle.reach_tables.specs.Scopes.{told_by};

use crate::book::Book;
use crate::entries::own_entries;
use crate::given::{Given, split_given};
use crate::granted::{enter_given, enter_passed};
use crate::opening::Opening;
use crate::place::Place;
use crate::source::Source;
use crate::table::Table;
use chill_base::Memory;
use names_model::{Part, size_of};
use std::alloc::Global;

/// Enters definitions, each at its place.
pub fn enter_places(
    alloc: Global,
    book: &Book,
    places: &[Place],
    out: &mut Opening,
) -> Result<(), Memory>
    ensures { (es : List Entry) → Opens out.old book.now.all.items es → OnOk result (Opens out.new book.now.all.items (es ++ singles places.now)) }
{
    for place in places {
        out.enter(alloc, book, place.at, &[place.number])?;
    }
    Ok(())
}

// Enters what a part takes by name from around its reach.
#[tactic(auto, using(names_model::proofs::PartViews::part_built, crate::proofs::Appends::nothing_more))]
fn enter_taken(
    alloc: Global,
    book: &Book,
    around: &Source,
    part: &Part,
    noted: &mut Table,
    out: &mut Opening,
) -> Result<(), Memory>
    ensures { (es : List Entry) → Passes out.old noted.old book.now.all.items (told_by around.now) es → OnOk result (Passes out.new noted.new book.now.all.items (told_by around.now) (es ++ seized_entries book.now.all.items (told_by around.now) (part_tree part.now))) }
{
    match part {
        Part::Seize(name) => enter_passed(alloc, book, around, name, noted, out),
        Part::Define(_)
        | Part::Mention(_)
        | Part::SeizeAll(_)
        | Part::Grant(_)
        | Part::GrantAll(_)
        | Part::Stray(_)
        | Part::Modulion { .. }
        | Part::Routine { .. }
        | Part::Block { .. } => Ok(()),
    }
}

// Enters what a part defines, what it takes and what it gives.
fn enter_part(
    alloc: Global,
    book: &Book,
    around: &Source,
    given: &[Given],
    from: u32,
    part: &Part,
    noted: &mut Table,
    out: &mut Opening,
) -> Result<(), Memory>
    ensures { from + size_of (part_tree part.now) < 2 ^ 32 → given_trees given.now ≡ given_of book.now.all.items from (part_tree part.now) → (es : List Entry) → Passes out.old noted.old book.now.all.items (told_by around.now) es → OnOk result (Passes out.new noted.new book.now.all.items (told_by around.now) (es ++ (own_entries from (part_tree part.now) ++ seized_entries book.now.all.items (told_by around.now) (part_tree part.now) ++ given_entries book.now.all.items from (part_tree part.now)))) }
{
    let mut places = Vec::new(alloc);
    own_entries(from, part, &mut places)?;
    enter_places(alloc, book, places.as_slice(), out)?;
    enter_taken(alloc, book, around, part, noted, out)?;
    enter_given(alloc, book, given, part, out)?;
    Ok(())
}

/// Enters into a reach in the order of the text: what it defines, what it seizes by name from the source around it, and what
/// its modulions give.
pub fn enter_parts(
    alloc: Global,
    book: &Book,
    around: &Source,
    given: &[Given],
    from: u32,
    parts: &[Part],
    out: &mut Opening,
) -> Result<(), Memory>
    ensures { Fits from (nodes_of parts.now) → given_trees given.now ≡ givens book.now.all.items from (nodes_of parts.now) → (es : List Entry) → Opens out.old book.now.all.items es → OnOk result (Opens out.new book.now.all.items (es ++ entries_in book.now.all.items (told_by around.now) from (nodes_of parts.now))) }
{
    let mut noted = Table::new(alloc);
    let mut next = from;
    let mut left = given;
    for part in parts {
        let (own, behind) = split_given(part, left);
        enter_part(alloc, book, around, own, next, part, &mut noted, out)?;
        left = behind;
        next = next.saturating_add(size_of(part));
    }
    Ok(())
}

// Whether a part is SEIZE ALL.
#[tactic(auto, using(names_model::proofs::PartViews::part_built))]
fn is_seize_all(part: &Part) -> bool
    ensures { result ≡ is_seize_all (part_tree part.now) }
{
    match part {
        Part::SeizeAll(_) => true,
        Part::Define(_)
        | Part::Mention(_)
        | Part::Seize(_)
        | Part::Grant(_)
        | Part::GrantAll(_)
        | Part::Stray(_)
        | Part::Modulion { .. }
        | Part::Routine { .. }
        | Part::Block { .. } => false,
    }
}

/// Whether SEIZE ALL is among parts.
pub fn seizes_all(parts: &[Part]) -> bool
    ensures { result ≡ seizes_all (nodes_of parts.now) }
{
    for part in parts {
        if is_seize_all(part) {
            return true;
        }
    }
    false
}
