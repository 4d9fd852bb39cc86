// What is kept of each modulion to make what it gives, from the innermost outwards.
ghost use Rattle.std.specs.Prelude.{◌≡◌, ◌++◌, ◌∷◌, [], ◌+◌, ◌<◌, ◌^◌, List, IfOk, OnOk};
ghost use Rattle.names_model.specs.declared.entry.Entry.{Entry};
ghost use Rattle.names_model.specs.Parts.{part_tree};
ghost use Rattle.names_model.specs.Sizes.{size_of};
ghost use Rattle.names_model.specs.Entries.{given_entries, own_entries, up_entries};
ghost use Rattle.reach_tables.specs.Givens.{given_by, given_nodes, given_of, given_trees, givens};
ghost use Rattle.reach_tables.specs.Offsets.{Fits, FitsInside};
ghost use Rattle.names_model.specs.Parts.{nodes_of};
ghost use Rattle.reach_tables.specs.Opens.{Opens};
ghost use Rattle.reach_tables.specs.Scopes.{Holds};

use crate::book::Book;
use crate::entries::{own_entries, own_numbers};
use crate::given::{Given, split_given};
use crate::granted::enter_given;
use crate::opening::Opening;
use crate::place::Place;
use crate::reached::enter_places;
use crate::table::Table;
use chill_base::{List, Memory, Numbers};
use names_model::{Part, size_of};
use std::alloc::Global;

// Enters what a part defines and what it gives. The places are a buffer.
fn enter_up_part(
    alloc: Global,
    book: &Book,
    given: &[Given],
    from: u32,
    part: &Part,
    places: &mut Vec<Place>,
    out: &mut Opening,
) -> Result<(), Memory>
    ensures { from + size_of (part_tree part.now) < 2 ^ 32 → given_trees given.now ≡ given_of book.now.all.items from (part_tree part.now) → (es : List Entry) → Opens out.old book.now.all.items es → OnOk result (Opens out.new book.now.all.items (es ++ (own_entries from (part_tree part.now) ++ given_entries book.now.all.items from (part_tree part.now)))) }
{
    places.clear();
    own_entries(from, part, places)?;
    enter_places(alloc, book, places.as_slice(), out)?;
    enter_given(alloc, book, given, part, out)?;
    Ok(())
}

// Enters what a reach has from itself and from its modulions.
fn enter_up(
    alloc: Global,
    book: &Book,
    from: u32,
    parts: &[Part],
    given: &[Given],
    out: &mut Opening,
) -> Result<(), Memory>
    ensures { Fits from (nodes_of parts.now) → given_trees given.now ≡ givens book.now.all.items from (nodes_of parts.now) → (es : List Entry) → Opens out.old book.now.all.items es → OnOk result (Opens out.new book.now.all.items (es ++ up_entries book.now.all.items from (nodes_of parts.now))) }
{
    let mut places = Vec::new(alloc);
    let mut next = from;
    let mut left = given;
    for part in parts {
        let (own, behind) = split_given(part, left);
        enter_up_part(alloc, book, own, next, part, &mut places, out)?;
        left = behind;
        next = next.saturating_add(size_of(part));
    }
    Ok(())
}

// The table of what a reach has from itself and from its modulions.
fn table_up(
    alloc: Global,
    book: &Book,
    from: u32,
    parts: &[Part],
    given: &[Given],
) -> Result<Table, Memory>
    ensures { Fits from (nodes_of parts.now) → given_trees given.now ≡ givens book.now.all.items from (nodes_of parts.now) → IfOk result (λ t. Holds t book.now.all.items (up_entries book.now.all.items from (nodes_of parts.now))) }
{
    let mut opening = Opening::new(alloc);
    enter_up(alloc, book, from, parts, given, &mut opening)?;
    Ok(opening.into_table())
}

// What is kept of a modulion of these parts, behind what is kept of others.
#[cycle(giving)]
fn push_modulion(
    alloc: Global,
    book: &Book,
    region: bool,
    from: u32,
    parts: &[Part],
    out: &mut List<Given>,
) -> Result<(), Memory>
    ensures { Fits from (nodes_of parts.now) → OnOk result (given_trees out.new ≡ given_trees out.old ++ given_by book.now.all.items region from (nodes_of parts.now) (given_nodes (givens book.now.all.items from (nodes_of parts.now))) ∷ []) }
{
    let inner = givens_of(alloc, book, from, parts)?;
    let has = table_up(alloc, book, from, parts, inner.as_slice())?;
    let mut own = Numbers::new(alloc);
    own_numbers(alloc, from, parts, &mut own)?;
    out.push(Given {
        region,
        has,
        own,
        inner,
    })?;
    Ok(())
}

// What is kept of a part, if it is a modulion, behind what is kept of others.
#[tactic(auto, using(names_model::proofs::PartViews::part_built, crate::proofs::Appends::nothing_more))]
#[cycle(giving)]
fn push_given(
    alloc: Global,
    book: &Book,
    from: u32,
    part: &Part,
    out: &mut List<Given>,
) -> Result<(), Memory>
    ensures { from + size_of (part_tree part.now) < 2 ^ 32 → FitsInside from (part_tree part.now) → OnOk result (given_trees out.new ≡ given_trees out.old ++ given_of book.now.all.items from (part_tree part.now)) }
{
    match part {
        Part::Modulion { region, parts, .. } => push_modulion(
            alloc,
            book,
            *region,
            from.saturating_add(1),
            parts.as_slice(),
            out,
        ),
        Part::Define(_)
        | Part::Mention(_)
        | Part::Seize(_)
        | Part::SeizeAll(_)
        | Part::Grant(_)
        | Part::GrantAll(_)
        | Part::Stray(_)
        | Part::Routine { .. }
        | Part::Block { .. } => Ok(()),
    }
}

/// What is kept of the modulions directly among parts, in their order.
#[cycle(giving)]
pub fn givens_of(
    alloc: Global,
    book: &Book,
    from: u32,
    parts: &[Part],
) -> Result<List<Given>, Memory>
    ensures { Fits from (nodes_of parts.now) → IfOk result (λ gs. given_trees gs ≡ givens book.now.all.items from (nodes_of parts.now)) }
{
    let mut givens = List::new(alloc);
    let mut next = from;
    for part in parts {
        push_given(alloc, book, next, part, &mut givens)?;
        next = next.saturating_add(size_of(part));
    }
    Ok(givens)
}
