// What modulions give is entered into the reach around them.
ghost use Rattle.std.specs.Prelude.{◌≡◌, ◌++◌, ◌∷◌, [], ℕ, List, OnOk, flat_map};
ghost use Rattle.names_model.specs.declared.entry.Entry.{Entry};
ghost use Rattle.names_model.specs.Parts.{part_tree, parts_in};
ghost use Rattle.names_model.specs.Entries.{entry, given_all, given_entries, granted_entries, passed};
ghost use Rattle.reach_tables.specs.Givens.{given_of, given_trees};
ghost use Rattle.names_model.specs.Parts.{nodes_of};
ghost use Rattle.reach_tables.specs.Held.{Holdings, held};
ghost use Rattle.reach_tables.specs.Opens.{Opens};
ghost use Rattle.reach_tables.specs.Passages.{Passes};
ghost use Rattle.reach_tables.specs.Scopes.{told_by};

use crate::book::Book;
use crate::given::{Given, lent_giver};
use crate::opening::Opening;
use crate::passages::note_passed;
use crate::passing::{Giver, push_given_all, push_passed};
use crate::source::Source;
use crate::table::Table;
use chill_base::{Memory, Numbers, Pos};
use names_model::{Identifier, Part};
use std::alloc::Global;

// Enters what passes under a name the first time, and notes it. Its numbers are kept only meanwhile.
fn enter_first(
    alloc: Global,
    book: &Book,
    source: &Source,
    name: &Identifier,
    noted: &mut Table,
    out: &mut Opening,
) -> Result<(), Memory>
    ensures { (es : List Entry) → Passes out.old noted.old book.now.all.items (told_by source.now) es → held noted.old name.now.spelling ≡ [] → OnOk result (Passes out.new noted.new book.now.all.items (told_by source.now) (es ++ entry name.now.at (passed book.now.all.items (told_by source.now) name.now.spelling) ∷ [])) }
{
    let mut numbers = Numbers::new(alloc);
    push_passed(book, source, &name.spelling, &mut numbers)?;
    out.enter(alloc, book, name.at, numbers.as_slice())?;
    note_passed(alloc, book, &name.spelling, numbers.as_slice(), noted)?;
    Ok(())
}

/// Enters what passes under a name. What passed the same border under it before adds nothing, so only N1 is told then.
pub fn enter_passed(
    alloc: Global,
    book: &Book,
    source: &Source,
    name: &Identifier,
    noted: &mut Table,
    out: &mut Opening,
) -> Result<(), Memory>
    ensures { (es : List Entry) → Passes out.old noted.old book.now.all.items (told_by source.now) es → OnOk result (Passes out.new noted.new book.now.all.items (told_by source.now) (es ++ entry name.now.at (passed book.now.all.items (told_by source.now) name.now.spelling) ∷ [])) }
{
    let before = noted.find(&name.spelling);
    if !before.is_empty() {
        out.enter_again(alloc, book, name.at, before)?;
        return Ok(());
    }
    enter_first(alloc, book, source, name, noted, out)
}

// Enters what GRANT ALL gives.
fn enter_given_all(
    alloc: Global,
    book: &Book,
    giver: &Giver,
    at: Pos,
    out: &mut Opening,
) -> Result<(), Memory>
    ensures { (es : List Entry) → Opens out.old book.now.all.items es → OnOk result (Opens out.new book.now.all.items (es ++ entry at (given_all book.now.all.items giver.now.region giver.now.own.now) ∷ [])) }
{
    let mut numbers = Numbers::new(alloc);
    push_given_all(book, giver.region, giver.own, &mut numbers)?;
    out.enter(alloc, book, at, numbers.as_slice())?;
    Ok(())
}

// The same, whatever was noted of what passed by name.
fn enter_grant_all(
    alloc: Global,
    book: &Book,
    giver: &Giver,
    at: Pos,
    out: &mut Opening,
) -> Result<(), Memory>
    ensures { (es : List Entry) (noted : Holdings) (has : List ℕ → List ℕ) → Passes out.old noted book.now.all.items has es → OnOk result (Passes out.new noted book.now.all.items has (es ++ entry at (given_all book.now.all.items giver.now.region giver.now.own.now) ∷ [])) }
{
    enter_given_all(alloc, book, giver, at, out)?;
    Ok(())
}

// Enters what a part of a modulion gives.
#[tactic(auto, using(names_model::proofs::PartViews::part_built, crate::proofs::Appends::nothing_more))]
fn enter_granted(
    alloc: Global,
    book: &Book,
    giver: &Giver,
    part: &Part,
    noted: &mut Table,
    out: &mut Opening,
) -> Result<(), Memory>
    ensures { (es : List Entry) → Passes out.old noted.old book.now.all.items (told_by giver.now.has) es → OnOk result (Passes out.new noted.new book.now.all.items (told_by giver.now.has) (es ++ granted_entries book.now.all.items giver.now.region (told_by giver.now.has) giver.now.own.now (part_tree part.now))) }
{
    match part {
        Part::Grant(name) => enter_passed(alloc, book, &giver.has, name, noted, out),
        Part::GrantAll(at) => enter_grant_all(alloc, book, giver, *at, out),
        Part::Define(_)
        | Part::Mention(_)
        | Part::Seize(_)
        | Part::SeizeAll(_)
        | Part::Stray(_)
        | Part::Modulion { .. }
        | Part::Routine { .. }
        | Part::Block { .. } => Ok(()),
    }
}

// Enters what the parts of a modulion give.
fn enter_all_granted(
    alloc: Global,
    book: &Book,
    giver: &Giver,
    parts: &[Part],
    out: &mut Opening,
) -> Result<(), Memory>
    ensures { (es : List Entry) → Opens out.old book.now.all.items es → OnOk result (Opens out.new book.now.all.items (es ++ flat_map (granted_entries book.now.all.items giver.now.region (told_by giver.now.has) giver.now.own.now) (parts_in (nodes_of parts.now)))) }
{
    let mut noted = Table::new(alloc);
    for part in parts {
        enter_granted(alloc, book, giver, part, &mut noted, out)?;
    }
    Ok(())
}

/// Enters what a part gives, if it is a modulion.
#[tactic(auto, using(names_model::proofs::PartViews::part_built, crate::proofs::Appends::nothing_more))]
pub fn enter_given(
    alloc: Global,
    book: &Book,
    given: &[Given],
    part: &Part,
    out: &mut Opening,
) -> Result<(), Memory>
    ensures { (from : ℕ) → given_trees given.now ≡ given_of book.now.all.items from (part_tree part.now) → (es : List Entry) → Opens out.old book.now.all.items es → OnOk result (Opens out.new book.now.all.items (es ++ given_entries book.now.all.items from (part_tree part.now))) }
{
    match part {
        Part::Modulion { parts, .. } => match lent_giver(given) {
            Some(giver) => enter_all_granted(alloc, book, &giver, parts.as_slice(), out),
            None => Ok(()),
        },
        Part::Define(_)
        | Part::Mention(_)
        | Part::Seize(_)
        | Part::SeizeAll(_)
        | Part::Grant(_)
        | Part::GrantAll(_)
        | Part::Stray(_)
        | Part::Routine { .. }
        | Part::Block { .. } => Ok(()),
    }
}
