// The walk over all parts, with the tables of the reaches around.
ghost use Rattle.std.specs.Prelude.{◌≡◌, ◌++◌, ◌+◌, ◌<◌, ◌^◌, [], List, OnOk, IfOk};
ghost use Rattle.diagnostics.specs.Listing.{SameMembers};
ghost use Rattle.names_model.specs.declared.definition.Definition.{Definition};
ghost use Rattle.names_model.specs.Parts.{part_tree};
ghost use Rattle.names_model.specs.Sizes.{clauses_size, size_of};
ghost use Rattle.names_model.specs.Entries.{param_names};
ghost use Rattle.names_model.specs.Seeing.{Reach, in_block, in_modulion, outermost, entries_in};
ghost use Rattle.names_model.specs.NameRules.{nodes, told_behind};
ghost use Rattle.reach_tables.specs.Books.{Keeps};
ghost use Rattle.reach_tables.specs.Givens.{given_of, given_trees, givens};
ghost use Rattle.reach_walk.specs.Findings.{AddsInside, AddsNodes, AddsReach};
ghost use Rattle.reach_tables.specs.Offsets.{Fits, FitsInside};
ghost use Rattle.names_model.specs.Parts.{nodes_of};
ghost use Rattle.reach_tables.specs.Places.{singles};
ghost use Rattle.reach_tables.specs.Scopes.{Holds, Shows, shown, told_by};

use crate::findings::{Findings, note_here};
use chill_base::{List, Memory};
use diagnostics::Diagnostic;
use names_model::{Clause, Part, head_size, size_of};
use reach_tables::{
    Book, Given, Opening, Place, Scope, Source, Table, enter_params, enter_parts, enter_places,
    givens_of, lent_inner, seizes_all, split_given,
};
use std::alloc::Global;

/// The table of a reach with a head, and N1 of it.
fn open_reach(
    alloc: Global,
    book: &Book,
    around: &Source,
    head: &[Place],
    given: &[Given],
    from: u32,
    parts: &[Part],
    out: &mut Vec<Diagnostic>,
) -> Result<Table, Memory>
    ensures table { Fits from (nodes_of parts.now) → given_trees given.now ≡ givens book.now.all.items from (nodes_of parts.now) → IfOk result (λ t. Holds t book.now.all.items (singles head.now ++ entries_in book.now.all.items (told_by around.now) from (nodes_of parts.now))) }
    ensures told { Fits from (nodes_of parts.now) → given_trees given.now ≡ givens book.now.all.items from (nodes_of parts.now) → OnOk result (SameMembers out.new.items (out.old.items ++ told_behind book.now.all.items [] (singles head.now ++ entries_in book.now.all.items (told_by around.now) from (nodes_of parts.now)))) }
{
    let mut opening = Opening::new(alloc);
    enter_places(alloc, book, head, &mut opening)?;
    enter_parts(alloc, book, around, given, from, parts, &mut opening)?;
    opening.close(out)
}

// What a procedure or process enters into its body.
fn params_of(alloc: Global, from: u32, params: &List<Clause>) -> Result<Vec<Place>, Memory>
    ensures { from + clauses_size params.now < 2 ^ 32 → IfOk result (λ v. singles v.items ≡ param_names from params.now) }
{
    let mut head = Vec::new(alloc);
    enter_params(from, params.as_slice(), &mut head)?;
    Ok(head)
}

// The same of a reach inside another.
fn open_inner<'a>(
    alloc: Global,
    book: &'a Book,
    scope: &'a Scope<'a>,
    head: &[Place],
    given: &[Given],
    from: u32,
    parts: &[Part],
    out: &mut Vec<Diagnostic>,
) -> Result<Table, Memory>
    ensures table { Fits from (nodes_of parts.now) → given_trees given.now ≡ givens book.now.all.items from (nodes_of parts.now) → IfOk result (λ t. Holds t book.now.all.items (singles head.now ++ entries_in book.now.all.items (shown book.now scope.now) from (nodes_of parts.now))) }
    ensures told { Fits from (nodes_of parts.now) → given_trees given.now ≡ givens book.now.all.items from (nodes_of parts.now) → OnOk result (SameMembers out.new.items (out.old.items ++ told_behind book.now.all.items [] (singles head.now ++ entries_in book.now.all.items (shown book.now scope.now) from (nodes_of parts.now)))) }
{
    let around = Source::Around { book, scope };
    open_reach(alloc, book, &around, head, given, from, parts, out)
}

/// Finds what there is in the parts of a reach and in those inside it.
#[cycle(walk)]
fn walk<'a>(
    alloc: Global,
    book: &'a Book,
    scope: &'a Scope<'a>,
    from: u32,
    parts: &[Part],
    given: &[Given],
    out: &mut Findings,
) -> Result<(), Memory>
    ensures { (text : List Definition) (r : Reach) → Shows book.now scope.now text r → Fits from (nodes_of parts.now) → given_trees given.now ≡ givens book.now.all.items from (nodes_of parts.now) → OnOk result (AddsNodes out.old out.new text (nodes r from (nodes_of parts.now))) }
{
    let mut next = from;
    let mut left = given;
    for part in parts {
        let (own, behind) = split_given(part, left);
        note_here(alloc, book, scope, next, part, out)?;
        walk_inside(alloc, book, scope, next, part, own, out)?;
        left = behind;
        next = next.saturating_add(size_of(part));
    }
    Ok(())
}

/// Finds what there is in the reach that a part opens.
#[tactic(auto, using(names_model::proofs::PartViews::part_built, reach_tables::proofs::Appends::nothing_more))]
#[cycle(walk)]
fn walk_inside<'a>(
    alloc: Global,
    book: &'a Book,
    scope: &'a Scope<'a>,
    from: u32,
    part: &Part,
    given: &[Given],
    out: &mut Findings,
) -> Result<(), Memory>
    ensures { (text : List Definition) (r : Reach) → Shows book.now scope.now text r → from + size_of (part_tree part.now) < 2 ^ 32 → FitsInside from (part_tree part.now) → given_trees given.now ≡ given_of book.now.all.items from (part_tree part.now) → OnOk result (AddsInside out.old out.new text r from (part_tree part.now)) }
{
    match part {
        Part::Modulion { parts, .. } => {
            let inner = lent_inner(given);
            walk_modulion(
                alloc,
                book,
                scope,
                from.saturating_add(1),
                parts,
                inner,
                out,
            )
        }
        Part::Routine {
            params,
            result: returned,
            parts,
            ..
        } => {
            let head = params_of(alloc, from.saturating_add(1), params)?;
            let first = from.saturating_add(head_size(params.as_slice(), returned.as_slice()));
            walk_block(alloc, book, scope, head.as_slice(), first, parts, out)
        }
        Part::Block { parts, .. } => { walk_block(alloc, book, scope, &[], from, parts, out) }
        Part::Define(_) => Ok(()),
        Part::Mention(_) => Ok(()),
        Part::Seize(_) => Ok(()),
        Part::SeizeAll(_) => Ok(()),
        Part::Grant(_) => Ok(()),
        Part::GrantAll(_) => Ok(()),
        Part::Stray(_) => Ok(()),
    }
}

// Finds what there is in the reach of a modulion.
#[cycle(walk)]
fn walk_modulion<'a>(
    alloc: Global,
    book: &'a Book,
    scope: &'a Scope<'a>,
    from: u32,
    parts: &List<Part>,
    given: &[Given],
    out: &mut Findings,
) -> Result<(), Memory>
    ensures { (text : List Definition) (r : Reach) → Shows book.now scope.now text r → Fits from (nodes_of parts.now) → given_trees given.now ≡ givens book.now.all.items from (nodes_of parts.now) → OnOk result (AddsReach out.old out.new text (in_modulion r from (nodes_of parts.now)) from (nodes_of parts.now)) }
{
    let parts = parts.as_slice();
    let table = open_inner(alloc, book, scope, &[], given, from, parts, &mut out.told)?;
    let inner = Scope::Modulion {
        table,
        takes_all: seizes_all(parts),
        outer: scope,
    };
    walk(alloc, &*book, &inner, from, parts, given, out)?;
    Ok(())
}

// Finds what there is in the reach of a block with a head.
#[cycle(walk)]
fn walk_block<'a>(
    alloc: Global,
    book: &'a Book,
    scope: &'a Scope<'a>,
    head: &[Place],
    from: u32,
    parts: &List<Part>,
    out: &mut Findings,
) -> Result<(), Memory>
    ensures { (text : List Definition) (r : Reach) → Shows book.now scope.now text r → Fits from (nodes_of parts.now) → OnOk result (AddsReach out.old out.new text (in_block r (singles head.now) from (nodes_of parts.now)) from (nodes_of parts.now)) }
{
    let parts = parts.as_slice();
    let made = givens_of(alloc, book, from, parts)?;
    let given = made.as_slice();
    let table = open_inner(alloc, book, scope, head, given, from, parts, &mut out.told)?;
    let inner = Scope::Block {
        table,
        outer: scope,
    };
    walk(alloc, &*book, &inner, from, parts, given, out)?;
    Ok(())
}

/// Tells N1 to N5 of the parts of a program, and notes what depends on what and what each use stands for, behind what `out`
/// has. N1 may be told once where a place breaks it more than once with one name. Where there is no memory, nothing is said of what `out` has then.
pub fn find_in_program(
    alloc: Global,
    book: &Book,
    parts: &List<Part>,
    out: &mut Findings,
) -> Result<(), Memory>
    ensures { (text : List Definition) → Keeps book.now text → Fits 0 (nodes_of parts.now) → OnOk result (AddsReach out.old out.new text (outermost (nodes_of parts.now)) 0 (nodes_of parts.now)) }
{
    let parts = parts.as_slice();
    let made = givens_of(alloc, book, 0, parts)?;
    let given = made.as_slice();
    let table = open_reach(
        alloc,
        book,
        &Source::Nothing,
        &[],
        given,
        0,
        parts,
        &mut out.told,
    )?;
    let scope = Scope::Outermost { table };
    walk(alloc, book, &scope, 0, parts, given, out)?;
    Ok(())
}
