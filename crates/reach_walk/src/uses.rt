// What each use of a name stands for.
ghost use Rattle.std.specs.Prelude.{◌≡◌, ◌++◌, ◌∷◌, [], List, OnOk, flat_map, slice_index_or};
ghost use Rattle.names_model.specs.declared.definition.Definition.{Definition};
ghost use Rattle.names_model.specs.Parts.{part_tree};
ghost use Rattle.names_model.specs.Resolving.{resolved_here, resolved_mention, resolved_mentions};
ghost use Rattle.names_model.specs.Seeing.{Reach, sees};
ghost use Rattle.reach_tables.specs.Scopes.{Shows};

use chill_base::Memory;
use names_model::{Clause, Identifier, Mention, Part, Resolved};
use reach_tables::{Book, Scope, sees};

// The first number, or 0 where there is none.
fn first_of(numbers: &[u32]) -> u32
    ensures { result ≡ slice_index_or numbers.now 0 0 }
{
    match numbers.first() {
        Some(number) => *number,
        None => 0,
    }
}

// Notes what a used name stands for.
fn note_name(
    book: &Book,
    scope: &Scope,
    name: &Identifier,
    out: &mut Vec<Resolved>,
) -> Result<(), Memory>
    ensures { (text : List Definition) (r : Reach) → Shows book.now scope.now text r → OnOk result (out.new.items ≡ out.old.items ++ record { at = name.now.at; to = slice_index_or (sees text r name.now.spelling) 0 0 } ∷ []) }
{
    let to = first_of(sees(book, scope, &name.spelling));
    out.push(Resolved { at: name.at, to })?;
    Ok(())
}

// Notes what a mention stands for.
#[tactic(auto, using(reach_tables::proofs::Appends::nothing_more))]
fn note_mention(
    book: &Book,
    scope: &Scope,
    mention: &Mention,
    out: &mut Vec<Resolved>,
) -> Result<(), Memory>
    ensures { (text : List Definition) (r : Reach) → Shows book.now scope.now text r → OnOk result (out.new.items ≡ out.old.items ++ resolved_mention text r mention.now) }
{
    match mention {
        Mention::Use { name, .. } => note_name(book, scope, name, out),
        Mention::Argument { name, .. } => note_name(book, scope, name, out),
        Mention::Element(_) => Ok(()),
    }
}

// Notes what mentions stand for.
fn note_mentions(
    book: &Book,
    scope: &Scope,
    text: &[Mention],
    out: &mut Vec<Resolved>,
) -> Result<(), Memory>
    ensures { (whole : List Definition) (r : Reach) → Shows book.now scope.now whole r → OnOk result (out.new.items ≡ out.old.items ++ resolved_mentions whole r text.now) }
{
    for mention in text {
        note_mention(book, scope, mention, out)?;
    }
    Ok(())
}

// Notes what the mentions in clauses stand for.
fn note_clauses(
    book: &Book,
    scope: &Scope,
    clauses: &[Clause],
    out: &mut Vec<Resolved>,
) -> Result<(), Memory>
    ensures { (text : List Definition) (r : Reach) → Shows book.now scope.now text r → OnOk result (out.new.items ≡ out.old.items ++ flat_map (λ c. resolved_mentions text r c.text) clauses.now) }
{
    for clause in clauses {
        note_mentions(book, scope, clause.text.as_slice(), out)?;
    }
    Ok(())
}

// Notes what the mentions in the head of a procedure or process stand for.
fn note_head(
    book: &Book,
    scope: &Scope,
    params: &[Clause],
    returned: &[Mention],
    out: &mut Vec<Resolved>,
) -> Result<(), Memory>
    ensures { (text : List Definition) (r : Reach) → Shows book.now scope.now text r → OnOk result (out.new.items ≡ out.old.items ++ (flat_map (λ c. resolved_mentions text r c.text) params.now ++ resolved_mentions text r returned.now)) }
{
    note_clauses(book, scope, params, out)?;
    note_mentions(book, scope, returned, out)?;
    Ok(())
}

/// Notes what the uses in a part stand for.
#[tactic(auto, using(names_model::proofs::PartViews::part_built, reach_tables::proofs::Appends::nothing_more))]
pub fn note_uses(
    book: &Book,
    scope: &Scope,
    part: &Part,
    out: &mut Vec<Resolved>,
) -> Result<(), Memory>
    ensures { (text : List Definition) (r : Reach) → Shows book.now scope.now text r → OnOk result (out.new.items ≡ out.old.items ++ resolved_here text r (part_tree part.now)) }
{
    match part {
        Part::Define(clause) => note_mentions(book, scope, clause.text.as_slice(), out),
        Part::Mention(mention) => note_mention(book, scope, mention, out),
        Part::Routine {
            params,
            result: returned,
            ..
        } => note_head(book, scope, params.as_slice(), returned.as_slice(), out),
        Part::Seize(_) => Ok(()),
        Part::SeizeAll(_) => Ok(()),
        Part::Grant(_) => Ok(()),
        Part::GrantAll(_) => Ok(()),
        Part::Stray(_) => Ok(()),
        Part::Modulion { .. } => Ok(()),
        Part::Block { .. } => Ok(()),
    }
}
