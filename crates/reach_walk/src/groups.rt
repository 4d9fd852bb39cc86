// What depends on what: the groups of the definitions of one text and of those that are seen under the names in it.
ghost use Rattle.std.specs.Prelude.{◌≡◌, ◌++◌, ◌∷◌, [], suc, ◌+◌, ◌<◌, ◌^◌, length, List, IfOk, OnOk};
ghost use Rattle.names_model.specs.declared.definition.Definition.{Definition};
ghost use Rattle.names_model.specs.Definitions.{numbers_on};
ghost use Rattle.names_model.specs.Dependence.{clause_group, group, groups_of, named_in, param_groups};
ghost use Rattle.names_model.specs.Parts.{part_tree};
ghost use Rattle.names_model.specs.Seeing.{Reach};
ghost use Rattle.names_model.specs.Sizes.{clause_size, clauses_size, head_size, size_of};
ghost use Rattle.reach_tables.specs.Scopes.{Shows};
ghost use Rattle.reach_walk.specs.SameGroups.{SameGroups};

use chill_base::{Memory, Numbers};
use cycles::Group;
use names_model::{Clause, Identifier, Mention, Part, clause_size};
use reach_tables::{Book, Scope, push_all, sees};
use std::alloc::Global;

// The numbers of names, the first of which has the number `from`.
fn numbers_on(alloc: Global, from: u32, names: &[Identifier]) -> Result<Numbers, Memory>
    ensures { from + length names.now < 2 ^ 32 → IfOk result (λ numbers. numbers ≡ numbers_on from (length names.now)) }
{
    let mut numbers = Numbers::new(alloc);
    let mut next = from;
    for _name in names {
        numbers.push(next)?;
        next = next.saturating_add(1);
    }
    Ok(numbers)
}

// Puts the definitions that are seen under the name that a mention uses behind others.
#[tactic(auto, using(reach_tables::proofs::Appends::nothing_more))]
fn push_seen(book: &Book, scope: &Scope, mention: &Mention, out: &mut Numbers) -> Result<(), Memory>
    ensures { (text : List Definition) (r : Reach) → Shows book.now scope.now text r → OnOk result (out.new ≡ out.old ++ named_in text r (mention.now ∷ [])) }
{
    match mention {
        Mention::Use { name, .. } => push_all(sees(book, scope, &name.spelling), out),
        Mention::Argument { name, .. } => push_all(sees(book, scope, &name.spelling), out),
        Mention::Element(_) => Ok(()),
    }
}

// All definitions that are seen under the names in a text.
fn named_in(alloc: Global, book: &Book, scope: &Scope, text: &[Mention]) -> Result<Numbers, Memory>
    ensures { (whole : List Definition) (r : Reach) → Shows book.now scope.now whole r → IfOk result (λ numbers. numbers ≡ named_in whole r text.now) }
{
    let mut numbers = Numbers::new(alloc);
    for mention in text {
        push_seen(book, scope, mention, &mut numbers)?;
    }
    Ok(numbers)
}

// Puts a group behind others, or its first nodes to those of the last one, where that depends on the same: so many definitions
// of one text each are one group.
fn push_group(own: Group, out: &mut Vec<Group>) -> Result<(), Memory>
    ensures { OnOk result (SameGroups out.new.items (out.old.items ++ own ∷ [])) }
{
    let Some(mut last) = out.pop() else {
        return Ok(out.push(own)?);
    };
    if last.to.as_slice() == own.to.as_slice() {
        push_all(own.from.as_slice(), &mut last.from)?;
        return Ok(out.push(last)?);
    }
    out.push(last)?;
    Ok(out.push(own)?)
}

// Notes on what the names of a clause depend.
fn note_clause(
    alloc: Global,
    book: &Book,
    scope: &Scope,
    from: u32,
    clause: &Clause,
    out: &mut Vec<Group>,
) -> Result<(), Memory>
    ensures { (text : List Definition) (r : Reach) → Shows book.now scope.now text r → from + clause_size clause.now < 2 ^ 32 → OnOk result (SameGroups out.new.items (out.old.items ++ clause_group text r from clause.now ∷ [])) }
{
    let defined = numbers_on(alloc, from, clause.names.as_slice())?;
    let named = named_in(alloc, book, scope, clause.text.as_slice())?;
    let own = Group {
        from: defined,
        to: named,
    };
    push_group(own, out)
}

// Notes on what parameters depend.
fn note_params(
    alloc: Global,
    book: &Book,
    scope: &Scope,
    from: u32,
    params: &[Clause],
    out: &mut Vec<Group>,
) -> Result<(), Memory>
    ensures { (text : List Definition) (r : Reach) → Shows book.now scope.now text r → from + clauses_size params.now < 2 ^ 32 → OnOk result (SameGroups out.new.items (out.old.items ++ param_groups text r from params.now)) }
{
    let mut next = from;
    for clause in params {
        note_clause(alloc, book, scope, next, clause, out)?;
        next = next.saturating_add(clause_size(clause));
    }
    Ok(())
}

// Notes on what a procedure or process depends, and its parameters.
fn note_routine(
    alloc: Global,
    book: &Book,
    scope: &Scope,
    from: u32,
    params: &[Clause],
    returned: &[Mention],
    out: &mut Vec<Group>,
) -> Result<(), Memory>
    ensures { (text : List Definition) (r : Reach) → Shows book.now scope.now text r → from + head_size params.now returned.now < 2 ^ 32 → OnOk result (SameGroups out.new.items (out.old.items ++ group (from ∷ []) (named_in text r returned.now) ∷ param_groups text r (suc from) params.now)) }
{
    let mut defined = Numbers::new(alloc);
    defined.push(from)?;
    let named = named_in(alloc, book, scope, returned)?;
    let own = Group {
        from: defined,
        to: named,
    };
    push_group(own, out)?;
    note_params(alloc, book, scope, from.saturating_add(1), params, out)?;
    Ok(())
}

/// Notes what depends on what by a part, whose first definition has the number `from`.
#[tactic(auto, using(names_model::proofs::PartViews::part_built))]
pub fn note_groups(
    alloc: Global,
    book: &Book,
    scope: &Scope,
    from: u32,
    part: &Part,
    out: &mut Vec<Group>,
) -> Result<(), Memory>
    ensures { (text : List Definition) (r : Reach) → Shows book.now scope.now text r → from + size_of (part_tree part.now) < 2 ^ 32 → OnOk result (SameGroups out.new.items (out.old.items ++ groups_of text r from (part_tree part.now))) }
{
    match part {
        Part::Define(clause) => note_clause(alloc, book, scope, from, clause, out),
        Part::Routine {
            params,
            result: returned,
            ..
        } => note_routine(
            alloc,
            book,
            scope,
            from,
            params.as_slice(),
            returned.as_slice(),
            out,
        ),
        Part::Mention(_) => Ok(()),
        Part::Seize(_) => Ok(()),
        Part::SeizeAll(_) => Ok(()),
        Part::Grant(_) => Ok(()),
        Part::GrantAll(_) => Ok(()),
        Part::Stray(_) => Ok(()),
        Part::Modulion { .. } => Ok(()),
        Part::Block { .. } => Ok(()),
    }
}
