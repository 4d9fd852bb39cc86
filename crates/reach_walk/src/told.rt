// What is told of parts in their reach: N2 to N5.
ghost use Rattle.std.specs.Prelude.{◌≡◌, ◌++◌, List, OnOk, flat_map};
ghost use Rattle.names_model.specs.declared.definition.Definition.{Definition};
ghost use Rattle.names_model.specs.Kinds.{fits, is_measuring};
ghost use Rattle.names_model.specs.Parts.{part_tree};
ghost use Rattle.names_model.specs.Seeing.{Reach, sees};
ghost use Rattle.names_model.specs.NameRules.{any_kind, fits_argument, told_here, told_mention, told_mentions, told_use, unless_seen};
ghost use Rattle.reach_tables.specs.Scopes.{Shows};

use chill_base::Memory;
use diagnostics::{Diagnostic, Rule};
use names_model::{Clause, Identifier, Mention, Need, Part, push_told};
use reach_tables::{Book, Scope, seen_around, sees};
use std::alloc::Global;

// Tells a rule of a name unless something is seen.
fn tell_unless_seen(
    alloc: Global,
    rule: Rule,
    name: &Identifier,
    seen: &[u32],
    out: &mut Vec<Diagnostic>,
) -> Result<(), Memory>
    ensures { OnOk result (out.new.items ≡ out.old.items ++ unless_seen rule name.now seen.now) }
{
    if seen.is_empty() {
        push_told(alloc, name.at, rule, &name.spelling, out)?;
    }
    Ok(())
}

// Whether any of the definitions is of a kind that is needed.
fn is_any_fit(book: &Book, need: Need, numbers: &[u32]) -> bool
    ensures { result ≡ any_kind (fits need) book.now.all.items numbers.now }
{
    for number in numbers {
        if book.is_fit(need, *number) {
            return true;
        }
    }
    false
}

// Whether any of the definitions is of UPPER, LOWER or SIZE.
fn is_any_measuring(book: &Book, numbers: &[u32]) -> bool
    ensures { result ≡ any_kind is_measuring book.now.all.items numbers.now }
{
    for number in numbers {
        if book.is_measuring(*number) {
            return true;
        }
    }
    false
}

// Whether a name may be the whole argument of a routine.
fn fits_argument(book: &Book, callee: &[u32], seen: &[u32]) -> bool
    ensures { result ≡ fits_argument book.now.all.items callee.now seen.now }
{
    is_any_fit(book, Need::Value, seen)
        || (is_any_measuring(book, callee) && is_any_fit(book, Need::Mode, seen))
}

// Tells of a used name that isn't seen or isn't fit.
fn tell_use(
    alloc: Global,
    name: &Identifier,
    seen: &[u32],
    fit: bool,
    out: &mut Vec<Diagnostic>,
) -> Result<(), Memory>
    ensures { OnOk result (out.new.items ≡ out.old.items ++ told_use name.now seen.now fit) }
{
    if seen.is_empty() {
        push_told(alloc, name.at, Rule::N2, &name.spelling, out)?;
        return Ok(());
    }
    if !fit {
        push_told(alloc, name.at, Rule::N5, &name.spelling, out)?;
    }
    Ok(())
}

// Tells of a name where something is needed of it.
fn tell_needed(
    alloc: Global,
    book: &Book,
    scope: &Scope,
    name: &Identifier,
    need: Need,
    out: &mut Vec<Diagnostic>,
) -> Result<(), Memory>
    ensures { (text : List Definition) (r : Reach) → Shows book.now scope.now text r → OnOk result (out.new.items ≡ out.old.items ++ told_use name.now (sees text r name.now.spelling) (any_kind (fits need) book.now.all.items (sees text r name.now.spelling))) }
{
    let seen = sees(book, scope, &name.spelling);
    tell_use(alloc, name, seen, is_any_fit(book, need, seen), out)?;
    Ok(())
}

// Tells of the whole argument of a routine.
fn tell_argument(
    alloc: Global,
    book: &Book,
    scope: &Scope,
    name: &Identifier,
    routine: &Identifier,
    out: &mut Vec<Diagnostic>,
) -> Result<(), Memory>
    ensures { (text : List Definition) (r : Reach) → Shows book.now scope.now text r → OnOk result (out.new.items ≡ out.old.items ++ told_use name.now (sees text r name.now.spelling) (fits_argument book.now.all.items (sees text r routine.now.spelling) (sees text r name.now.spelling))) }
{
    let seen = sees(book, scope, &name.spelling);
    let callee = sees(book, scope, &routine.spelling);
    tell_use(alloc, name, seen, fits_argument(book, callee, seen), out)?;
    Ok(())
}

/// Tells N2 and N5 of a mention.
#[tactic(auto, using(reach_tables::proofs::Appends::nothing_more))]
pub fn tell_mention(
    alloc: Global,
    book: &Book,
    scope: &Scope,
    mention: &Mention,
    out: &mut Vec<Diagnostic>,
) -> Result<(), Memory>
    ensures { (text : List Definition) (r : Reach) → Shows book.now scope.now text r → OnOk result (out.new.items ≡ out.old.items ++ told_mention text r mention.now) }
{
    match mention {
        Mention::Use { name, need } => tell_needed(alloc, book, scope, name, *need, out),
        Mention::Argument { name, routine } => {
            tell_argument(alloc, book, scope, name, routine, out)
        }
        Mention::Element(_) => Ok(()),
    }
}

// Tells N2 and N5 of mentions.
fn tell_mentions(
    alloc: Global,
    book: &Book,
    scope: &Scope,
    text: &[Mention],
    out: &mut Vec<Diagnostic>,
) -> Result<(), Memory>
    ensures { (whole : List Definition) (r : Reach) → Shows book.now scope.now whole r → OnOk result (out.new.items ≡ out.old.items ++ told_mentions whole r text.now) }
{
    for mention in text {
        tell_mention(alloc, book, scope, mention, out)?;
    }
    Ok(())
}

// Tells N2 and N5 of clauses.
fn tell_clauses(
    alloc: Global,
    book: &Book,
    scope: &Scope,
    clauses: &[Clause],
    out: &mut Vec<Diagnostic>,
) -> Result<(), Memory>
    ensures { (text : List Definition) (r : Reach) → Shows book.now scope.now text r → OnOk result (out.new.items ≡ out.old.items ++ flat_map (λ c. told_mentions text r c.text) clauses.now) }
{
    for clause in clauses {
        tell_mentions(alloc, book, scope, clause.text.as_slice(), out)?;
    }
    Ok(())
}

// Tells N2 and N5 of the head of a procedure or process.
fn tell_head(
    alloc: Global,
    book: &Book,
    scope: &Scope,
    params: &[Clause],
    returned: &[Mention],
    out: &mut Vec<Diagnostic>,
) -> Result<(), Memory>
    ensures { (text : List Definition) (r : Reach) → Shows book.now scope.now text r → OnOk result (out.new.items ≡ out.old.items ++ (flat_map (λ c. told_mentions text r c.text) params.now ++ told_mentions text r returned.now)) }
{
    tell_clauses(alloc, book, scope, params, out)?;
    tell_mentions(alloc, book, scope, returned, out)?;
    Ok(())
}

/// Tells N2 to N5 of a part.
#[tactic(auto, using(names_model::proofs::PartViews::part_built, reach_tables::proofs::Appends::nothing_more))]
pub fn tell_here(
    alloc: Global,
    book: &Book,
    scope: &Scope,
    part: &Part,
    out: &mut Vec<Diagnostic>,
) -> Result<(), Memory>
    ensures { (text : List Definition) (r : Reach) → Shows book.now scope.now text r → OnOk result (out.new.items ≡ out.old.items ++ told_here text r (part_tree part.now)) }
{
    match part {
        Part::Define(clause) => tell_mentions(alloc, book, scope, clause.text.as_slice(), out),
        Part::Mention(mention) => tell_mention(alloc, book, scope, mention, out),
        Part::Seize(name) => {
            let seen = seen_around(book, scope, &name.spelling);
            tell_unless_seen(alloc, Rule::N3, name, seen, out)
        }
        Part::Grant(name) => {
            let seen = sees(book, scope, &name.spelling);
            tell_unless_seen(alloc, Rule::N3, name, seen, out)
        }
        Part::Stray(name) => push_told(alloc, name.at, Rule::N4, &name.spelling, out),
        Part::Routine {
            params,
            result: returned,
            ..
        } => tell_head(
            alloc,
            book,
            scope,
            params.as_slice(),
            returned.as_slice(),
            out,
        ),
        Part::SeizeAll(_) | Part::GrantAll(_) | Part::Modulion { .. } | Part::Block { .. } => Ok(
            (),
        ),
    }
}
