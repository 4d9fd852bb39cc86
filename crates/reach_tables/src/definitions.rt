// The definitions of a text, in its order.
ghost use Rattle.std.specs.Prelude.{◌≡◌, ◌++◌, ◌∷◌, [], ◌+◌, ◌<◌, ◌^◌, min, length, IfOk, OnOk};
ghost use Rattle.names_model.specs.declared.definition.Inside.TheVariants as places;
ghost use Rattle.names_model.specs.declared.kind.Kind.TheVariants as kinds;
ghost use Rattle.names_model.specs.Parts.{part_tree};
ghost use Rattle.names_model.specs.Sizes.{clause_size, clauses_size, elements_in, head_size, size_of};
ghost use Rattle.names_model.specs.Definitions.{defined, definitions_in, definitions_of, elements_defined, elements_with, names_defined, params_defined, within};
ghost use Rattle.reach_tables.specs.Named.{named};
ghost use Rattle.reach_tables.specs.Offsets.{Fits, FitsInside};
ghost use Rattle.names_model.specs.Parts.{nodes_of};

use chill_base::{List, Memory};
use names_model::{
    Clause, Definition, Identifier, Inside, Kind, Mention, Part, elements_size, head_size, size_of,
};
use std::alloc::Global;

// Where the definitions in a block stand.
fn within(inside: Inside) -> Inside
    ensures { result ≡ within inside }
{
    match inside {
        Inside::Outermost => Inside::Outermost,
        Inside::Modulion(number) => Inside::Block(number),
        Inside::Body(number) => Inside::Block(number),
        Inside::Block(number) => Inside::Block(number),
    }
}

// A definition with no elements.
fn defined(
    alloc: Global,
    inside: Inside,
    kind: Kind,
    name: &Identifier,
) -> Result<Definition, Memory>
    ensures { IfOk result (λ d. d ≡ defined inside kind name.now) }
{
    Ok(Definition {
        name: name.copy(alloc)?,
        kind,
        inside,
        elements: 0,
    })
}

// How many elements go with each name of a clause.
fn elements_with(clause: &Clause) -> u32
    ensures { clause_size clause.now < 2 ^ 32 → result ≡ elements_with clause.now.kind (elements_in clause.now.text) }
{
    match clause.kind {
        Kind::Mode => elements_size(clause.text.as_slice()),
        _ => 0,
    }
}

// Names that are defined together, with so many elements.
fn push_named(
    alloc: Global,
    inside: Inside,
    kind: Kind,
    elements: u32,
    names: &[Identifier],
    out: &mut Vec<Definition>,
) -> Result<(), Memory>
    ensures { OnOk result (out.new.items ≡ out.old.items ++ named inside kind elements names.now) }
{
    for name in names {
        out.push(Definition {
            name: name.copy(alloc)?,
            kind,
            inside,
            elements,
        })?;
    }
    Ok(())
}

// The names of a clause.
fn push_names(
    alloc: Global,
    inside: Inside,
    clause: &Clause,
    out: &mut Vec<Definition>,
) -> Result<(), Memory>
    ensures { clause_size clause.now < 2 ^ 32 → OnOk result (out.new.items ≡ out.old.items ++ names_defined inside clause.now) }
{
    let elements = elements_with(clause);
    push_named(
        alloc,
        inside,
        clause.kind,
        elements,
        clause.names.as_slice(),
        out,
    )?;
    Ok(())
}

// The elements that the SETs among mentions define.
fn push_elements(
    alloc: Global,
    inside: Inside,
    text: &List<Mention>,
    out: &mut Vec<Definition>,
) -> Result<(), Memory>
    ensures { OnOk result (out.new.items ≡ out.old.items ++ elements_defined inside (elements_in text.now)) }
{
    for mention in text.as_slice() {
        if let Mention::Element(name) = mention {
            out.push(defined(alloc, inside, Kind::Element, name)?)?;
        }
    }
    Ok(())
}

// The names of a clause, and its elements, which may stand elsewhere.
fn push_clause(
    alloc: Global,
    inside: Inside,
    around: Inside,
    clause: &Clause,
    out: &mut Vec<Definition>,
) -> Result<(), Memory>
    ensures { clause_size clause.now < 2 ^ 32 → OnOk result (out.new.items ≡ out.old.items ++ (names_defined inside clause.now ++ elements_defined around (elements_in clause.now.text))) }
{
    push_names(alloc, inside, clause, out)?;
    push_elements(alloc, around, &clause.text, out)?;
    Ok(())
}

// The parameters, which stand in the body, and the elements in their modes.
fn push_params(
    alloc: Global,
    around: Inside,
    body: Inside,
    params: &List<Clause>,
    out: &mut Vec<Definition>,
) -> Result<(), Memory>
    ensures { clauses_size params.now < 2 ^ 32 → OnOk result (out.new.items ≡ out.old.items ++ params_defined around body params.now) }
{
    for clause in params.as_slice() {
        push_clause(alloc, body, around, clause, out)?;
    }
    Ok(())
}

// A procedure or process, its parameters, and the elements in their modes and in that of its result.
fn push_head(
    alloc: Global,
    from: u32,
    own: Definition,
    params: &List<Clause>,
    returned: &List<Mention>,
    out: &mut Vec<Definition>,
) -> Result<(), Memory>
    ensures { head_size params.now returned.now < 2 ^ 32 → OnOk result (out.new.items ≡ out.old.items ++ (own ∷ params_defined own.inside (places.Body from) params.now ++ elements_defined own.inside (elements_in returned.now))) }
{
    let inside = own.inside;
    out.push(own)?;
    push_params(alloc, inside, Inside::Body(from), params, out)?;
    push_elements(alloc, inside, returned, out)?;
    Ok(())
}

/// The definitions in parts that stand somewhere, the first of which has the number `from`.
#[cycle(definitions)]
pub fn definitions_in(
    alloc: Global,
    inside: Inside,
    from: u32,
    parts: &[Part],
    out: &mut Vec<Definition>,
) -> Result<(), Memory>
    ensures { Fits from (nodes_of parts.now) → OnOk result (out.new.items ≡ out.old.items ++ definitions_in inside from (nodes_of parts.now)) }
{
    let mut next = from;
    for part in parts {
        definitions_of(alloc, inside, next, part, out)?;
        next = next.saturating_add(size_of(part));
    }
    Ok(())
}

/// The definitions in a part.
#[tactic(auto, using(names_model::proofs::PartViews::part_built, crate::proofs::Appends::nothing_more))]
#[cycle(definitions)]
fn definitions_of(
    alloc: Global,
    inside: Inside,
    from: u32,
    part: &Part,
    out: &mut Vec<Definition>,
) -> Result<(), Memory>
    ensures { from + size_of (part_tree part.now) < 2 ^ 32 → FitsInside from (part_tree part.now) → OnOk result (out.new.items ≡ out.old.items ++ definitions_of inside from (part_tree part.now)) }
{
    match part {
        Part::Define(clause) => push_clause(alloc, inside, inside, clause, out),
        Part::Modulion { name, parts, .. } => {
            out.push(defined(alloc, inside, Kind::Modulion, name)?)?;
            let first = from.saturating_add(1);
            definitions_in(alloc, Inside::Modulion(from), first, parts.as_slice(), out)?;
            Ok(())
        }
        Part::Routine {
            name,
            kind,
            params,
            result: returned,
            parts,
            ..
        } => {
            let own = defined(alloc, inside, *kind, name)?;
            push_head(alloc, from, own, params, returned, out)?;
            let first = from.saturating_add(head_size(params.as_slice(), returned.as_slice()));
            definitions_in(alloc, Inside::Body(from), first, parts.as_slice(), out)?;
            Ok(())
        }
        Part::Block { parts, .. } => {
            definitions_in(alloc, within(inside), from, parts.as_slice(), out)
        }
        Part::Mention(_)
        | Part::Seize(_)
        | Part::SeizeAll(_)
        | Part::Grant(_)
        | Part::GrantAll(_)
        | Part::Stray(_) => Ok(()),
    }
}
