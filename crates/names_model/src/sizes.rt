// How many definitions stand in parts, up to the greatest number.
ghost use Rattle.std.specs.Prelude.{◌≡◌, length, min};
ghost use Rattle.names_model.specs.Parts.{nodes_of, part_tree};
ghost use Rattle.names_model.specs.Sizes.{clause_size, clauses_size, elements_in, head_size, size_of, sizes_of};

use crate::identifier::Identifier;
use crate::part::{Clause, Mention, Part};

/// A number of things, up to the greatest number.
pub fn up_to_greatest(count: usize) -> u32
    ensures { result ≡ min count 4294967295 }
{
    count.min(u32::MAX as usize) as u32
}

/// How many names these are.
pub fn names_size(names: &[Identifier]) -> u32
    ensures { result ≡ min (length names.now) 4294967295 }
{
    up_to_greatest(names.len())
}

/// How many elements the SETs among mentions define.
pub fn elements_size(text: &[Mention]) -> u32
    ensures { result ≡ min (length (elements_in text.now)) 4294967295 }
{
    let mut size: u32 = 0;
    for mention in text {
        if let Mention::Element(_) = mention {
            size = size.saturating_add(1);
        }
    }
    size
}

/// The names of a clause, and its elements.
pub fn clause_size(clause: &Clause) -> u32
    ensures { result ≡ min (clause_size clause.now) 4294967295 }
{
    names_size(clause.names.as_slice()).saturating_add(elements_size(clause.text.as_slice()))
}

/// The names and elements of clauses.
pub fn clauses_size(clauses: &[Clause]) -> u32
    ensures { result ≡ min (clauses_size clauses.now) 4294967295 }
{
    let mut size: u32 = 0;
    for clause in clauses {
        size = size.saturating_add(clause_size(clause));
    }
    size
}

/// The definitions of a procedure or process before those in its body.
pub fn head_size(params: &[Clause], returned: &[Mention]) -> u32
    ensures { result ≡ min (head_size params.now returned.now) 4294967295 }
{
    clauses_size(params)
        .saturating_add(elements_size(returned))
        .saturating_add(1)
}

/// The definitions in a part.
#[tactic(auto, using(crate::proofs::PartViews::part_built))]
pub fn size_of(part: &Part) -> u32
    ensures { result ≡ min (size_of (part_tree part.now)) 4294967295 }
{
    match part {
        Part::Define(clause) => clause_size(clause),
        Part::Mention(_)
        | Part::Seize(_)
        | Part::SeizeAll(_)
        | Part::Grant(_)
        | Part::GrantAll(_)
        | Part::Stray(_) => 0,
        Part::Modulion { size, .. } => size.saturating_add(1),
        Part::Routine {
            params,
            result: returned,
            size,
            ..
        } => head_size(params.as_slice(), returned.as_slice()).saturating_add(*size),
        Part::Block { size, .. } => *size,
    }
}

/// The definitions in parts.
pub fn sizes_of(parts: &[Part]) -> u32
    ensures { result ≡ min (sizes_of (nodes_of parts.now)) 4294967295 }
{
    let mut size: u32 = 0;
    for part in parts {
        size = size.saturating_add(size_of(part));
    }
    size
}
