// Locations: contents and assignment, where the place stands on the stack if it has an offset.
#![tactic(auto, using(crate::proofs::Appending::keeping))]

ghost use Rattle.std.specs.Prelude.{◌≡◌, ◌+◌, ◌&&◌, not, [], ◌∷◌, length, slice_get, IfOk, OnOk};
ghost use Rattle.code_types.specs.declared.instr.Instr.TheVariants as code;
ghost use Rattle.checked_program.specs.declared.expr.Base.TheVariants as bases;
ghost use Rattle.program_trees.specs.ProgramTree.{body_row_tree};
ghost use Rattle.program_trees.specs.ExprTree.{location_tree, part_tree};
ghost use Rattle.code_scheme.specs.Pieces.{capped, has_index, first_of_parts, has_offset, again_code, first_in, contents_at, contents_code, store_at, store_code, check_code};
ghost use Rattle.expr_gen.specs.Trees.{parts_of, is_index, first_in_part};
ghost use Rattle.expr_gen.specs.Putting.{Appends, Keeps, layout_of};
ghost use Rattle.expr_gen.specs.Puts.{PutsAll, PutsAgain, PutsRead, PutsWrite, PutsContents, PutsLocal, PutsStore, PutsSetLocal, first_scalar};

use crate::building::{Draft, uncapped};
use crate::frames::{Site, first_of_local};
use crate::refusal::PartRefusal;
use checked_program::{Base, Body, Location, Part};
use code_types::Instr;
use modes::Bounds;

/// Whether there is an index among the parts.
pub fn has_index(parts: &[Part]) -> bool
    ensures { result ≡ has_index (parts_of parts.now) }
{
    let mut found = false;
    for part in parts {
        found = found || is_index(part);
    }
    found
}

// Whether the part is an element.
#[tactic(auto, using(crate::proofs::Views::tree_built))]
fn is_index(part: &Part) -> bool
    ensures { result ≡ is_index (part_tree part.now) }
{
    match part {
        Part::Field { .. } => false,
        Part::Element { .. } => true,
    }
}

/// Whether an index behind the part would be the first one.
pub fn is_still_first(part: &Part, is_first: bool) -> bool
    ensures { result ≡ (is_first && not (is_index (part_tree part.now))) }
{
    is_first && !is_index(part)
}

/// The number of the first scalar that the fields among the parts lead to.
pub fn first_of_parts(parts: &[Part]) -> u32
    ensures { result ≡ capped (first_of_parts (parts_of parts.now)) }
{
    let mut first = 0u32;
    for part in parts {
        first = first.saturating_add(first_in_part(part));
    }
    first
}

// The number of the first scalar that a field leads to; that of an element is told by its index.
#[tactic(auto, using(crate::proofs::Views::tree_built))]
fn first_in_part(part: &Part) -> u32
    ensures { result ≡ first_in_part (part_tree part.now) }
{
    match part {
        Part::Field { first, .. } => *first,
        Part::Element { .. } => 0,
    }
}

/// Whether the place of a location is an offset on the stack: that of every shared location, and of a local with an index.
/// Else it is nothing.
#[tactic(auto, using(crate::proofs::Views::tree_built, crate::proofs::Appending::keeping))]
pub fn has_offset(location: &Location) -> bool
    ensures { result ≡ has_offset (location_tree location.now) }
{
    match location.base {
        Base::Shared(_) => true,
        Base::Local(_) => has_index(location.parts.as_slice()),
    }
}

/// The place once more, where it stands on top.
pub fn put_again(location: &Location, draft: &mut Draft) -> Result<(), PartRefusal>
    ensures puts { OnOk result (PutsAgain location.now draft.old draft.new) }
    ensures keeps { Keeps draft.old.code draft.new.code }
{
    if has_offset(location) {
        draft.put(Instr::Copy(1))
    } else {
        Ok(())
    }
}

/// The contents of a location, whose place stands on top.
#[tactic(auto, using(crate::proofs::Views::tree_built, crate::proofs::Appending::keeping))]
pub fn put_contents(location: &Location, site: &Site, draft: &mut Draft) -> Result<(), PartRefusal>
    ensures puts { OnOk result (PutsContents site.now location.now draft.old draft.new) }
    ensures keeps { Keeps draft.old.code draft.new.code }
{
    let parts = location.parts.as_slice();
    match location.base {
        Base::Shared(number) => put_read(number, parts, location.count, draft),
        Base::Local(number) => put_local(number, parts, location.count, site, draft),
    }
}

// The contents of a part of a shared location.
fn put_read(number: u32, parts: &[Part], count: u32, draft: &mut Draft) -> Result<(), PartRefusal>
    ensures puts { OnOk result (PutsRead number parts.now count draft.old draft.new) }
    ensures keeps { Keeps draft.old.code draft.new.code }
{
    let fields = uncapped(first_of_parts(parts))?;
    draft.put(Instr::Read(number, fields, count))
}

// The contents of a part of a local.
fn put_local(
    number: u32,
    parts: &[Part],
    count: u32,
    site: &Site,
    draft: &mut Draft,
) -> Result<(), PartRefusal>
    ensures puts { OnOk result (PutsLocal site.now number parts.now count draft.old draft.new) }
    ensures keeps { Keeps draft.old.code draft.new.code }
{
    let first = first_at(number, parts, site.body)?;
    if has_index(parts) {
        draft.put(Instr::LocalAt(first, count))
    } else {
        draft.put(Instr::Local(first, count))
    }
}

// The first scalar of a part of a local, without its indices.
fn first_at(number: u32, parts: &[Part], body: &Body) -> Result<u32, PartRefusal>
    ensures { IfOk result (λ first. first ≡ first_scalar body.now number parts.now) }
{
    uncapped(first_of_local(body, number).saturating_add(first_of_parts(parts)))
}

/// Assigns the value on top to a location, whose place stands below it.
#[tactic(auto, using(crate::proofs::Views::tree_built, crate::proofs::Appending::keeping))]
pub fn put_store(location: &Location, site: &Site, draft: &mut Draft) -> Result<(), PartRefusal>
    ensures puts { OnOk result (PutsStore site.now location.now draft.old draft.new) }
    ensures keeps { Keeps draft.old.code draft.new.code }
{
    let parts = location.parts.as_slice();
    match location.base {
        Base::Shared(number) => put_write(number, parts, location.count, draft),
        Base::Local(number) => put_set_local(number, parts, location.count, site, draft),
    }
}

// Assigns the value on top to a part of a shared location.
fn put_write(number: u32, parts: &[Part], count: u32, draft: &mut Draft) -> Result<(), PartRefusal>
    ensures puts { OnOk result (PutsWrite number parts.now count draft.old draft.new) }
    ensures keeps { Keeps draft.old.code draft.new.code }
{
    let fields = uncapped(first_of_parts(parts))?;
    draft.put(Instr::Write(number, fields, count))
}

// Assigns the value on top to a part of a local.
fn put_set_local(
    number: u32,
    parts: &[Part],
    count: u32,
    site: &Site,
    draft: &mut Draft,
) -> Result<(), PartRefusal>
    ensures puts { OnOk result (PutsSetLocal site.now number parts.now count draft.old draft.new) }
    ensures keeps { Keeps draft.old.code draft.new.code }
{
    let first = first_at(number, parts, site.body)?;
    if has_index(parts) {
        draft.put(Instr::SetLocalAt(first, count))
    } else {
        draft.put(Instr::SetLocal(first, count))
    }
}

/// The test of the value on top, where there are bounds to test it against.
pub fn put_check(bounds: Option<Bounds>, draft: &mut Draft) -> Result<(), PartRefusal>
    ensures puts { OnOk result (PutsAll (check_code bounds) draft.old draft.new) }
    ensures keeps { Keeps draft.old.code draft.new.code }
{
    match bounds {
        Some(bounds) => draft.put(Instr::Check(bounds.low, bounds.high)),
        None => Ok(()),
    }
}

/// How many instructions test a value.
pub fn check_size(bounds: Option<Bounds>) -> u32
    ensures { result ≡ length (check_code bounds) }
{
    match bounds {
        Some(_) => 1,
        None => 0,
    }
}
