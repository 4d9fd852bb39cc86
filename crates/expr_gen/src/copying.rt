// OUT and INOUT arguments: places that are kept over a call, the lowest values that go in, and what is copied out.
#![tactic(auto, using(crate::proofs::Appending::keeping))]

ghost use Rattle.std.specs.Prelude.{◌≡◌, ◌+◌, pos, length, slice_get, get_or, map, IfOk, OnOk};
ghost use Rattle.modes.specs.ModeTree.{mode_tree};
ghost use Rattle.modes.specs.Scalars.{lowest_of};
ghost use Rattle.program_trees.specs.ExprTree.{argument_tree, location_tree};
ghost use Rattle.program_trees.specs.ProgramTree.{local_row_tree};
ghost use Rattle.code_scheme.specs.Pieces.{lowest_in_row, offsets_kept, keep_code, kept_code, under_code, tested_in, copies_out};
ghost use Rattle.code_scheme.specs.ExprSizes.{copies_out_size, copy_out_size};
ghost use Rattle.expr_gen.specs.Trees.{arguments_of, places_kept, copy_out, copying_size};
ghost use Rattle.expr_gen.specs.Putting.{Appends, Keeps, layout_of};
ghost use Rattle.expr_gen.specs.Puts.{PutsFitted, PutsKeep, PutsKept, PutsUnder, PutsLowest, PutsBack, PutsOneBack};

use crate::bounds::{INT, bounds_to_test};
use crate::building::{Draft, sum};
use crate::frames::Site;
use crate::locations::{check_size, has_offset, put_check, put_store};
use crate::refusal::PartRefusal;
use checked_program::{Argument, LocalRow, Location};
use chill_base::Scalars;
use code_types::Instr;
use modes::{Bounds, Mode, add_lowest};
use std::alloc::Global;

/// How many scratch locals an argument keeps over the call: one for a place with an offset.
#[tactic(auto, using(crate::proofs::Views::tree_built, crate::proofs::Appending::keeping))]
pub fn places_kept(argument: &Argument) -> u32
    ensures { result ≡ places_kept (argument_tree argument.now) }
{
    match argument {
        Argument::In(_) => 0,
        Argument::Out { target, .. } | Argument::InOut { target, .. } => offsets_kept(target),
    }
}

/// How many scratch locals the place of a location takes.
pub fn offsets_kept(target: &Location) -> u32
    ensures { result ≡ offsets_kept (location_tree target.now) }
{
    if has_offset(target) { 1 } else { 0 }
}

/// Keeps the place on top in a scratch local, where it has an offset.
pub fn keep_place(target: &Location, kept: u32, draft: &mut Draft) -> Result<(), PartRefusal>
    ensures puts { OnOk result (PutsKeep target.now kept draft.old draft.new) }
    ensures keeps { Keeps draft.old.code draft.new.code }
{
    if has_offset(target) {
        draft.put(Instr::SetLocal(kept, 1))
    } else {
        Ok(())
    }
}

/// The place that was kept in a scratch local, where it has an offset.
pub fn put_kept(target: &Location, kept: u32, draft: &mut Draft) -> Result<(), PartRefusal>
    ensures puts { OnOk result (PutsKept target.now kept draft.old draft.new) }
    ensures keeps { Keeps draft.old.code draft.new.code }
{
    if has_offset(target) {
        draft.put(Instr::Local(kept, 1))
    } else {
        Ok(())
    }
}

/// The lowest value of the parameter of this number, as so many scalars: its argument has as many.
pub fn put_lowest(
    locals: &[LocalRow],
    parameter: u32,
    count: u32,
    draft: &mut Draft,
) -> Result<(), PartRefusal>
    ensures puts { OnOk result (PutsLowest locals.now parameter count draft.old draft.new) }
    ensures keeps { Keeps draft.old.code draft.new.code }
{
    let lowest = lowest_of(draft.allocator(), locals, parameter)?;
    put_fitted(lowest.as_slice(), count, draft)
}

// The lowest value of the local of this number; no scalars where there is none.
fn lowest_of(alloc: Global, locals: &[LocalRow], number: u32) -> Result<Scalars, PartRefusal>
    ensures { let rows = map local_row_tree locals.now in
        IfOk result (λ lowest. lowest ≡ lowest_in_row (slice_get rows number)) }
{
    match locals.get(number as usize) {
        Some(local) => lowest_scalars(alloc, &local.mode),
        None => Ok(Scalars::new(alloc)),
    }
}

// The lowest value of a mode.
fn lowest_scalars(alloc: Global, mode: &Mode) -> Result<Scalars, PartRefusal>
    ensures { IfOk result (λ lowest. lowest ≡ lowest_of (mode_tree mode.now)) }
{
    let mut lowest = Scalars::new(alloc);
    add_lowest(mode, &mut lowest)?;
    Ok(lowest)
}

// So many scalars, each pushed by itself, 0 for each that isn't there: the size of a call goes by their number alone.
fn put_fitted(scalars: &[i64], count: u32, draft: &mut Draft) -> Result<(), PartRefusal>
    ensures puts { OnOk result (PutsFitted count scalars.now draft.old draft.new) }
    ensures keeps { Keeps draft.old.code draft.new.code }
{
    for number in 0..count {
        draft.put(Instr::Push(scalar_at(scalars, number)))?;
    }
    Ok(())
}

// The scalar of this number, or 0.
fn scalar_at(scalars: &[i64], number: u32) -> i64
    ensures { result ≡ get_or scalars.now number (pos 0) }
{
    let number = number as usize;
    if number < scalars.len() {
        scalars[number]
    } else {
        0
    }
}

/// Copies out what a call gave back, where the places of its arguments are kept from one scratch local up to another,
/// which is free.
pub fn put_copies_out(
    arguments: &[Argument],
    site: &Site,
    kept: u32,
    free: u32,
    draft: &mut Draft,
) -> Result<(), PartRefusal>
    ensures puts { OnOk result (PutsBack site.now arguments.now kept free draft.old draft.new) }
    ensures keeps { Keeps draft.old.code draft.new.code }
{
    let mut own = kept;
    for argument in arguments {
        put_copy_out(argument, site, own, free, draft)?;
        own = sum(own, places_kept(argument))?;
    }
    Ok(())
}

// The parameter of one argument is copied out.
#[tactic(auto, using(crate::proofs::Views::tree_built, crate::proofs::Appending::keeping))]
fn put_copy_out(
    argument: &Argument,
    site: &Site,
    kept: u32,
    free: u32,
    draft: &mut Draft,
) -> Result<(), PartRefusal>
    ensures puts { OnOk result (PutsOneBack site.now argument.now kept free draft.old draft.new) }
    ensures keeps { Keeps draft.old.code draft.new.code }
{
    match argument {
        Argument::In(_) => Ok(()),
        Argument::Out { target, bounds } => {
            put_check(bounds_to_test(*bounds, Some(INT)), draft)?;
            put_under(target, kept, free, draft)?;
            put_store(target, site, draft)
        }
        Argument::InOut {
            target,
            taken,
            bounds,
        } => {
            put_check(bounds_to_test(*bounds, *taken), draft)?;
            put_under(target, kept, free, draft)?;
            put_store(target, site, draft)
        }
    }
}

/// The bounds that the contents of an INOUT argument have to be tested against, which lie in those of the location.
pub fn tested_in(taken: Option<Bounds>, bounds: Option<Bounds>) -> Option<Bounds>
    ensures { result ≡ tested_in taken bounds }
{
    bounds_to_test(taken, bounds)
}

/// Puts a place that is kept in a scratch local below the value on top, by way of the scratch locals from `free` on.
#[tactic(auto, using(crate::proofs::Views::tree_built, crate::proofs::Appending::keeping))]
pub fn put_under(
    target: &Location,
    kept: u32,
    free: u32,
    draft: &mut Draft,
) -> Result<(), PartRefusal>
    ensures puts { OnOk result (PutsUnder target.now kept free draft.old draft.new) }
    ensures keeps { Keeps draft.old.code draft.new.code }
{
    if has_offset(target) {
        draft.put(Instr::SetLocal(free, target.count))?;
        draft.put(Instr::Local(kept, 1))?;
        draft.put(Instr::Local(free, target.count))
    } else {
        Ok(())
    }
}

/// How many instructions copy out the parameter of an argument.
#[tactic(auto, using(crate::proofs::Views::tree_built, crate::proofs::Appending::keeping))]
pub fn copy_out_size(argument: &Argument) -> u32
    ensures { result ≡ copying_size (argument_tree argument.now) }
{
    match argument {
        Argument::In(_) => 0,
        Argument::Out { target, bounds } => {
            copied_size(target, bounds_to_test(*bounds, Some(INT)))
        }
        Argument::InOut {
            target,
            taken,
            bounds,
        } => copied_size(target, bounds_to_test(*bounds, *taken)),
    }
}

// How many instructions test a value and assign it to a location whose place is kept.
fn copied_size(target: &Location, bounds: Option<Bounds>) -> u32
    ensures { result ≡ copy_out_size (location_tree target.now) bounds }
{
    let under = if has_offset(target) { 3 } else { 0 };
    check_size(bounds).saturating_add(under).saturating_add(1)
}
