// Declarations, assignments, and the result of a procedure.
#![tactic(auto, using(expr_gen::proofs::Appending::keeping))]

ghost use Rattle.std.specs.Prelude.{◌≡◌, [], ◌∷◌, length, IfOk, OnOk};
ghost use Rattle.program_trees.specs.ExprTree.{received_tree, location_tree};
ghost use Rattle.code_scheme.specs.Pieces.{capped, bounds_to_test, bounds_of_operator};
ghost use Rattle.code_scheme.specs.StatementPlain.{offset_of_name, name_size, names_size, declare_size, set_lowest_size, assign_size, set_result_size};
ghost use Rattle.expr_gen.specs.Putting.{Keeps};
ghost use Rattle.expr_gen.specs.Puts.{PutsAll};
ghost use Rattle.action_gen.specs.Puts.{PutsAssign, PutsDeclare, PutsKeeping, PutsNamed, PutsNames, PutsResult, PutsReturn, PutsTarget, PutsUpdate, SetsLowest, SetsOneLowest, change_size, returned};

use crate::around::Around;
use crate::ways_out::{put_way_out, way_out_size};
use checked_program::{Base, Binary, Expr, Location, Received};
use code_types::Instr;
use expr_gen::{
    Draft, PartRefusal, Site, bounds_of_operator, bounds_to_test, check_size, declared_scalars,
    expr_size, first_of_local, offsets_kept, place_size, put_again, put_behind, put_between,
    put_check, put_contents, put_expr, put_place, put_received, put_scalars, put_store,
    received_size, result_scalars, scalars_size, size_behind, size_between, uncapped,
};
use modes::Bounds;

/// A declaration with a value. One name is assigned it like a target; for several it is kept in scratch locals.
pub fn put_declare(
    names: &[Base],
    value: &Received,
    around: &Around,
    draft: &mut Draft,
) -> Result<(), PartRefusal>
    ensures puts { OnOk result (PutsDeclare around.now names.now value.now draft.old draft.new) }
    ensures keeps { Keeps draft.old.code draft.new.code }
{
    match names {
        [name] => put_only(*name, value, around, draft),
        _ => put_several(names, value, around, draft),
    }
}

// The value is assigned to one name.
fn put_only(
    name: Base,
    value: &Received,
    around: &Around,
    draft: &mut Draft,
) -> Result<(), PartRefusal>
    ensures puts { OnOk result (PutsDeclare around.now (name ∷ []) value.now draft.old draft.new) }
    ensures keeps { Keeps draft.old.code draft.new.code }
{
    put_offset_of(name, draft)?;
    put_received(value, &around.site, around.free, draft)?;
    put_named(name, value.value.count, around, draft)
}

// The value is kept, and assigned to each name.
fn put_several(
    names: &[Base],
    value: &Received,
    around: &Around,
    draft: &mut Draft,
) -> Result<(), PartRefusal>
    ensures puts { OnOk result (PutsKeeping around.now names.now value.now draft.old draft.new) }
    ensures keeps { Keeps draft.old.code draft.new.code }
{
    let count = value.value.count;
    put_received(value, &around.site, around.free, draft)?;
    draft.put(Instr::SetLocal(around.free, count))?;
    put_names(names, count, around, draft)
}

// The value of so many scalars that is kept is assigned to each name.
fn put_names(
    names: &[Base],
    count: u32,
    around: &Around,
    draft: &mut Draft,
) -> Result<(), PartRefusal>
    ensures puts { OnOk result (PutsNames around.now names.now count draft.old draft.new) }
    ensures keeps { Keeps draft.old.code draft.new.code }
{
    for name in names {
        put_offset_of(*name, draft)?;
        draft.put(Instr::Local(around.free, count))?;
        put_named(*name, count, around, draft)?;
    }
    Ok(())
}

// The place of a name, where it is a shared location.
fn put_offset_of(name: Base, draft: &mut Draft) -> Result<(), PartRefusal>
    ensures puts { OnOk result (PutsAll (offset_of_name name) draft.old draft.new) }
    ensures keeps { Keeps draft.old.code draft.new.code }
{
    match name {
        Base::Shared(_) => draft.put(Instr::Push(0)),
        Base::Local(_) => Ok(()),
    }
}

// The value on top is assigned to a name, whose place stands below it.
fn put_named(name: Base, count: u32, around: &Around, draft: &mut Draft) -> Result<(), PartRefusal>
    ensures puts { OnOk result (PutsNamed around.now name count draft.old draft.new) }
    ensures keeps { Keeps draft.old.code draft.new.code }
{
    match name {
        Base::Shared(location) => draft.put(Instr::Write(location, 0, count)),
        Base::Local(number) => {
            let first = first_of_local(around.site.body, number);
            draft.put(Instr::SetLocal(first, count))
        }
    }
}

/// How many instructions a declaration with a value has.
pub fn declare_size(names: &[Base], value: &Received) -> u32
    ensures { result ≡ capped (declare_size names.now (received_tree value.now)) }
{
    match names {
        [name] => received_size(value).saturating_add(named_size(*name)),
        _ => received_size(value)
            .saturating_add(1)
            .saturating_add(names_size(names)),
    }
}

fn names_size(names: &[Base]) -> u32
    ensures { result ≡ capped (names_size names.now) }
{
    let mut size = 0u32;
    for name in names {
        size = size.saturating_add(named_size(*name)).saturating_add(1);
    }
    size
}

// How many instructions assign a value to a name.
fn named_size(name: Base) -> u32
    ensures { result ≡ name_size name }
{
    match name {
        Base::Shared(_) => 2,
        Base::Local(_) => 1,
    }
}

/// A declaration of locals without a value, which get the lowest one.
pub fn put_lowest_of(
    locals: &[u32],
    value: &[i64],
    around: &Around,
    draft: &mut Draft,
) -> Result<(), PartRefusal>
    ensures puts { OnOk result (SetsLowest around.now locals.now value.now draft.old draft.new) }
    ensures keeps { Keeps draft.old.code draft.new.code }
{
    let count = count_of(value)?;
    for number in locals {
        put_lowest(*number, value, count, around, draft)?;
    }
    Ok(())
}

// A local gets a value of so many scalars.
fn put_lowest(
    number: u32,
    value: &[i64],
    count: u32,
    around: &Around,
    draft: &mut Draft,
) -> Result<(), PartRefusal>
    ensures puts { OnOk result (SetsOneLowest around.now number value.now count draft.old draft.new) }
    ensures keeps { Keeps draft.old.code draft.new.code }
{
    let first = first_of_local(around.site.body, number);
    put_scalars(value, draft)?;
    draft.put(Instr::SetLocal(first, count))
}

/// How many instructions a declaration without a value has.
pub fn lowest_size(locals: &[u32], value: &[i64]) -> u32
    ensures { result ≡ capped (set_lowest_size locals.now value.now) }
{
    let mut size = 0u32;
    for _local in locals {
        size = size.saturating_add(scalars_size(value)).saturating_add(1);
    }
    size
}

// How many scalars a value has.
fn count_of(value: &[i64]) -> Result<u32, PartRefusal>
    ensures { IfOk result (λ count. count ≡ length value.now) }
{
    uncapped((value.len() as u64).min(u32::MAX as u64) as u32)
}

/// An assignment.
pub fn put_assign(
    target: &Location,
    value: &Received,
    around: &Around,
    draft: &mut Draft,
) -> Result<(), PartRefusal>
    ensures puts { OnOk result (PutsAssign around.now target.now value.now draft.old draft.new) }
    ensures keeps { Keeps draft.old.code draft.new.code }
{
    put_place(target, &around.site, around.free, draft)?;
    put_received(value, &around.site, around.free, draft)?;
    put_store(target, &around.site, draft)
}

/// How many instructions an assignment has.
pub fn assign_size(target: &Location, value: &Received) -> u32
    ensures { result ≡ capped (assign_size (location_tree target.now) (received_tree value.now)) }
{
    place_size(target)
        .saturating_add(received_size(value))
        .saturating_add(1)
}

/// What an assignment with an operator does to the contents of its target.
#[derive(Clone, Copy)]
pub struct Change<'a> {
    pub operator: Binary,
    pub value: &'a Expr,
    pub bounds: Option<Bounds>,
}

impl<'a> Change<'a> {
    // The bounds that the new value has to be tested against.
    fn tested(&self) -> Option<Bounds>
        ensures { result ≡ bounds_to_test self.now.bounds (bounds_of_operator self.now.operator) }
    {
        bounds_to_test(self.bounds, bounds_of_operator(self.operator))
    }
}

/// An assignment with an operator: the place is found once, and the contents are read before the value is found.
pub fn put_update(
    target: &Location,
    change: Change,
    around: &Around,
    draft: &mut Draft,
) -> Result<(), PartRefusal>
    ensures puts { OnOk result (PutsUpdate around.now target.now change.entry draft.old draft.new) }
    ensures keeps { Keeps draft.old.code draft.new.code }
{
    put_read(target, around, draft)?;
    put_between(
        change.operator,
        change.bounds,
        expr_size(change.value),
        draft,
    )?;
    put_expr(change.value, &around.site, around.free, draft)?;
    put_behind(change.operator, target.count, draft)?;
    put_check(change.tested(), draft)?;
    put_store(target, &around.site, draft)
}

// The place and the contents of a target.
fn put_read(target: &Location, around: &Around, draft: &mut Draft) -> Result<(), PartRefusal>
    ensures puts { OnOk result (PutsTarget around.now target.now draft.old draft.new) }
    ensures keeps { Keeps draft.old.code draft.new.code }
{
    put_place(target, &around.site, around.free, draft)?;
    put_again(target, draft)?;
    put_contents(target, &around.site, draft)
}

/// How many instructions an assignment with an operator has.
pub fn update_size(target: &Location, change: Change) -> u32
    ensures { result ≡ capped (change_size target.now change.entry) }
{
    place_size(target)
        .saturating_add(offsets_kept(target))
        .saturating_add(1)
        .saturating_add(size_between(change.operator, change.bounds))
        .saturating_add(expr_size(change.value))
        .saturating_add(size_behind(change.operator))
        .saturating_add(check_size(change.tested()))
        .saturating_add(1)
}

/// RESULT: the result is set.
pub fn put_result(value: &Received, around: &Around, draft: &mut Draft) -> Result<(), PartRefusal>
    ensures puts { OnOk result (PutsResult around.now value.now draft.old draft.new) }
    ensures keeps { Keeps draft.old.code draft.new.code }
{
    let body = around.site.body;
    let first = uncapped(declared_scalars(body))?;
    put_received(value, &around.site, around.free, draft)?;
    draft.put(Instr::SetLocal(first, result_scalars(body)))
}

/// How many instructions RESULT has.
pub fn result_size(value: &Received) -> u32
    ensures { result ≡ capped (set_result_size (received_tree value.now)) }
{
    received_size(value).saturating_add(1)
}

/// RETURN: the result is set where a value is written, and the way out is taken.
pub fn put_return(
    value: &Option<Received>,
    around: &Around,
    draft: &mut Draft,
) -> Result<(), PartRefusal>
    ensures puts { OnOk result (PutsReturn around.now value.now draft.old draft.new) }
    ensures keeps { Keeps draft.old.code draft.new.code }
{
    match value {
        Some(value) => {
            put_result(value, around, draft)?;
            put_way_out(around.site.body, draft)
        }
        None => put_way_out(around.site.body, draft),
    }
}

/// How many instructions RETURN has in a body.
pub fn return_size(value: &Option<Received>, site: &Site) -> u32
    ensures { result ≡ capped (returned value.now site.now) }
{
    match value {
        Some(value) => result_size(value).saturating_add(way_out_size(site.body)),
        None => way_out_size(site.body),
    }
}
