// Values: one recursion over expressions, the parts of locations, and arguments. `free` is the first free scratch local.
#![tactic(auto, using(crate::proofs::Appending::keeping))]

ghost use Rattle.std.specs.Prelude.{◌≡◌, ◌+◌, ◌<◌, ◌∷◌, [], Some, true, pos, length, IfOk, OnOk, if◌then◌else◌, slice_get};
ghost use Rattle.program_trees.specs.ExprTree.{expr_tree, location_tree, received_tree, received_of, call_tree, start_tree, range_tree, argument_tree, part_tree, received_count};
ghost use Rattle.program_trees.specs.ProgramTree.{BodyRowTree, checked_tree, body_row_tree};
ghost use Rattle.code_scheme.specs.StatementSite.{first_free};
ghost use Rattle.code_scheme.specs.Pieces.{capped, has_index, first_of_parts, member_code, kept_behind, layout_in};
ghost use Rattle.code_types.specs.declared.instr.Instr.TheVariants as code;
ghost use Rattle.code_scheme.specs.ExprSizes.{expr_size, place_size, indices_size, received_size, received_sizes, members_size, start_size, call_size, arguments_size};
ghost use Rattle.code_scheme.specs.ExprCode.{expr_code, place_code, indices_code, received_code, received_codes, members_code, start_code, call_code, arguments_code, sum_code, cut_code, receive_code, counts_of};
ghost use Rattle.expr_gen.specs.Trees.{index_code, index_size, parts_of, ranges_of, arguments_of, argument_code, argument_size, range_code, range_size};
ghost use Rattle.expr_gen.specs.Putting.{Appends, Puts, Keeps, layout_of};
ghost use Rattle.expr_gen.specs.Puts.{PutsAll, PutsSome, PutsExpr, PutsCut, PutsIndices, PutsIndex, PutsPlace, PutsReceived, PutsAllReceived, PutsStart, PutsPowerset, PutsRange, PutsCall, Gives, PutsFor, PutsSpan, source_code};

use crate::bounds::{bounds_of_value, tested};
use crate::building::{Draft, sum, uncapped};
use crate::copying::{keep_place, places_kept, put_copies_out, put_kept, put_lowest, tested_in};
use crate::frames::{Site, locals_of};
use crate::locations::{
    first_of_parts, has_index, has_offset, is_still_first, put_check, put_contents,
};
use crate::operators::{put_behind, put_between, put_member, put_prefix, put_routine};
use crate::refusal::PartRefusal;
use crate::repeating::{put_copies, put_scalars};
use crate::sizes::expr_size;
use checked_program::{
    Argument, Call, Expr, LocalRow, Location, Operation, Part, Range, Received, Start,
};
use code_types::Instr;
use modes::Bounds;

/// Appends the code of an expression, which leaves its value on the stack.
#[tactic(auto, using(crate::proofs::Appending::keeping))]
#[cycle(value)]
pub fn put_expr(expr: &Expr, site: &Site, free: u32, draft: &mut Draft) -> Result<(), PartRefusal>
    ensures puts { OnOk result (PutsExpr site.now free expr.now draft.old draft.new) }
    ensures keeps { Keeps draft.old.code draft.new.code }
{
    match &expr.operation {
        Operation::Constant(scalars) => put_scalars(scalars.as_slice(), draft),
        Operation::This => draft.put(Instr::This),
        Operation::Contents(location) => {
            put_place(location, site, free, draft)?;
            put_contents(location, site, draft)
        }
        Operation::PartOf { of, parts } => {
            put_expr(of, site, free, draft)?;
            put_indices(parts.as_slice(), site, free, draft)?;
            put_cut(parts.as_slice(), of.count, expr.count, draft)
        }
        Operation::Receive { buffer } => put_receive(*buffer, expr.count, free, draft),
        Operation::Start(start) => put_start(start, site, free, draft),
        Operation::Call(call) => put_call(call, site, free, draft),
        Operation::Powerset { bounds, members } => {
            put_powerset(members.as_slice(), *bounds, site, free, draft)
        }
        Operation::Parts(parts) => put_all_received(parts.as_slice(), site, free, draft),
        Operation::Uniform { elements, value } => {
            put_received(value, site, free, draft)?;
            put_copies(*elements, value.value.count, draft)
        }
        Operation::Routine { routine, argument } => {
            put_expr(argument, site, free, draft)?;
            put_routine(*routine, draft)
        }
        Operation::GetInt => draft.put(Instr::GetInt),
        Operation::Prefixed { operator, operand } => {
            put_expr(operand, site, free, draft)?;
            put_prefix(*operator, draft)
        }
        Operation::Binary {
            operator,
            left,
            right,
        } => {
            put_expr(left, site, free, draft)?;
            put_between(*operator, bounds_of_value(left), expr_size(right), draft)?;
            put_expr(right, site, free, draft)?;
            put_behind(*operator, left.count, draft)
        }
    }
}

// The part of so many scalars of the value of so many scalars on top, behind its indices.
fn put_cut(parts: &[Part], of: u32, count: u32, draft: &mut Draft) -> Result<(), PartRefusal>
    ensures puts { OnOk result (PutsCut parts.now of count draft.old draft.new) }
    ensures keeps { Keeps draft.old.code draft.new.code }
{
    let fields = uncapped(first_of_parts(parts))?;
    if has_index(parts) {
        put_member(i64::from(fields), draft)?;
        draft.put(Instr::PartAt(count, of))
    } else {
        draft.put(Instr::Part(fields, count, of))
    }
}

// The offset to which the indices among the parts lead, where there is one.
#[tactic(auto, using(crate::proofs::Appending::keeping))]
#[cycle(value)]
fn put_indices(parts: &[Part], site: &Site, free: u32, draft: &mut Draft) -> Result<(), PartRefusal>
    ensures puts { OnOk result (PutsIndices site.now free parts.now draft.old draft.new) }
    ensures keeps { Keeps draft.old.code draft.new.code }
{
    let mut is_first = true;
    for part in parts {
        put_index(part, is_first, site, free, draft)?;
        is_first = is_still_first(part, is_first);
    }
    Ok(())
}

// The offset of an index, added to the one below it where it isn't the first one. A field has none.
#[tactic(auto, using(crate::proofs::Appending::keeping))]
#[cycle(value)]
fn put_index(
    part: &Part,
    is_first: bool,
    site: &Site,
    free: u32,
    draft: &mut Draft,
) -> Result<(), PartRefusal>
    ensures puts { OnOk result (PutsIndex site.now free is_first part.now draft.old draft.new) }
    ensures keeps { Keeps draft.old.code draft.new.code }
{
    match part {
        Part::Field { .. } => Ok(()),
        Part::Element {
            index,
            bounds,
            count,
        } => {
            put_expr(index, site, free, draft)?;
            draft.put(Instr::Index(bounds.low, bounds.high, *count))?;
            put_sum(is_first, draft)
        }
    }
}

// The sum of the offset on top and the one below it, where that isn't the first one.
fn put_sum(is_first: bool, draft: &mut Draft) -> Result<(), PartRefusal>
    ensures puts { OnOk result (PutsAll (sum_code is_first) draft.old draft.new) }
    ensures keeps { Keeps draft.old.code draft.new.code }
{
    if is_first {
        Ok(())
    } else {
        draft.put(Instr::Add)
    }
}

/// Appends the code of a location's place: the offset of its indices, where it has one. It stands below a value that is
/// assigned.
#[tactic(auto, using(crate::proofs::Appending::keeping))]
#[cycle(value)]
pub fn put_place(
    location: &Location,
    site: &Site,
    free: u32,
    draft: &mut Draft,
) -> Result<(), PartRefusal>
    ensures puts { OnOk result (PutsPlace site.now free location.now draft.old draft.new) }
    ensures keeps { Keeps draft.old.code draft.new.code }
{
    let parts = location.parts.as_slice();
    if has_index(parts) {
        put_indices(parts, site, free, draft)
    } else if has_offset(location) {
        draft.put(Instr::Push(0))
    } else {
        Ok(())
    }
}

// A value that is received from a buffer.
fn put_receive(buffer: u32, count: u32, free: u32, draft: &mut Draft) -> Result<(), PartRefusal>
    ensures puts { OnOk result (PutsSome (receive_code buffer count free) 6 draft.old draft.new) }
    ensures keeps { Keeps draft.old.code draft.new.code }
{
    put_source(buffer, free, count, draft)?;
    draft.put(Instr::Take(1, false))?;
    draft.put(Instr::Pop(2))?;
    draft.put(Instr::Local(free, count))
}

// A buffer, and the scratch locals that get its value.
fn put_source(buffer: u32, first: u32, count: u32, draft: &mut Draft) -> Result<(), PartRefusal>
    ensures puts { OnOk result (PutsSome (source_code buffer first count) 3 draft.old draft.new) }
    ensures keeps { Keeps draft.old.code draft.new.code }
{
    draft.put(Instr::Thing(buffer))?;
    put_number(first, draft)?;
    put_number(count, draft)
}

// A number of locals or scalars.
fn put_number(number: u32, draft: &mut Draft) -> Result<(), PartRefusal>
    ensures puts { OnOk result (Puts (code.Push (pos number)) draft.old.code draft.new.code) }
    ensures keeps { Keeps draft.old.code draft.new.code }
{
    draft.put(Instr::Push(i64::from(number)))
}

/// Appends the code of a value that something takes, with its test.
#[tactic(auto, using(crate::proofs::Appending::keeping))]
#[cycle(value)]
pub fn put_received(
    received: &Received,
    site: &Site,
    free: u32,
    draft: &mut Draft,
) -> Result<(), PartRefusal>
    ensures puts { OnOk result (PutsReceived site.now free received.now draft.old draft.new) }
    ensures keeps { Keeps draft.old.code draft.new.code }
{
    put_expr(&received.value, site, free, draft)?;
    put_check(tested(received), draft)
}

/// Appends the code of values that are taken one behind the other, each with its test.
#[tactic(auto, using(crate::proofs::Appending::keeping))]
#[cycle(value)]
pub fn put_all_received(
    all: &[Received],
    site: &Site,
    free: u32,
    draft: &mut Draft,
) -> Result<(), PartRefusal>
    ensures puts { OnOk result (PutsAllReceived site.now free all.now draft.old draft.new) }
    ensures keeps { Keeps draft.old.code draft.new.code }
{
    for received in all {
        put_received(received, site, free, draft)?;
    }
    Ok(())
}

/// Appends the code of a process's start, which leaves its instance on the stack.
#[tactic(auto, using(crate::proofs::Appending::keeping))]
#[cycle(value)]
pub fn put_start(
    start: &Start,
    site: &Site,
    free: u32,
    draft: &mut Draft,
) -> Result<(), PartRefusal>
    ensures puts { OnOk result (PutsStart site.now free start.now draft.old draft.new) }
    ensures keeps { Keeps draft.old.code draft.new.code }
{
    let arguments = start.arguments.as_slice();
    put_all_received(arguments, site, free, draft)?;
    let count = uncapped(scalars_of(arguments))?;
    draft.put(Instr::Start(start.process, count))
}

/// How many scalars values have together.
pub fn scalars_of(all: &[Received]) -> u32
    ensures { result ≡ capped (counts_of (received_of all.now)) }
{
    let mut count = 0u32;
    for received in all {
        count = count.saturating_add(received_count(received));
    }
    count
}

// How many scalars a value has that something takes.
#[tactic(auto, using(crate::proofs::Views::tree_built))]
fn received_count(received: &Received) -> u32
    ensures { result ≡ received_count (received_tree received.now) }
{
    received.value.count
}

// A powerset of members from the first bound to the second.
#[tactic(auto, using(crate::proofs::Appending::keeping))]
#[cycle(value)]
fn put_powerset(
    members: &[Range],
    bounds: Bounds,
    site: &Site,
    free: u32,
    draft: &mut Draft,
) -> Result<(), PartRefusal>
    ensures puts { OnOk result (PutsPowerset site.now free bounds members.now draft.old draft.new) }
    ensures keeps { Keeps draft.old.code draft.new.code }
{
    draft.put(Instr::Push(0))?;
    for range in members {
        put_range(range, bounds, site, free, draft)?;
    }
    Ok(())
}

// The powerset on top with the members of a range besides.
#[tactic(auto, using(crate::proofs::Appending::keeping))]
#[cycle(value)]
fn put_range(
    range: &Range,
    bounds: Bounds,
    site: &Site,
    free: u32,
    draft: &mut Draft,
) -> Result<(), PartRefusal>
    ensures puts { OnOk result (PutsRange site.now free bounds range.now draft.old draft.new) }
    ensures keeps { Keeps draft.old.code draft.new.code }
{
    let offset = Instr::Index(bounds.low, bounds.high, 1);
    put_expr(&range.first, site, free, draft)?;
    draft.put(offset)?;
    match &range.last {
        Some(last) => {
            put_expr(last, site, free, draft)?;
            draft.put(offset)?;
            put_span(draft)
        }
        None => {
            draft.put(Instr::Copy(1))?;
            put_span(draft)
        }
    }
}

// The powerset on top with the members between two offsets besides.
fn put_span(draft: &mut Draft) -> Result<(), PartRefusal>
    ensures puts { OnOk result (PutsSpan draft.old draft.new) }
    ensures keeps { Keeps draft.old.code draft.new.code }
{
    draft.put(Instr::Span)?;
    draft.put(Instr::BitOr)
}

/// Appends the code of a call, which leaves the scalars of its result on the stack. The places of its OUT and INOUT
/// arguments that have an offset are kept in scratch locals, one behind the other.
#[tactic(auto, using(crate::proofs::Appending::keeping))]
#[cycle(value)]
pub fn put_call(call: &Call, site: &Site, free: u32, draft: &mut Draft) -> Result<(), PartRefusal>
    ensures puts { OnOk result (PutsCall site.now free call.now draft.old draft.new) }
    ensures keeps { Keeps draft.old.code draft.new.code }
{
    let locals = locals_of(site.program, call.body);
    let arguments = call.arguments.as_slice();
    let kept = put_arguments(arguments, locals, site, free, draft)?;
    draft.put(Instr::Call(call.body))?;
    put_copies_out(arguments, site, free, kept, draft)
}

// The arguments of a call of a procedure with these locals, and the scratch local behind the places that are kept.
#[tactic(auto, using(crate::proofs::Appending::keeping))]
#[cycle(value)]
fn put_arguments(
    arguments: &[Argument],
    locals: &[LocalRow],
    site: &Site,
    free: u32,
    draft: &mut Draft,
) -> Result<u32, PartRefusal>
    ensures puts { OnOk result (Gives site.now free locals.now arguments.now draft.old draft.new) }
    ensures keeps { Keeps draft.old.code draft.new.code }
    ensures kept { IfOk result (λ kept. kept ≡ kept_behind (arguments_of arguments.now) free) }
{
    let mut kept = free;
    let mut parameter = 0u32;
    for argument in arguments {
        put_argument(argument, Taker { locals, parameter }, site, kept, draft)?;
        kept = sum(kept, places_kept(argument))?;
        parameter = sum(parameter, 1)?;
    }
    Ok(kept)
}

// The parameter that an argument is for, of a procedure with these locals.
#[derive(Clone, Copy)]
struct Taker<'a> {
    locals: &'a [LocalRow],
    parameter: u32,
}

// What an argument gives to its parameter, and the place of its location, which is kept.
#[tactic(auto, using(crate::proofs::Appending::keeping))]
#[cycle(value)]
fn put_argument(
    given: &Argument,
    taker: Taker,
    site: &Site,
    free: u32,
    draft: &mut Draft,
) -> Result<(), PartRefusal>
    ensures puts { OnOk result (PutsFor site.now free taker.entry given.now draft.old draft.new) }
    ensures keeps { Keeps draft.old.code draft.new.code }
{
    match given {
        Argument::In(received) => put_received(received, site, free, draft),
        Argument::Out { target, .. } => {
            put_place(target, site, free, draft)?;
            keep_place(target, free, draft)?;
            put_lowest(taker.locals, taker.parameter, target.count, draft)
        }
        Argument::InOut {
            target,
            taken,
            bounds,
        } => {
            put_place(target, site, free, draft)?;
            keep_place(target, free, draft)?;
            put_kept(target, free, draft)?;
            put_contents(target, site, draft)?;
            put_check(tested_in(*taken, *bounds), draft)
        }
    }
}
