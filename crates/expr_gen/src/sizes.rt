// How many instructions the code of each construct has: what the targets of jumps are found from.
ghost use Rattle.std.specs.Prelude.{◌≡◌, ◌+◌, pos, true, length, if◌then◌else◌};
ghost use Rattle.program_trees.specs.ExprTree.{expr_tree, location_tree, received_tree, received_of, call_tree, argument_tree, part_tree, range_tree};
ghost use Rattle.code_scheme.specs.Pieces.{capped, has_index, first_of_parts, member_code};
ghost use Rattle.code_scheme.specs.ExprSizes.{expr_size, place_size, indices_size, received_size, received_sizes, members_size, call_size, arguments_size, copies_out_size};
ghost use Rattle.expr_gen.specs.Trees.{parts_of, ranges_of, arguments_of, argument_size, index_size, range_size};
ghost use Rattle.expr_gen.specs.Puts.{before_cut, call_parts};

use crate::bounds::{bounds_of_value, tested};
use crate::copying::{copy_out_size, offsets_kept, tested_in};
use crate::locations::{check_size, first_of_parts, has_index, has_offset, is_still_first};
use crate::operators::{member_size, routine_size, size_behind, size_between};
use crate::repeating::{copies_size, scalars_size};
use checked_program::{Argument, Call, Expr, Location, Operation, Part, Range, Received};

/// How many instructions the code of an expression has.
#[tactic(auto, using(crate::proofs::Views::tree_built))]
#[cycle(size)]
pub fn expr_size(expr: &Expr) -> u32
    ensures { result ≡ capped (expr_size (expr_tree expr.now)) }
{
    match &expr.operation {
        Operation::Constant(scalars) => scalars_size(scalars.as_slice()),
        Operation::This | Operation::GetInt => 1,
        Operation::Contents(location) => place_size(location).saturating_add(1),
        Operation::PartOf { of, parts } => expr_size(of)
            .saturating_add(part_size(parts.as_slice()))
            .saturating_add(1),
        Operation::Receive { .. } => 6,
        Operation::Start(start) => { received_sizes(start.arguments.as_slice()).saturating_add(1) }
        Operation::Call(call) => call_size(call),
        Operation::Powerset { members, .. } => powerset_size(members.as_slice()),
        Operation::Parts(parts) => received_sizes(parts.as_slice()),
        Operation::Uniform { elements, value } => {
            received_size(value).saturating_add(copies_size(*elements))
        }
        Operation::Routine { routine, argument } => {
            expr_size(argument).saturating_add(routine_size(*routine))
        }
        Operation::Prefixed { operand, .. } => expr_size(operand).saturating_add(1),
        Operation::Binary {
            operator,
            left,
            right,
        } => expr_size(left)
            .saturating_add(size_between(*operator, bounds_of_value(left)))
            .saturating_add(expr_size(right))
            .saturating_add(size_behind(*operator)),
    }
}

// How many instructions stand before the one that takes out a part of a value.
#[tactic(auto, using(crate::proofs::Views::tree_built))]
#[cycle(size)]
fn part_size(parts: &[Part]) -> u32
    ensures { result ≡ capped (before_cut parts.now) }
{
    if has_index(parts) {
        indices_size(parts).saturating_add(member_size(i64::from(first_of_parts(parts))))
    } else {
        0
    }
}

// How many instructions find the offset of indices.
#[tactic(auto, using(crate::proofs::Views::tree_built))]
#[cycle(size)]
fn indices_size(parts: &[Part]) -> u32
    ensures { result ≡ capped (indices_size true (parts_of parts.now)) }
{
    let mut size = 0u32;
    let mut is_first = true;
    for part in parts {
        size = size.saturating_add(index_size(part, is_first));
        is_first = is_still_first(part, is_first);
    }
    size
}

// How many instructions find the offset of an index.
#[tactic(auto, using(crate::proofs::Views::tree_built))]
#[cycle(size)]
fn index_size(part: &Part, is_first: bool) -> u32
    ensures { result ≡ capped (index_size is_first (part_tree part.now)) }
{
    match part {
        Part::Field { .. } => 0,
        Part::Element { index, .. } => {
            let sum = if is_first { 1 } else { 2 };
            expr_size(index).saturating_add(sum)
        }
    }
}

/// How many instructions the code of a location's place has.
#[tactic(auto, using(crate::proofs::Views::tree_built))]
#[cycle(size)]
pub fn place_size(location: &Location) -> u32
    ensures { result ≡ capped (place_size (location_tree location.now)) }
{
    let parts = location.parts.as_slice();
    if has_index(parts) {
        indices_size(parts)
    } else if has_offset(location) {
        1
    } else {
        0
    }
}

/// How many instructions the code of a value that something takes has, with its test.
#[tactic(auto, using(crate::proofs::Views::tree_built))]
#[cycle(size)]
pub fn received_size(received: &Received) -> u32
    ensures { result ≡ capped (received_size (received_tree received.now)) }
{
    expr_size(&received.value).saturating_add(check_size(tested(received)))
}

/// How many instructions the code of values that are taken one behind the other has.
#[tactic(auto, using(crate::proofs::Views::tree_built))]
#[cycle(size)]
pub fn received_sizes(all: &[Received]) -> u32
    ensures { result ≡ capped (received_sizes (received_of all.now)) }
{
    let mut size = 0u32;
    for received in all {
        size = size.saturating_add(received_size(received));
    }
    size
}

// How many instructions a powerset's tuple has.
#[tactic(auto, using(crate::proofs::Views::tree_built))]
#[cycle(size)]
fn powerset_size(members: &[Range]) -> u32
    ensures { result ≡ capped (1 + members_size (ranges_of members.now)) }
{
    let mut size = 1u32;
    for range in members {
        size = size.saturating_add(range_size(range));
    }
    size
}

// How many instructions add the members of a range.
#[tactic(auto, using(crate::proofs::Views::tree_built))]
#[cycle(size)]
fn range_size(range: &Range) -> u32
    ensures { result ≡ capped (range_size (range_tree range.now)) }
{
    let last = match &range.last {
        Some(last) => expr_size(last),
        None => 0,
    };
    expr_size(&range.first)
        .saturating_add(last)
        .saturating_add(4)
}

/// How many instructions the code of a call has.
#[tactic(auto, using(crate::proofs::Views::tree_built))]
#[cycle(size)]
pub fn call_size(call: &Call) -> u32
    ensures { result ≡ capped (call_size (call_tree call.now)) }
{
    arguments_size(call.arguments.as_slice())
}

// How many instructions a call has, with those for its arguments before and behind it.
#[tactic(auto, using(crate::proofs::Views::tree_built))]
#[cycle(size)]
fn arguments_size(arguments: &[Argument]) -> u32
    ensures { result ≡ capped (call_parts arguments.now) }
{
    let mut size = 1u32;
    for argument in arguments {
        size = size
            .saturating_add(argument_size(argument))
            .saturating_add(copy_out_size(argument));
    }
    size
}

// How many instructions stand before a call for an argument.
#[tactic(auto, using(crate::proofs::Views::tree_built))]
#[cycle(size)]
fn argument_size(argument: &Argument) -> u32
    ensures { result ≡ capped (argument_size (argument_tree argument.now)) }
{
    match argument {
        Argument::In(received) => received_size(received),
        Argument::Out { target, .. } => place_size(target)
            .saturating_add(offsets_kept(target))
            .saturating_add(target.count),
        Argument::InOut {
            target,
            taken,
            bounds,
        } => place_size(target)
            .saturating_add(offsets_kept(target))
            .saturating_add(offsets_kept(target))
            .saturating_add(1)
            .saturating_add(check_size(tested_in(*taken, *bounds))),
    }
}
