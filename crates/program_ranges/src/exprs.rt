// Whether the numbers in expressions are in range.
ghost use Rattle.std.specs.Prelude.{◌≡◌, map, option_map, slice_get};
ghost use Rattle.program_ranges.specs.ExprRanges.{expr_ranges, operation_in_range, range_in_range, received_ranges, location_ranges, part_ranges, start_in_range, call_ranges, argument_in_range, all_hold, parts_lead, values_fill, arguments_fit, values_fit, is_number, some_number, operands_fit, lies_in, call_fits, start_fits, result_count, is_taken};
ghost use Rattle.program_ranges.specs.Around.{is_count};

use crate::around::{
    are_ints, are_members, base_count, bounds_fit, buffer_count, count_between, is_count,
    is_passed, is_procedure, is_process, result_count,
};
use checked_program::{
    Argument, Binary, Body, Call, Checked, Expr, Location, Operation, Part, Passing, Range,
    Received, Start,
};

/// Whether the numbers in an expression are in range.
#[tactic(auto, using(crate::proofs::ExprViews::expr_built))]
#[cycle(expr)]
pub(crate) fn expr_in_range(expr: &Expr, program: &Checked, body: &Body) -> bool
    ensures { result ≡ (expr_ranges expr.now).holds program.now body.now }
{
    operation_in_range(&expr.operation, expr.count, program, body)
}

/// How many scalars the value of an expression has.
#[tactic(auto, using(crate::proofs::ExprViews::expr_built))]
pub(crate) fn expr_count(expr: &Expr) -> u32
    ensures { result ≡ (expr_ranges expr.now).count }
{
    expr.count
}

/// Whether the numbers in an expression are in range, and its value is one number.
#[tactic(auto, using(crate::proofs::ExprViews::expr_built))]
#[cycle(expr)]
pub(crate) fn is_number(expr: &Expr, program: &Checked, body: &Body) -> bool
    ensures { result ≡ is_number (expr_ranges expr.now) program.now body.now }
{
    expr_in_range(expr, program, body) && expr.count == 1
}

/// Whether the numbers in an expression that may be written are in range, and its value is one number.
#[cycle(expr)]
pub(crate) fn some_number(expr: &Option<Box<Expr>>, program: &Checked, body: &Body) -> bool
    ensures { result ≡ some_number (option_map (λ e. expr_ranges e.value) expr.now) program.now body.now }
{
    match expr {
        Some(expr) => is_number(expr, program, body),
        None => true,
    }
}

// Whether what finds a value of so many scalars has its numbers in range.
#[tactic(auto, using(crate::proofs::ExprViews::expr_built))]
#[cycle(expr)]
fn operation_in_range(operation: &Operation, count: u32, program: &Checked, body: &Body) -> bool
    ensures { result ≡ operation_in_range operation.now count program.now body.now }
{
    match operation {
        Operation::Constant(scalars) => count as usize == scalars.len(),
        Operation::This | Operation::GetInt => count == 1,
        Operation::Contents(location) => {
            location_in_range(location, program, body) && count == location.count
        }
        Operation::PartOf { of, parts } => {
            expr_in_range(of, program, body)
                && parts_lead(of.count, parts.as_slice(), count, program, body)
        }
        Operation::Receive { buffer } => is_count(buffer_count(*buffer, program), count),
        Operation::Start(start) => start_in_range(start, program, body) && count == 1,
        Operation::Call(call) => {
            call_in_range(call, program, body) && gives(call.body, count, program)
        }
        Operation::Powerset { bounds, members } => {
            are_members(*bounds)
                && (ranges_in_range(members.as_slice(), program, body) && count == 1)
        }
        Operation::Parts(parts) => values_fill(parts.as_slice(), count, program, body),
        Operation::Uniform { elements, value } => {
            received_in_range(value, program, body)
                && (*elements > 0 && count as u64 == *elements as u64 * value.value.count as u64)
        }
        Operation::Routine { argument, .. } => is_number(argument, program, body) && count == 1,
        Operation::Prefixed { operand, .. } => is_number(operand, program, body) && count == 1,
        Operation::Binary {
            operator,
            left,
            right,
        } => {
            expr_in_range(left, program, body)
                && (expr_in_range(right, program, body)
                    && (operands_fit(*operator, left.count, right.count) && count == 1))
        }
    }
}

// Whether the body of this number gives a result of so many scalars.
fn gives(callee: u32, count: u32, program: &Checked) -> bool
    ensures { result ≡ is_count (result_count (slice_get program.now.bodies callee)) count }
{
    match program.bodies.as_slice().get(callee as usize) {
        Some(callee) => is_count(result_count(callee), count),
        None => false,
    }
}

/// Whether the operands of an operator may have so many scalars: equally many where they are compared, else one
/// each; and the bounds of IN are those of members.
pub(crate) fn operands_fit(operator: Binary, left: u32, right: u32) -> bool
    ensures { result ≡ operands_fit operator left right }
{
    match operator {
        Binary::Equal
        | Binary::NotEqual
        | Binary::Less
        | Binary::LessOrEqual
        | Binary::Greater
        | Binary::GreaterOrEqual => left == right,
        Binary::Member(bounds) => are_members(bounds) && (left == 1 && right == 1),
        _ => left == 1 && right == 1,
    }
}

// Whether parts lead from so many scalars to so many.
#[cycle(expr)]
fn parts_lead(of: u32, parts: &[Part], count: u32, program: &Checked, body: &Body) -> bool
    ensures { result ≡ parts_lead of (map part_ranges parts.now) count program.now body.now }
{
    let mut left = of;
    for part in parts {
        if !part_fits(part, left, program, body) {
            return false;
        }
        left = part_count(part);
    }
    left == count
}

// Whether a part lies in so many scalars.
#[tactic(auto, using(crate::proofs::ExprViews::expr_built))]
#[cycle(expr)]
fn part_fits(part: &Part, of: u32, program: &Checked, body: &Body) -> bool
    ensures { result ≡ (part_ranges part.now).fits of program.now body.now }
{
    match part {
        Part::Field { first, count } => *first as u64 + *count as u64 <= of as u64,
        Part::Element {
            index,
            bounds,
            count,
        } => {
            are_ints(*bounds)
                && (is_number(index, program, body)
                    && count_between(*bounds).saturating_mul(*count as u64) <= of as u64)
        }
    }
}

// How many scalars a part has.
#[tactic(auto, using(crate::proofs::ExprViews::expr_built))]
fn part_count(part: &Part) -> u32
    ensures { result ≡ (part_ranges part.now).count }
{
    match part {
        Part::Field { count, .. } | Part::Element { count, .. } => *count,
    }
}

/// Whether the numbers in a location are in range.
#[tactic(auto, using(crate::proofs::ExprViews::expr_built))]
#[cycle(expr)]
pub(crate) fn location_in_range(location: &Location, program: &Checked, body: &Body) -> bool
    ensures { result ≡ (location_ranges location.now).holds program.now body.now }
{
    match base_count(location.base, program, body) {
        Some(of) => parts_lead(of, location.parts.as_slice(), location.count, program, body),
        None => false,
    }
}

/// How many scalars a location has.
#[tactic(auto, using(crate::proofs::ExprViews::expr_built))]
pub(crate) fn location_count(location: &Location) -> u32
    ensures { result ≡ (location_ranges location.now).count }
{
    location.count
}

/// Whether the numbers in a value that something takes are in range.
#[tactic(auto, using(crate::proofs::ExprViews::expr_built))]
#[cycle(expr)]
pub(crate) fn received_in_range(received: &Received, program: &Checked, body: &Body) -> bool
    ensures { result ≡ (received_ranges received.now).holds program.now body.now }
{
    expr_in_range(&received.value, program, body)
        && bounds_fit(received.bounds, received.value.count)
}

// Whether the numbers in each range of a powerset's tuple are in range.
#[cycle(expr)]
fn ranges_in_range(ranges: &[Range], program: &Checked, body: &Body) -> bool
    ensures { result ≡ all_hold (map range_in_range ranges.now) program.now body.now }
{
    for range in ranges {
        if !range_in_range(range, program, body) {
            return false;
        }
    }
    true
}

#[tactic(auto, using(crate::proofs::ExprViews::expr_built))]
#[cycle(expr)]
fn range_in_range(range: &Range, program: &Checked, body: &Body) -> bool
    ensures { result ≡ range_in_range range.now program.now body.now }
{
    is_number(&range.first, program, body) && some_number(&range.last, program, body)
}

// Whether values one behind the other have so many scalars together, and their numbers are in range.
#[cycle(expr)]
fn values_fill(values: &[Received], count: u32, program: &Checked, body: &Body) -> bool
    ensures { result ≡ values_fill (map received_ranges values.now) count program.now body.now }
{
    let mut left = count;
    for value in values {
        if !received_in_range(value, program, body) {
            return false;
        }
        let own = received_count(value);
        if own > left {
            return false;
        }
        left -= own;
    }
    left == 0
}

/// How many scalars a value has that something takes.
#[tactic(auto, using(crate::proofs::ExprViews::expr_built))]
pub(crate) fn received_count(received: &Received) -> u32
    ensures { result ≡ (received_ranges received.now).count }
{
    received.value.count
}

/// Whether the numbers in a START are in range.
#[tactic(auto, using(crate::proofs::ExprViews::expr_built))]
#[cycle(expr)]
pub(crate) fn start_in_range(start: &Start, program: &Checked, body: &Body) -> bool
    ensures { result ≡ start_in_range start.now program.now body.now }
{
    start_fits(start.process, start.arguments.as_slice(), program, body)
}

// Whether the body of this number is a process with parameters for these values.
#[cycle(expr)]
fn start_fits(process: u32, values: &[Received], program: &Checked, body: &Body) -> bool
    ensures { result ≡ start_fits (slice_get program.now.bodies process) (map received_ranges values.now) program.now body.now }
{
    match program.bodies.as_slice().get(process as usize) {
        Some(callee) => is_process(callee.sort) && values_fit(callee, values, program, body),
        None => false,
    }
}

// Whether values are arguments for the parameters of a process.
#[cycle(expr)]
fn values_fit(callee: &Body, values: &[Received], program: &Checked, body: &Body) -> bool
    ensures { result ≡ values_fit callee.now 0 (map received_ranges values.now) program.now body.now }
{
    for (number, value) in values.iter().enumerate() {
        if !is_taken(value, callee, number, program, body) {
            return false;
        }
    }
    values.len() == callee.parameters.len()
}

// Whether a value is one for the IN parameter of this number.
#[cycle(expr)]
fn is_taken(value: &Received, callee: &Body, number: usize, program: &Checked, body: &Body) -> bool
    ensures { result ≡ is_taken callee.now number (received_ranges value.now) program.now body.now }
{
    received_in_range(value, program, body)
        && is_passed(callee, number, Passing::In, received_count(value))
}

/// Whether the numbers in a call are in range.
#[tactic(auto, using(crate::proofs::ExprViews::expr_built))]
#[cycle(expr)]
pub(crate) fn call_in_range(call: &Call, program: &Checked, body: &Body) -> bool
    ensures { result ≡ (call_ranges call.now).holds program.now body.now }
{
    call_fits(call.body, call.arguments.as_slice(), program, body)
}

// Whether the body of this number is a procedure with parameters for these arguments.
#[cycle(expr)]
fn call_fits(procedure: u32, arguments: &[Argument], program: &Checked, body: &Body) -> bool
    ensures { result ≡ call_fits (slice_get program.now.bodies procedure) (map argument_in_range arguments.now) program.now body.now }
{
    match program.bodies.as_slice().get(procedure as usize) {
        Some(callee) => is_procedure(callee.sort)
            && arguments_fit(callee, arguments, program, body),
        None => false,
    }
}

// Whether arguments are those for the parameters of a procedure.
#[cycle(expr)]
fn arguments_fit(callee: &Body, arguments: &[Argument], program: &Checked, body: &Body) -> bool
    ensures { result ≡ arguments_fit callee.now 0 (map argument_in_range arguments.now) program.now body.now }
{
    for (number, argument) in arguments.iter().enumerate() {
        if !argument_in_range(argument, callee, number, program, body) {
            return false;
        }
    }
    arguments.len() == callee.parameters.len()
}

// Whether an argument is one for the parameter of this number.
#[tactic(auto, using(crate::proofs::ExprViews::expr_built))]
#[cycle(expr)]
fn argument_in_range(
    argument: &Argument,
    callee: &Body,
    number: usize,
    program: &Checked,
    body: &Body,
) -> bool
    ensures { result ≡ argument_in_range argument.now callee.now number program.now body.now }
{
    match argument {
        Argument::In(received) => { is_taken(received, callee, number, program, body) }
        Argument::Out { target, bounds } => {
            location_in_range(target, program, body)
                && (is_passed(callee, number, Passing::Out, target.count)
                    && bounds_fit(*bounds, target.count))
        }
        Argument::InOut {
            target,
            taken,
            bounds,
        } => {
            location_in_range(target, program, body)
                && (is_passed(callee, number, Passing::InOut, target.count)
                    && (bounds_fit(*taken, target.count) && bounds_fit(*bounds, target.count)))
        }
    }
}
