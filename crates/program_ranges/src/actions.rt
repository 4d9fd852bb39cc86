// Whether the numbers in the parts of actions are in range.
ghost use Rattle.std.specs.Prelude.{◌≡◌};
ghost use Rattle.program_ranges.specs.Around.{is_exception};
ghost use Rattle.program_ranges.specs.ExprRanges.{received_ranges};
ghost use Rattle.program_ranges.specs.ActionRanges.{names_fit, is_local, are_locals, all_below, all_exceptions, is_result, some_result, control_in_range};
ghost use Rattle.program_ranges.specs.StatementRanges.{is_set};

use crate::around::{base_count, is_count, is_exception, result_count};
use crate::exprs::{
    is_number, location_count, location_in_range, received_count, received_in_range, some_number,
};
use checked_program::{Base, Body, Checked, Control, Location, Received};

/// Whether each of these locations is there and has so many scalars.
pub(crate) fn names_fit(names: &[Base], count: u32, program: &Checked, body: &Body) -> bool
    ensures { result ≡ names_fit names.now count program.now body.now }
{
    for name in names {
        if !is_count(base_count(*name, program, body), count) {
            return false;
        }
    }
    true
}

// Whether the local of this number is there and has so many scalars.
fn is_local(local: u32, count: usize, body: &Body) -> bool
    ensures { result ≡ is_local local count body.now }
{
    match body.locals.as_slice().get(local as usize) {
        Some(row) => row.count as usize == count,
        None => false,
    }
}

/// Whether each of these locals is there and has so many scalars.
pub(crate) fn are_locals(locals: &[u32], count: usize, body: &Body) -> bool
    ensures { result ≡ are_locals locals.now count body.now }
{
    for local in locals {
        if !is_local(*local, count, body) {
            return false;
        }
    }
    true
}

/// Whether each of these numbers is below another.
pub(crate) fn all_below(limit: usize, numbers: &[u32]) -> bool
    ensures { result ≡ all_below limit numbers.now }
{
    for number in numbers {
        if *number as usize >= limit {
            return false;
        }
    }
    true
}

/// Whether there are exceptions of these numbers.
pub(crate) fn all_exceptions(numbers: &[u32], program: &Checked) -> bool
    ensures { result ≡ all_exceptions numbers.now program.now }
{
    for number in numbers {
        if !is_exception(*number, program) {
            return false;
        }
    }
    true
}

/// Whether the numbers in a value are in range, and the body has a result of as many scalars.
pub(crate) fn is_result(value: &Received, program: &Checked, body: &Body) -> bool
    ensures { result ≡ is_result (received_ranges value.now) program.now body.now }
{
    received_in_range(value, program, body) && is_count(result_count(body), received_count(value))
}

/// The same of a value that may be written.
pub(crate) fn some_result(value: &Option<Received>, program: &Checked, body: &Body) -> bool
    ensures { result ≡ some_result value.now program.now body.now }
{
    match value {
        Some(value) => is_result(value, program, body),
        None => true,
    }
}

/// Whether the numbers in the location after SET are in range, and it has one scalar.
pub(crate) fn is_set(set: &Option<Box<Location>>, program: &Checked, body: &Body) -> bool
    ensures { result ≡ is_set set.now program.now body.now }
{
    match set {
        Some(location) => location_in_range(location, program, body)
            && location_count(location) == 1,
        None => true,
    }
}

/// Whether the numbers in the control of a DO are in range.
pub(crate) fn control_in_range(control: &Control, program: &Checked, body: &Body) -> bool
    ensures { result ≡ control_in_range control.now program.now body.now }
{
    match control {
        Control::While(condition) => is_number(condition, program, body),
        Control::Forever => true,
        Control::Members {
            counter,
            set,
            condition,
            ..
        } => {
            is_local(*counter, 1, body)
                && (is_number(set, program, body) && some_number(condition, program, body))
        }
        Control::Steps {
            counter,
            start,
            step,
            end,
            condition,
            ..
        } => {
            is_local(*counter, 1, body)
                && (is_number(start, program, body)
                    && (some_number(step, program, body)
                        && (is_number(end, program, body)
                            && some_number(condition, program, body))))
        }
    }
}
