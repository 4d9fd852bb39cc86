// What the numbers in a body name, and how many scalars that has.
ghost use Rattle.std.specs.Prelude.{◌≡◌, slice_get};
ghost use Rattle.modes.specs.Bounds.{count_between};
ghost use Rattle.program_ranges.specs.Around.{count_of, is_count, base_count, buffer_count, mode_count, bounds_fit, is_int, are_ints, are_members, is_passed, is_exception, is_procedure, is_process, same_passing};

use checked_program::{Base, Body, Checked, Passing, Sort};
use modes::{Bounds, number_of_scalars};

/// How many scalars a location that is declared has, where it is there.
pub(crate) fn base_count(base: Base, program: &Checked, body: &Body) -> Option<u32>
    ensures { result ≡ base_count base program.now body.now }
{
    match base {
        Base::Shared(number) => match program.locations.as_slice().get(number as usize) {
            Some(row) => Some(number_of_scalars(&row.mode)),
            None => None,
        },
        Base::Local(number) => match body.locals.as_slice().get(number as usize) {
            Some(row) => Some(row.count),
            None => None,
        },
    }
}

/// How many scalars the values of a buffer have, where it is there.
pub(crate) fn buffer_count(buffer: u32, program: &Checked) -> Option<u32>
    ensures { result ≡ buffer_count (slice_get program.now.buffers buffer) }
{
    match program.buffers.as_slice().get(buffer as usize) {
        Some(row) => Some(number_of_scalars(&row.element)),
        None => None,
    }
}

/// How many scalars the result of a body has, where it has one.
pub(crate) fn result_count(body: &Body) -> Option<u32>
    ensures { result ≡ mode_count body.now.result }
{
    match &body.result {
        Some(mode) => Some(number_of_scalars(mode)),
        None => None,
    }
}

/// Whether there are some scalars, and so many.
pub(crate) fn is_count(scalars: Option<u32>, count: u32) -> bool
    ensures { result ≡ is_count scalars count }
{
    match scalars {
        Some(scalars) => scalars == count,
        None => false,
    }
}

/// Whether so many scalars may have these bounds: only one number has any.
pub(crate) fn bounds_fit(bounds: Option<Bounds>, count: u32) -> bool
    ensures { result ≡ bounds_fit bounds count }
{
    match bounds {
        Some(_) => count == 1,
        None => true,
    }
}

/// How many numbers there are from one to another; 2^64 - 1 for all numbers of 64 bits.
pub(crate) fn count_between(bounds: Bounds) -> u64
    ensures { result ≡ count_between bounds.low bounds.high }
{
    if bounds.high < bounds.low {
        return 0;
    }
    bounds.high.abs_diff(bounds.low).saturating_add(1)
}

// Whether a number is a value of INT.
fn is_int(number: i64) -> bool
    ensures { result ≡ is_int number }
{
    -2147483648 <= number && number <= 2147483647
}

/// Whether both bounds are values of INT.
pub(crate) fn are_ints(bounds: Bounds) -> bool
    ensures { result ≡ are_ints bounds }
{
    is_int(bounds.low) && is_int(bounds.high)
}

/// Whether these are bounds of the members of a powerset that is one number.
pub(crate) fn are_members(bounds: Bounds) -> bool
    ensures { result ≡ are_members bounds }
{
    are_ints(bounds) && (bounds.low <= bounds.high && count_between(bounds) <= 32)
}

pub(crate) fn is_procedure(sort: Sort) -> bool
    ensures { result ≡ is_procedure sort }
{
    match sort {
        Sort::Procedure => true,
        Sort::Outermost | Sort::Process => false,
    }
}

pub(crate) fn is_process(sort: Sort) -> bool
    ensures { result ≡ is_process sort }
{
    match sort {
        Sort::Process => true,
        Sort::Outermost | Sort::Procedure => false,
    }
}

fn same_passing(one: Passing, other: Passing) -> bool
    ensures { result ≡ same_passing one other }
{
    match (one, other) {
        (Passing::In, Passing::In)
        | (Passing::Out, Passing::Out)
        | (Passing::InOut, Passing::InOut) => true,
        _ => false,
    }
}

/// Whether the parameter of this number passes so many scalars this way.
pub(crate) fn is_passed(callee: &Body, number: usize, how: Passing, count: u32) -> bool
    ensures { result ≡ is_passed callee.now number how count }
{
    match (
        callee.parameters.as_slice().get(number),
        callee.locals.as_slice().get(number),
    ) {
        (Some(parameter), Some(local)) => same_passing(parameter.passing, how)
            && local.count == count,
        _ => false,
    }
}

/// Whether the exception of this number is one of the seven of the language or one of the user's.
pub(crate) fn is_exception(number: u32, program: &Checked) -> bool
    ensures { result ≡ is_exception number program.now }
{
    number < 7 || number as usize - 7 < program.exceptions.len()
}
