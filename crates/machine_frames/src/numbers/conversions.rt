// Numbers as truth values, as offsets, as numbers of things and of exceptions.
ghost use Rattle.std.specs.Prelude.{◌≡◌};
ghost use Rattle.code_types.specs.Exceptions.{exception_number, exception_of};
ghost use Rattle.scalar_operators.specs.Numbers.{truth_number, truth_of};
ghost use Rattle.code_types.specs.Operands.{number_in, offset_of};

use kernel_base::Exc;

/// Whether the number counts as true.
pub fn is_true(x: i64) -> bool
    ensures { result ≡ truth_of x }
{
    x != 0
}

/// 1 for true and 0 for false.
pub fn truth_from(yes: bool) -> i64
    ensures { result ≡ truth_number yes }
{
    if yes { 1 } else { 0 }
}

/// A number that isn't negative.
pub fn offset_from(x: i64) -> Option<usize>
    ensures { result ≡ offset_of x }
{
    if 0 <= x { Some(x as usize) } else { None }
}

/// A number of 32 bits without sign.
pub fn thing_from(x: i64) -> Option<u32>
    ensures { result ≡ number_in x }
{
    if 0 <= x && x <= 4294967295 {
        Some(x as u32)
    } else {
        None
    }
}

/// The exception of a number.
pub fn exception_with(number: u32) -> Exc
    ensures { result ≡ exception_of number }
{
    match number {
        0 => Exc::Overflow,
        1 => Exc::Rangefail,
        2 => Exc::Empty,
        3 => Exc::Assertfail,
        4 => Exc::Delayfail,
        5 => Exc::Spacefail,
        6 => Exc::Extinct,
        _ => Exc::User(number - 7),
    }
}

/// The number of an exception.
pub fn number_of(exception: Exc) -> u64
    ensures { result ≡ exception_number exception }
{
    match exception {
        Exc::Overflow => 0,
        Exc::Rangefail => 1,
        Exc::Empty => 2,
        Exc::Assertfail => 3,
        Exc::Delayfail => 4,
        Exc::Spacefail => 5,
        Exc::Extinct => 6,
        Exc::User(number) => 7 + number as u64,
    }
}
