// How many bits a scalar needs.
ghost use Rattle.std.specs.Prelude.{◌≡◌};
ghost use Rattle.modes.specs.ModeTree.{mode_tree};
ghost use Rattle.modes.specs.Bounds.{natural_of};
ghost use Rattle.layout_map.specs.Scalar.{digits_of, beyond_of, range_scalar, set_scalar, powerset_scalar, scalar_of};

use modes::{Mode, bounds, number_of_values};

/// The bits that a scalar needs, and whether it is held in two's complement.
#[derive(Clone, Copy, Debug, PartialEq, Eq)]
pub struct Scalar {
    pub width: u32,
    pub signed: bool,
}

// The binary digits of a number, 0 for 0: the least k with the number below 2^k.
fn digits(number: u64) -> u32
    ensures { result ≡ digits_of number }
{
    64 - number.leading_zeros()
}

// A number that isn't below 0, and 0 for others.
fn natural(number: i64) -> u64
    ensures { result ≡ natural_of number }
{
    if number < 0 { 0 } else { number as u64 }
}

// How far a number is below -1, and 0 for others.
fn beyond(number: i64) -> u64
    ensures { result ≡ beyond_of number }
{
    if number < 0 {
        (-(number + 1)) as u64
    } else {
        0
    }
}

// The bits of a range.
fn range_scalar(low: i64, high: i64) -> Scalar
    ensures { result ≡ range_scalar low high }
{
    if low < 0 {
        return Scalar {
            width: digits(beyond(low).max(natural(high))) + 1,
            signed: true,
        };
    }
    Scalar {
        width: digits(natural(high)).max(1),
        signed: false,
    }
}

/// The bits that the mode's one scalar needs: INT and INSTANCE 32, BOOL 1, CHAR 8, a SET of n elements the least k >= 1
/// with 2^k >= n, a range from l >= 0 to u the least k >= 1 with 2^k > u, one from l < 0 the least k that holds both in
/// two's complement, a powerset of at most 32 members one for each. None where the mode isn't one scalar.
#[tactic(auto, using(modes::proofs::ModeViews::mode_built))]
pub fn scalar_of(mode: &Mode) -> Option<Scalar>
    ensures { result ≡ scalar_of (mode_tree mode.now) }
{
    match mode {
        Mode::Int => Some(Scalar {
            width: 32,
            signed: true,
        }),
        Mode::Bool => Some(Scalar {
            width: 1,
            signed: false,
        }),
        Mode::Char => Some(Scalar {
            width: 8,
            signed: false,
        }),
        Mode::Instance => Some(Scalar {
            width: 32,
            signed: false,
        }),
        Mode::Set { count, .. } => Some(set_scalar(*count)),
        Mode::Range { parent, low, high } => match bounds(parent) {
            None => None,
            Some(_) => Some(range_scalar(*low, *high)),
        },
        Mode::Powerset { member } => powerset_scalar(number_of_values(member)),
        Mode::Read { of } | Mode::Named { of, .. } => scalar_of(of),
        Mode::Chars { .. }
        | Mode::Array { .. }
        | Mode::Struct { .. }
        | Mode::Event { .. }
        | Mode::Buffer { .. } => None,
    }
}

// The bits of a SET of so many elements.
fn set_scalar(count: u32) -> Scalar
    ensures { result ≡ set_scalar count }
{
    Scalar {
        width: digits((count as u64).saturating_sub(1)).max(1),
        signed: false,
    }
}

// The bits of a powerset of so many members, where they are one scalar.
fn powerset_scalar(members: u64) -> Option<Scalar>
    ensures { result ≡ powerset_scalar members }
{
    if members >= 1 && members <= 32 {
        Some(Scalar {
            width: members as u32,
            signed: false,
        })
    } else {
        None
    }
}
