// The values of discrete modes.
ghost use Rattle.std.specs.Prelude.{◌≡◌, is_some};
ghost use Rattle.modes.specs.ModeTree.{mode_tree};
ghost use Rattle.modes.specs.Bounds.{bounds_of, count_between, values_of};

use crate::{Bounds, Mode};

/// The least and the greatest value, or none where the mode isn't discrete. The values of a SET are the numbers of its
/// elements, those of BOOL 0 and 1, those of CHAR the codes.
#[tactic(auto, using(crate::proofs::ModeViews::mode_built))]
pub fn bounds(mode: &Mode) -> Option<Bounds>
    ensures { result ≡ bounds_of (mode_tree mode.now) }
{
    match mode {
        Mode::Int => Some(Bounds {
            low: -2147483648,
            high: 2147483647,
        }),
        Mode::Bool => Some(Bounds { low: 0, high: 1 }),
        Mode::Char => Some(Bounds { low: 0, high: 255 }),
        Mode::Set { count, .. } => Some(Bounds {
            low: 0,
            high: *count as i64 - 1,
        }),
        Mode::Range { parent, low, high } => match bounds(parent) {
            None => None,
            Some(_) => Some(Bounds {
                low: *low,
                high: *high,
            }),
        },
        Mode::Read { of } | Mode::Named { of, .. } => bounds(of),
        Mode::Instance
        | Mode::Powerset { .. }
        | Mode::Chars { .. }
        | Mode::Array { .. }
        | Mode::Struct { .. }
        | Mode::Event { .. }
        | Mode::Buffer { .. } => None,
    }
}

/// Whether the root is INT, BOOL, CHAR or a SET.
pub fn is_discrete(mode: &Mode) -> bool
    ensures { result ≡ is_some (bounds_of (mode_tree mode.now)) }
{
    bounds(mode).is_some()
}

// How many numbers there are from one to another; 2^64 - 1 for all numbers of 64 bits.
fn numbers_between(low: i64, high: i64) -> u64
    ensures { result ≡ count_between low high }
{
    if high < low {
        return 0;
    }
    high.abs_diff(low).saturating_add(1)
}

/// How many values a discrete mode has, 0 where the mode isn't discrete. A range of all numbers of 64 bits, which no
/// text has, gives 2^64 - 1.
pub fn number_of_values(mode: &Mode) -> u64
    ensures { result ≡ values_of (mode_tree mode.now) }
{
    match bounds(mode) {
        None => 0,
        Some(Bounds { low, high }) => numbers_between(low, high),
    }
}
