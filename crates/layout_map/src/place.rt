// Places that are written: which are possible, and which share a bit.
ghost use Rattle.std.specs.Prelude.{◌≡◌, ◌≤◌, option_map};
ghost use Rattle.modes.specs.ModeTree.{mode_tree, place_tree, field_tree};
ghost use Rattle.layout_map.specs.Scalar.{scalar_of};
ghost use Rattle.layout_map.specs.Place.{is_in_word, holds, is_possible, is_possible_step, steps_fit, shares};

use crate::scalar::{Scalar, scalar_of};
use chill_base::Bits;
use modes::{Field, Mode};

// The place of the field, if it has one.
#[tactic(auto, using(modes::proofs::ModeViews::mode_built))]
pub(crate) fn place_of(field: &Field) -> Option<Bits>
    ensures { option_map place_tree result ≡ (field_tree field.now).at }
{
    field.at
}

// Whether the bits are those of one of the first 4,096 words.
fn is_in_word(at: Bits) -> bool
    ensures { result ≡ is_in_word (place_tree at) }
{
    at.start <= at.end && (at.end <= 31 && at.word <= 4095)
}

// Whether the bits are enough for the scalar.
fn holds(at: Bits, scalar: Option<Scalar>) -> bool
    requires { at.start ≤ at.end }
    ensures { result ≡ holds (place_tree at) scalar }
{
    match scalar {
        None => false,
        Some(s) => s.width <= (at.end - at.start).saturating_add(1),
    }
}

/// Whether a field of the mode may stand at the bits that POS gives it: the mode is one scalar, the bits are in order, in
/// one word and enough, and the word is at most 4,095.
pub fn is_possible(mode: &Mode, at: &Bits) -> bool
    ensures { result ≡ is_possible (mode_tree mode.now) (place_tree at.now) }
{
    is_in_word(*at) && holds(*at, scalar_of(mode))
}

// Whether each of so many elements, the first of which begins at the bit, ends in its word, one of the first 4,096.
#[tactic(auto, using(crate::proofs::PlaceLemmas::steps_next))]
fn steps_fit(count: u64, length: u32, step: u32, first: u32) -> bool
    requires length { length ≤ 31 }
    requires step { step ≤ 262144 }
    requires first { first ≤ 262144 }
    ensures { result ≡ steps_fit count length step first }
{
    let mut bit = first;
    for _k in 0..count {
        if bit % 32 + length > 31 || bit / 32 > 4095 {
            return false;
        }
        bit += step;
    }
    true
}

/// Whether so many elements of the mode may stand where STEP puts them: the first is possible, the step is at least the
/// bits of the place and at most 262,144, and no element crosses a word's end or lies in a word above 4,095.
pub fn is_possible_step(count: u64, element: &Mode, at: &Bits, step: u32) -> bool
    ensures { result ≡ is_possible_step count (mode_tree element.now) (place_tree at.now) step }
{
    if !is_possible(element, at) {
        return false;
    }
    let length = at.end - at.start;
    length < step && (step <= 262_144 && steps_fit(count, length, step, 32 * at.word + at.start))
}

/// Whether the two share a bit of a word. Bits out of order are none.
pub fn share_a_bit(a: &Bits, b: &Bits) -> bool
    ensures { result ≡ shares (place_tree a.now) (place_tree b.now) }
{
    a.word == b.word && a.start.max(b.start) <= a.end.min(b.end)
}
