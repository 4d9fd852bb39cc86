// Layouts: places that are apart, and scalars that fit them.
ghost use Rattle.std.specs.Prelude.{◌≡◌, ◌↔◌, IsTrue, All, AllPairs, length, map};
ghost use Rattle.kernel_base.specs.Value.{scalars_of};
ghost use Rattle.kernel_base.specs.Facts.{IsWithinBits, ShareNoBit, IsLaidOut};
ghost use Rattle.sound_facts.specs.Layouts.{FitLayout, AreLaidOut};

use crate::powersets::has_powersets;
use chill_base::{Bits, Layout, Scalars};
use kernel_base::Value;

// Whether the bits are those of a word, and hold the number.
fn is_within_bits(bits: Bits, number: &i64) -> bool
    ensures { IsTrue result ↔ IsWithinBits bits number.now }
{
    let number = *number;
    if bits.start > bits.end || bits.end > 31 {
        return false;
    }
    let top = bits.end - bits.start;
    if bits.signed {
        let limit = 1i64 << top;
        -limit <= number && number < limit
    } else {
        0 <= number && number < 1i64 << (top + 1)
    }
}

// Whether no bit belongs to both: the greater of the first bits lies behind the smaller of the last ones.
fn share_no_bit(a: Bits, b: Bits) -> bool
    ensures { IsTrue result ↔ ShareNoBit a b }
{
    a.word != b.word || a.end.min(b.end) < a.start.max(b.start)
}

// Whether the bits share none with any of the others.
fn is_apart(bits: Bits, others: &[Bits]) -> bool
    ensures { IsTrue result ↔ All (ShareNoBit bits) others.now }
{
    for other in others {
        if !share_no_bit(bits, *other) {
            return false;
        }
    }
    true
}

// Whether no two places share a bit.
fn are_apart(layout: &[Bits]) -> bool
    ensures { IsTrue result ↔ AllPairs ShareNoBit layout.now }
{
    let mut left = layout.len();
    'places: while left > 0 {
        left -= 1;
        if !is_apart(layout[left], &layout[left + 1..]) {
            return false;
        }
    }
    true
}

// Whether there are as many scalars as places, each within its bits.
fn fit_layout(scalars: &[i64], layout: &[Bits]) -> bool
    ensures { IsTrue result ↔ FitLayout scalars.now layout.now }
{
    if scalars.len() != layout.len() {
        return false;
    }
    for i in 0..layout.len() {
        if !is_within_bits(layout[i], &scalars[i]) {
            return false;
        }
    }
    true
}

// Whether the layout is one of a value with these scalars.
fn is_laid_out(value: &Value, scalars: &[i64], layout: &[Bits]) -> bool
    requires { scalars.now ≡ scalars_of value.now }
    ensures { IsTrue result ↔ IsLaidOut value.now layout.now }
{
    if !has_powersets(value) {
        return false;
    }
    if !are_apart(layout) {
        return false;
    }
    fit_layout(scalars, layout)
}

/// Whether each value has the layout of its place. The scalars are those of the values.
pub fn are_laid_out(values: &[Value], scalars: &[Scalars], layouts: &[Layout]) -> bool
    requires scalars { scalars.now ≡ map scalars_of values.now }
    requires layouts { length layouts.now ≡ length values.now }
    ensures { IsTrue result ↔ AreLaidOut values.now layouts.now }
{
    for i in 0..values.len() {
        if !is_laid_out(&values[i], scalars[i].as_slice(), layouts[i].as_slice()) {
            return false;
        }
    }
    true
}
