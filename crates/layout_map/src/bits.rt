// Numbers in the bits of words.
ghost use Rattle.std.specs.Prelude.{◌≡◌, ◌+◌, ◌^◌, ◌≤◌, ◌<◌, length, slice_index, slice_set};
ghost use Rattle.modes.specs.Bounds.{natural_of};
ghost use Rattle.layout_map.specs.Spots.{words_of};
ghost use Rattle.layout_map.specs.Scalar.{beyond_of};
ghost use Rattle.layout_map.specs.Words.{field_in, number_in, coded_in, put_in, put_field, IsWithinBits};

use chill_base::{Bits, Layout};

/// How many words a layout takes: one more than the highest in which a scalar stands, none without scalars. SIZE of a mode
/// is this number.
pub fn words(layout: &Layout) -> u64
    ensures { result ≡ words_of layout.now }
{
    let mut count = 0u64;
    for bits in layout.as_slice() {
        count = count.max(bits.word as u64 + 1);
    }
    count
}

/// The number in the bits of a word; signed bits hold it in two's complement.
pub fn get_bits(words: &[u32], bits: &Bits) -> i64
    requires word { bits.now.word < length words.now }
    requires ordered { bits.now.start ≤ bits.now.end }
    requires within { bits.now.end ≤ 31 }
    ensures { result ≡ number_in (slice_index words.now bits.now.word) bits.now }
{
    let field = field_of(
        words[bits.word as usize],
        bits.start,
        bits.end - bits.start + 1,
    );
    let half = 1u64 << (bits.end - bits.start);
    if bits.signed && half <= field {
        field as i64 - 2 * half as i64
    } else {
        field as i64
    }
}

// So many bits of a word, from one on.
fn field_of(word: u32, start: u32, width: u32) -> u64
    requires start { start ≤ 31 }
    requires width { width ≤ 32 }
    ensures is { result ≡ field_in word start width }
    ensures below { result < 2 ^ 32 }
{
    word as u64 / (1u64 << start) % (1u64 << width)
}

/// Puts the number, which fits them, into the bits of a word, and leaves all others.
pub fn put_bits(words: &mut [u32], bits: &Bits, value: i64)
    requires word { bits.now.word < length words.old }
    requires fits { IsWithinBits bits.now value }
    ensures { words.new ≡ slice_set words.old bits.now.word (put_in (slice_index words.old bits.now.word) bits.now value) }
{
    let word = words[bits.word as usize];
    let width = bits.end - bits.start + 1;
    words[bits.word as usize] = put_field(word, bits.start, width, coded(value, width));
}

// The bits of a number in two's complement.
fn coded(value: i64, width: u32) -> u64
    requires width { width ≤ 32 }
    requires low { beyond_of value < 2 ^ width }
    requires high { natural_of value < 2 ^ width }
    ensures { result ≡ coded_in value width }
{
    if value < 0 {
        (1u64 << width) - 1 - (-(value + 1)) as u64
    } else {
        value as u64
    }
}

// The word with so many bits, from one on, replaced.
fn put_field(word: u32, start: u32, width: u32, field: u64) -> u32
    requires end { start + width ≤ 32 }
    requires field { field < 2 ^ width }
    ensures { result ≡ put_field word start width field }
{
    put_wide(word, start, width, field) as u32
}

// The same, as a wider number.
fn put_wide(word: u32, start: u32, width: u32, field: u64) -> u64
    requires end { start + width ≤ 32 }
    requires field { field < 2 ^ width }
    ensures { result ≡ put_field word start width field }
{
    let limit = 1u64 << (start + width);
    let unit = 1u64 << start;
    word as u64 / limit * limit + field * unit + word as u64 % unit
}
