// The members that one number of a powerset tells of: its low 32 bits.
ghost use Rattle.std.specs.Prelude.{◌≡◌, ◌<◌, ◌≤◌, length, pos};
ghost use Rattle.std.specs.List.{filter, list_all};
ghost use Rattle.scalar_operators.specs.Powersets.{complement_in, difference, first_of_list, has_member, has_offset, intersection, is_included, last_of_list, low_word, members_of, numbers_up, span_of, symmetric_difference, union};
ghost use Rattle.number_operators.specs.Words.{HasBitsTo, HasFirstBits};

/// The low 32 bits.
fn low_bits(set: i64) -> u32
    ensures { result ≡ low_word set }
{
    set.rem_euclid(4294967296) as u32
}

/// The members of both.
pub fn common_members(a: i64, b: i64) -> i64
    ensures { result ≡ intersection a b }
{
    (low_bits(a) & low_bits(b)) as i64
}

/// The members of one or both.
pub fn all_members(a: i64, b: i64) -> i64
    ensures { result ≡ union a b }
{
    (low_bits(a) | low_bits(b)) as i64
}

/// The members of one of the two alone.
pub fn single_members(a: i64, b: i64) -> i64
    ensures { result ≡ symmetric_difference a b }
{
    (low_bits(a) ^ low_bits(b)) as i64
}

/// The members of the first that the second hasn't.
pub fn members_without(a: i64, b: i64) -> i64
    ensures { result ≡ difference a b }
{
    let word = low_bits(a);
    (word ^ (word & low_bits(b))) as i64
}

// The word with the bits below a number.
fn first_bits(count: i64) -> u32
    ensures { HasFirstBits result count }
{
    if count <= 0 {
        0
    } else if count >= 32 {
        4294967295
    } else {
        ((1u64 << count as u32) - 1) as u32
    }
}

// The word with the bits up to a number.
fn bits_up_to(last: i64) -> u32
    ensures { HasBitsTo result last }
{
    if last >= 31 {
        4294967295
    } else {
        first_bits(last + 1)
    }
}

/// The members that a powerset of so many hasn't.
pub fn missing_members(count: u32, set: i64) -> i64
    ensures { result ≡ complement_in count set }
{
    let mask = first_bits(count as i64);
    (mask ^ (mask & low_bits(set))) as i64
}

/// The powerset of the offsets from the first number to the second.
pub fn offsets_between(a: i64, b: i64) -> i64
    ensures { result ≡ span_of a b }
{
    let mask = bits_up_to(b);
    (mask ^ (mask & first_bits(a))) as i64
}

/// Whether a number tells of a member at an offset.
pub fn has_at(set: i64, k: u32) -> bool
    requires { k < 32 }
    ensures { result ≡ has_member set k }
{
    (low_bits(set) >> k) & 1 == 1
}

/// Whether the number is the offset of a member.
pub fn has_offset_in(x: i64, set: i64) -> bool
    ensures { result ≡ has_offset x set }
{
    0 <= x && x < 32 && has_at(set, x as u32)
}

// Whether each member of the first below an offset is one of the second.
#[tactic(auto, using(crate::proofs::PowersetMembers::offsets_more))]
fn includes_below(a: i64, b: i64, count: u32) -> bool
    requires { count ≤ 32 }
    ensures { result ≡ list_all (has_member b) (filter (has_member a) (numbers_up 0 count)) }
{
    for k in 0..count {
        if has_at(a, k) && !has_at(b, k) {
            return false;
        }
    }
    true
}

/// Whether each member of the first is one of the second.
pub fn includes(a: i64, b: i64) -> bool
    ensures { result ≡ is_included a b }
{
    includes_below(a, b, 32)
}

// The number of members below an offset.
#[tactic(auto, using(crate::proofs::PowersetMembers::offsets_more))]
fn count_below(set: i64, count: u32) -> u32
    requires { count ≤ 32 }
    ensures { result ≡ length (filter (has_member set) (numbers_up 0 count)) }
{
    let mut found = 0;
    for k in 0..count {
        if has_at(set, k) {
            found += 1;
        }
    }
    found
}

/// The number of members.
pub fn count_members(set: i64) -> i64
    ensures { result ≡ pos (length (members_of set)) }
{
    count_below(set, 32) as i64
}

// The least member's offset below an offset.
#[tactic(auto, using(crate::proofs::PowersetMembers::offsets_more))]
fn least_below(set: i64, count: u32) -> Option<u32>
    requires { count ≤ 32 }
    ensures { result ≡ first_of_list (filter (has_member set) (numbers_up 0 count)) }
{
    for k in 0..count {
        if has_at(set, k) {
            return Some(k);
        }
    }
    None
}

/// The least member's offset.
pub fn least_member(set: i64) -> Option<u32>
    ensures { result ≡ first_of_list (members_of set) }
{
    least_below(set, 32)
}

// The greatest member's offset below an offset.
#[tactic(auto, using(crate::proofs::PowersetMembers::offsets_more, crate::proofs::PowersetMembers::last_behind_none))]
fn greatest_below(set: i64, count: u32) -> Option<u32>
    requires { count ≤ 32 }
    ensures { result ≡ last_of_list (filter (has_member set) (numbers_up 0 count)) }
{
    let mut last = None;
    for k in 0..count {
        if has_at(set, k) {
            last = Some(k);
        }
    }
    last
}

/// The greatest member's offset.
pub fn greatest_member(set: i64) -> Option<u32>
    ensures { result ≡ last_of_list (members_of set) }
{
    greatest_below(set, 32)
}
