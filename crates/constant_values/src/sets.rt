// Powersets of constants, each as a list of numbers that tell of 32 members each (Z.200, chapter on powersets).
ghost use Rattle.std.specs.Prelude.{◌≡◌, ◌-ℤ◌, pos, min, length, IfOk};
ghost use Rattle.modes.specs.Scalars.{numbers_of};
ghost use Rattle.scalar_operators.specs.Powersets.{complement_in};
ghost use Rattle.scalar_operators.specs.Members.{by_pairs, complement_of, has_member_at, has_offset_of, no_members, span_in, union_of};
ghost use Rattle.constant_values.specs.Sets.{word_operator, AreAsOne, count_below, least_below, greatest_below, included_below, same_below};

use chill_base::{Memory, Scalars};
use chill_tree::tree::Operator;
use number_operators::{
    all_members, common_members, has_at, members_without, missing_members, offsets_between,
    single_members,
};
use std::alloc::Global;

// The result of an operator on the members that one number of each powerset tells of.
fn word(operator: Operator, left: i64, right: i64) -> i64
    ensures { result ≡ word_operator operator left right }
{
    match operator {
        Operator::Or | Operator::OrIf => all_members(left, right),
        Operator::And | Operator::AndIf => common_members(left, right),
        Operator::Minus => members_without(left, right),
        Operator::Xor
        | Operator::Equal
        | Operator::NotEqual
        | Operator::Less
        | Operator::LessOrEqual
        | Operator::Greater
        | Operator::GreaterOrEqual
        | Operator::In
        | Operator::Plus
        | Operator::Times
        | Operator::Divide
        | Operator::Mod
        | Operator::Rem => single_members(left, right),
    }
}

/// The result of an operator on two powersets.
pub fn combined_sets(
    alloc: Global,
    operator: Operator,
    left: &Scalars,
    right: &Scalars,
) -> Result<Scalars, Memory>
    ensures { IfOk result (λ r. r ≡ by_pairs (word_operator operator) left.now right.now) }
{
    let mut found = Scalars::new(alloc);
    let theirs = right.as_slice();
    for (place, one) in left.as_slice().iter().enumerate() {
        if place >= theirs.len() {
            return Ok(found);
        }
        found.push(word(operator, *one, theirs[place]))?;
    }
    Ok(found)
}

// The members, of so many, that a number of a powerset lacks.
fn missing(size: u64, own: i64) -> i64
    ensures { result ≡ complement_in (min size 32) own }
{
    missing_members(size.min(32) as u32, own)
}

/// The powerset of all members, of so many, that a powerset lacks.
pub fn complement(alloc: Global, set: &Scalars, size: u64) -> Result<Scalars, Memory>
    ensures { IfOk result (λ r. r ≡ complement_of size set.now) }
{
    let mut found = Scalars::new(alloc);
    let mut left = size;
    for own in set.as_slice() {
        found.push(missing(left, *own))?;
        left = left.saturating_sub(32);
    }
    Ok(found)
}

/// Whether the member of that offset is in the powerset.
#[tactic(auto, using(crate::proofs::SetWords::member_beyond))]
pub fn has_member(set: &Scalars, offset: u64) -> bool
    ensures { result ≡ has_member_at offset set.now }
{
    let words = set.as_slice();
    let place = (offset / 32) as usize;
    if place >= words.len() {
        return false;
    }
    has_at(words[place], (offset % 32) as u32)
}

/// Whether a number, of those from the lowest on, is a member of the powerset.
pub fn has_number(set: &Scalars, number: i64, low: i64) -> bool
    ensures { result ≡ has_offset_of (number -ℤ low) set.now }
{
    if number < low {
        return false;
    }
    has_member(set, number.abs_diff(low))
}

/// Whether all members of the one powerset, of so many, are members of the other.
pub fn is_included(one: &Scalars, other: &Scalars, size: u64) -> bool
    ensures { result ≡ included_below (λ k. has_member_at k one.now) (λ k. has_member_at k other.now) size }
{
    for k in 0..size {
        if has_member(one, k) && !has_member(other, k) {
            return false;
        }
    }
    true
}

/// Whether two powersets, of so many members, have the same.
pub fn are_same_sets(one: &Scalars, other: &Scalars, size: u64) -> bool
    ensures { result ≡ same_below (λ k. has_member_at k one.now) (λ k. has_member_at k other.now) size }
{
    is_included(one, other, size) && is_included(other, one, size)
}

/// How many members a powerset has, of so many.
pub fn count(set: &Scalars, size: u64) -> u64
    ensures { result ≡ count_below (λ k. has_member_at k set.now) size }
{
    let mut found: u64 = 0;
    for k in 0..size {
        if has_member(set, k) {
            found += 1;
        }
    }
    found
}

/// The offset of the least member, of so many, or none where the powerset is empty.
pub fn least(set: &Scalars, size: u64) -> Option<u64>
    ensures { result ≡ least_below (λ k. has_member_at k set.now) size }
{
    for k in 0..size {
        if has_member(set, k) {
            return Some(k);
        }
    }
    None
}

/// The offset of the greatest member, of so many, or none where the powerset is empty.
pub fn greatest(set: &Scalars, size: u64) -> Option<u64>
    ensures { result ≡ greatest_below (λ k. has_member_at k set.now) size }
{
    let mut found = None;
    for k in 0..size {
        if has_member(set, k) {
            found = Some(k);
        }
    }
    found
}

/// The powerset of no member, of so many.
pub fn empty_set(alloc: Global, size: u64) -> Result<Scalars, Memory>
    ensures { IfOk result (λ r. r ≡ no_members (numbers_of size)) }
{
    let count = if size % 32 == 0 {
        size / 32
    } else {
        size / 32 + 1
    };
    let mut found = Scalars::new(alloc);
    for i in 0..count {
        let _ = i;
        found.push(0)?;
    }
    Ok(found)
}

/// Puts the members from one offset to another into a powerset.
pub fn add_members(set: &mut Scalars, from: i64, to: i64)
    ensures { set.new ≡ union_of set.old (span_in (length set.old) from to) }
{
    let mut low = from;
    let mut high = to;
    let words = set.room();
    for place in 0..words.len() {
        words[place] = all_members(words[place], offsets_between(low, high));
        low = lowered(low);
        high = lowered(high);
    }
}

// An offset as the next number of a powerset tells of it: one before the first stays before it.
fn lowered(offset: i64) -> i64
    ensures { AreAsOne result (offset -ℤ pos 32) }
{
    if offset < 0 { offset } else { offset - 32 }
}
