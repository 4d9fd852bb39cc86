// Lists that are read off the stack into room that was taken before.
ghost use Rattle.std.specs.Prelude.{◌≡◌, ◌*◌, ◌≤◌, MatchBool, MatchOption, Some, None, [], length, map, vec_capacity};
ghost use Rattle.code_types.specs.Operands.{alternative_in, bytes_of, number_in, offset_of, pairs_of, slot_in, triples_of};
ghost use Rattle.machine_steps.specs.Views.{slot_of};

use crate::process::SlotEntry;
use kernel_base::Alternative;
use machine_frames::numbers::{offset_from, thing_from};

// The alternative that a thing and a number tell; none where one of them doesn't fit.
fn alternative_from(thing: i64, number: i64) -> Option<Alternative>
    ensures { result ≡ alternative_in (number_in thing) (number_in number) }
{
    match thing_from(thing) {
        Some(thing) => match thing_from(number) {
            Some(number) => Some(Alternative { thing, number }),
            None => None,
        },
        None => None,
    }
}

// The slot that a local and a count tell; none where it doesn't lie in a frame of so many locals.
fn slot_from(locals: usize, local: i64, count: i64) -> Option<SlotEntry>
    ensures { MatchOption result (slot_in locals (offset_of local) (offset_of count) ≡ None) (λ slot. slot_in locals (offset_of local) (offset_of count) ≡ Some (slot_of slot)) }
{
    match offset_from(local) {
        Some(local) => match offset_from(count) {
            Some(count) => {
                if local <= locals && count <= locals - local {
                    Some(SlotEntry { local, count })
                } else {
                    None
                }
            }
            None => None,
        },
        None => None,
    }
}

/// Puts the alternatives that pairs tell into an empty list. Answers false where a number of a pair doesn't fit.
pub fn put_pairs(list: &mut Vec<Alternative>, numbers: &[i64], count: usize) -> bool
    requires empty { list.old.items ≡ [] }
    requires pairs { length numbers.now ≡ 2 * count }
    requires room { count ≤ vec_capacity list.old }
    ensures pairs { MatchBool result (pairs_of numbers.now ≡ Some list.new.items) (pairs_of numbers.now ≡ None) }
    ensures room { vec_capacity list.old ≤ vec_capacity list.new }
    ensures count { length list.new.items ≤ count }
{
    for i in 0..count {
        match alternative_from(numbers[2 * i], numbers[2 * i + 1]) {
            Some(alternative) => list.push(alternative).unwrap(),
            None => return false,
        }
    }
    true
}

/// Puts the things and the slots that triples tell into empty lists. Answers false where a thing's number doesn't fit or a
/// slot doesn't lie in a frame of so many locals.
pub fn put_triples(
    things: &mut Vec<Alternative>,
    slots: &mut Vec<SlotEntry>,
    locals: usize,
    numbers: &[i64],
    count: u32,
) -> bool
    requires empty { (things.old.items ≡ []) × (slots.old.items ≡ []) }
    requires triples { length numbers.now ≡ 3 * count }
    requires room { (count ≤ vec_capacity things.old) × (count ≤ vec_capacity slots.old) }
    ensures triples { MatchBool result (triples_of locals 0 numbers.now ≡ Some (record { things = things.new.items; slots = map slot_of slots.new.items })) (triples_of locals 0 numbers.now ≡ None) }
    ensures room { (vec_capacity things.old ≤ vec_capacity things.new) × (vec_capacity slots.old ≤ vec_capacity slots.new) }
    ensures count { (length things.new.items ≤ count) × (length slots.new.items ≤ count) }
{
    for number in 0..count {
        let i = 3 * number as usize;
        let Some(thing) = thing_from(numbers[i]) else {
            return false;
        };
        let Some(slot) = slot_from(locals, numbers[i + 1], numbers[i + 2]) else {
            return false;
        };
        things.push(Alternative { thing, number }).unwrap();
        slots.push(slot).unwrap();
    }
    true
}

/// Puts numbers as bytes into an empty list. Answers false where one is no byte.
pub fn put_bytes(list: &mut Vec<u8>, numbers: &[i64]) -> bool
    requires empty { list.old.items ≡ [] }
    requires room { length numbers.now ≤ vec_capacity list.old }
    ensures bytes { MatchBool result (bytes_of numbers.now ≡ Some list.new.items) (bytes_of numbers.now ≡ None) }
    ensures room { vec_capacity list.old ≤ vec_capacity list.new }
    ensures count { length list.new.items ≤ length numbers.now }
{
    for number in numbers {
        if *number < 0 || 255 < *number {
            return false;
        }
        list.push(*number as u8).unwrap();
    }
    true
}
