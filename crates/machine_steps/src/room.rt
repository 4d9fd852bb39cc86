// Room that is taken before steps are made, so that a request can be asked without taking memory.
ghost use Rattle.std.specs.Prelude.{◌≡◌, ℕ, ◌*◌, ◌^◌, ◌<◌, ◌≤◌, IfOk, IfNone, MatchOption, Some, None, [], length, map, vec_capacity};
ghost use Rattle.code_types.specs.Operands.{bytes_of, pairs_of, triples_of};
ghost use Rattle.machine_steps.specs.Rooms.{HasLists};
ghost use Rattle.machine_steps.specs.Views.{slot_of};

use crate::operands::{put_bytes, put_pairs, put_triples};
use crate::process::SlotEntry;
use chill_base::{List, Memory, Scalars, Text};
use kernel_base::{Alternative, Alternatives};
use std::alloc::Global;
use std::mem::replace;

/// Room for the lists of one request, each twice, since the process keeps its own copy of what it asks, and for the slots of
/// its alternatives.
#[derive(Drop)]
pub struct Room {
    pub numbers: Vec<i64>,
    pub kept_numbers: Vec<i64>,
    pub alternatives: Vec<Alternative>,
    pub kept_alternatives: Vec<Alternative>,
    pub bytes: Vec<u8>,
    pub kept_bytes: Vec<u8>,
    pub slots: Vec<SlotEntry>,
}

// The most bytes of a number in decimal.
const DIGITS: usize = 40;

// The numbers as a list, in room that was taken before.
fn list_in(mut room: Vec<i64>, numbers: &[i64]) -> Scalars
    requires empty { room.items ≡ [] }
    requires holds { length numbers.now ≤ vec_capacity room }
    ensures { result ≡ numbers.now }
{
    room.extend_from_slice(numbers).unwrap();
    List::from_vec(room)
}

// The bytes as a list, in room that was taken before.
fn text_in(mut room: Vec<u8>, bytes: &[u8]) -> Text
    requires empty { room.items ≡ [] }
    requires holds { length bytes.now ≤ vec_capacity room }
    ensures { result ≡ bytes.now }
{
    room.extend_from_slice(bytes).unwrap();
    List::from_vec(room)
}

// The alternatives as a list, in room that was taken before.
fn alternatives_in(mut room: Vec<Alternative>, alternatives: &[Alternative]) -> Alternatives
    requires empty { room.items ≡ [] }
    requires holds { length alternatives.now ≤ vec_capacity room }
    ensures { result ≡ alternatives.now }
{
    room.extend_from_slice(alternatives).unwrap();
    List::from_vec(room)
}

impl Room {
    /// Room for lists of so many numbers, alternatives or bytes, and for a number in decimal.
    pub fn new(alloc: Global, most: usize) -> Result<Room, Memory>
        ensures { IfOk result (HasLists most) }
    {
        let most_bytes = if most < DIGITS { DIGITS } else { most };
        Ok(Room {
            numbers: Vec::with_capacity(alloc, most)?,
            kept_numbers: Vec::with_capacity(alloc, most)?,
            alternatives: Vec::with_capacity(alloc, most)?,
            kept_alternatives: Vec::with_capacity(alloc, most)?,
            bytes: Vec::with_capacity(alloc, most_bytes)?,
            kept_bytes: Vec::with_capacity(alloc, most_bytes)?,
            slots: Vec::with_capacity(alloc, most)?,
        })
    }

    /// Two lists of these numbers. The room for numbers is used up.
    pub fn scalar_lists(&mut self, numbers: &[i64]) -> (Scalars, Scalars)
        requires { HasLists (length numbers.now) self.old }
        ensures asked { result.0 ≡ numbers.now }
        ensures kept { result.1 ≡ numbers.now }
    {
        let alloc = *self.numbers.allocator();
        let asked = replace(&mut self.numbers, Vec::new(alloc));
        let kept = replace(&mut self.kept_numbers, Vec::new(alloc));
        (list_in(asked, numbers), list_in(kept, numbers))
    }

    /// Two lists of these bytes. The room for bytes is used up.
    pub fn byte_lists(&mut self, bytes: &[u8]) -> (Text, Text)
        requires empty { (self.old.bytes.items ≡ []) × (self.old.kept_bytes.items ≡ []) }
        requires holds { (length bytes.now ≤ vec_capacity self.old.bytes) × (length bytes.now ≤ vec_capacity self.old.kept_bytes) }
        ensures asked { result.0 ≡ bytes.now }
        ensures kept { result.1 ≡ bytes.now }
    {
        let alloc = *self.bytes.allocator();
        let asked = replace(&mut self.bytes, Vec::new(alloc));
        let kept = replace(&mut self.kept_bytes, Vec::new(alloc));
        (text_in(asked, bytes), text_in(kept, bytes))
    }

    /// Two lists of the bytes that these numbers are. Answers none, with the room as it was, where one is no byte.
    pub fn byte_lists_from(&mut self, numbers: &[i64]) -> Option<(Text, Text)>
        requires { HasLists (length numbers.now) self.old }
        ensures told { MatchOption result (bytes_of numbers.now ≡ None) (λ told. (bytes_of numbers.now ≡ Some told.0) × (told.1 ≡ told.0)) }
        ensures room { IfNone result ((most : ℕ) → HasLists most self.old → HasLists most self.new) }
    {
        if !put_bytes(&mut self.bytes, numbers) {
            self.bytes.clear();
            return None;
        }
        let alloc = *self.bytes.allocator();
        let bytes = replace(&mut self.bytes, Vec::new(alloc));
        let kept = replace(&mut self.kept_bytes, Vec::new(alloc));
        let copy = text_in(kept, &bytes);
        Some((List::from_vec(bytes), copy))
    }

    /// Two lists of the alternatives that pairs tell. Answers none, with the room as it was, where a number doesn't fit.
    pub fn event_lists(
        &mut self,
        numbers: &[i64],
        count: usize,
    ) -> Option<(Alternatives, Alternatives)>
        requires pairs { length numbers.now ≡ 2 * count }
        requires room { HasLists count self.old }
        ensures told { MatchOption result (pairs_of numbers.now ≡ None) (λ told. (pairs_of numbers.now ≡ Some told.0) × (told.1 ≡ told.0)) }
        ensures room { IfNone result ((most : ℕ) → HasLists most self.old → HasLists most self.new) }
    {
        if !put_pairs(&mut self.alternatives, numbers, count) {
            self.alternatives.clear();
            return None;
        }
        let alloc = *self.alternatives.allocator();
        let events = replace(&mut self.alternatives, Vec::new(alloc));
        let kept = replace(&mut self.kept_alternatives, Vec::new(alloc));
        let copy = alternatives_in(kept, &events);
        Some((List::from_vec(events), copy))
    }

    /// Two lists of the alternatives that triples tell, and their slots in a frame of so many locals. Answers none, with the
    /// room as it was, where a number or a slot doesn't fit.
    pub fn thing_lists(
        &mut self,
        locals: usize,
        numbers: &[i64],
        count: u32,
    ) -> Option<(Alternatives, Alternatives, Vec<SlotEntry>)>
        requires triples { length numbers.now ≡ 3 * count }
        requires room { HasLists count self.old }
        ensures told { MatchOption result (triples_of locals 0 numbers.now ≡ None) (λ told. (triples_of locals 0 numbers.now ≡ Some (record { things = told.0; slots = map slot_of told.2.items })) × (told.1 ≡ told.0) × (length told.2.items < 2 ^ 32)) }
        ensures room { IfNone result ((most : ℕ) → HasLists most self.old → HasLists most self.new) }
    {
        if !put_triples(
            &mut self.alternatives,
            &mut self.slots,
            locals,
            numbers,
            count,
        ) {
            self.alternatives.clear();
            self.slots.clear();
            return None;
        }
        let alloc = *self.slots.allocator();
        let things = replace(&mut self.alternatives, Vec::new(alloc));
        let kept = replace(&mut self.kept_alternatives, Vec::new(alloc));
        let slots = replace(&mut self.slots, Vec::new(alloc));
        let copy = alternatives_in(kept, &things);
        Some((List::from_vec(things), copy, slots))
    }
}
