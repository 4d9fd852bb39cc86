// Which requests fit the facts (our own choice).
ghost use Rattle.std.specs.Prelude.{◌≡◌, ◌+◌, ◌≤◌, ◌↔◌, IsTrue, length};
ghost use Rattle.kernel_base.specs.Value.{count_of_numbers, kinds_from, kinds_of};
ghost use Rattle.kernel_base.specs.Facts.{FitsRequest, FitsWrite, FitsScalar, FitsLayout, FitsValue, FitsKind, HasNoOther, LiesInLocation, NameThings, IsWithinBits};
ghost use Rattle.kernel_base.specs.Reached.{IsReached};

use crate::value::ScalarKind;
use crate::{Alternative, Facts, Place, Request, Value};
use chill_base::Bits;

/// Whether what a request names is there, its place lies in its location, and what it writes is within the bits. A number
/// for a powerset tells only members that the powerset has.
pub fn fits(facts: &Facts, request: &Request) -> bool
    ensures { IsTrue result ↔ FitsRequest facts.now request.now }
{
    match request {
        Request::Read { place } => lies_in_location(facts, *place),
        Request::Write { place, scalars } => fits_write(facts, *place, scalars.as_slice()),
        Request::Enter { region } | Request::Leave { region } => *region < facts.regions,
        Request::Delay { events, .. } => name_things(facts.events.len(), events.as_slice()),
        Request::Continue { event } => (*event as usize) < facts.events.len(),
        Request::SendBuffer { buffer, .. } => (*buffer as usize) < facts.buffers.len(),
        Request::ReceiveBuffer { buffers, .. } => name_things(
            facts.buffers.len(),
            buffers.as_slice(),
        ),
        Request::SendSignal { signal, .. } => (*signal as usize) < facts.signals.len(),
        Request::ReceiveSignal { signals, .. } => name_things(
            facts.signals.len(),
            signals.as_slice(),
        ),
        Request::Start { process, .. } => *process < facts.processes,
        Request::Put { .. } | Request::Get | Request::End { .. } => true,
    }
}

fn name_things(count: usize, alternatives: &[Alternative]) -> bool
    ensures { IsTrue result ↔ NameThings count alternatives.now }
{
    alternatives
        .iter()
        .all(|alternative| (alternative.thing as usize) < count)
}

fn lies_in_location(facts: &Facts, place: Place) -> bool
    ensures { IsTrue result ↔ LiesInLocation facts.now place }
{
    let location = place.location as usize;
    location < facts.store.len()
        && location < facts.layouts.len()
        && place.first as u64 + place.count as u64 <= facts.layouts.at(location).len() as u64
}

fn fits_write(facts: &Facts, place: Place, scalars: &[i64]) -> bool
    ensures { IsTrue result ↔ FitsWrite facts.now place scalars.now }
{
    if !lies_in_location(facts, place) || scalars.len() != place.count as usize {
        return false;
    }
    for i in 0..scalars.len() {
        if !fits_scalar(facts, place.location, place.first as usize + i, &scalars[i]) {
            return false;
        }
    }
    true
}

fn fits_scalar(facts: &Facts, location: u32, index: usize, number: &i64) -> bool
    ensures { IsTrue result ↔ FitsScalar facts.now location index number.now }
{
    let number = *number;
    fits_layout(facts, location as usize, index, number)
        && fits_value(facts, location as usize, index, number)
}

fn fits_layout(facts: &Facts, location: usize, index: usize, number: i64) -> bool
    ensures { IsTrue result ↔ FitsLayout facts.now location index number }
{
    if location >= facts.layouts.len() {
        return true;
    }
    let layout = facts.layouts.at(location);
    index >= layout.len() || is_within_bits(*layout.at(index), number)
}

fn is_within_bits(bits: Bits, number: i64) -> bool
    ensures { IsTrue result ↔ IsWithinBits bits number }
{
    if bits.start > bits.end || bits.end > 31 {
        return false;
    }
    let top = bits.end - bits.start;
    if bits.signed {
        let limit = 1i64 << top;
        -limit <= number && number < limit
    } else {
        0 <= number && number < 1i64 << (top + 1)
    }
}

fn fits_value(facts: &Facts, location: usize, index: usize, number: i64) -> bool
    ensures { IsTrue result ↔ FitsValue facts.now location index number }
{
    if location >= facts.store.len() {
        return true;
    }
    match kind_in(facts.store.at(location), index) {
        Reached::At(kind) => fits_kind(kind, number),
        Reached::Behind(_) => true,
    }
}

fn fits_kind(kind: ScalarKind, number: i64) -> bool
    ensures { IsTrue result ↔ FitsKind kind number }
{
    match kind {
        ScalarKind::Plain => true,
        ScalarKind::Powerset { size, first } => match u32::try_from(number) {
            Ok(bits) => tells_members(size, first, bits),
            Err(_) => false,
        },
    }
}

fn tells_members(size: u32, first: u32, bits: u32) -> bool
    ensures { IsTrue result ↔ HasNoOther size first bits }
{
    for k in 0..32u32 {
        if (bits >> k) & 1 == 1 && first as u64 + k as u64 >= size as u64 {
            return false;
        }
    }
    true
}

/// Where a walk over a value's scalars comes to.
enum Reached {
    /// The scalar of that index is of this kind.
    At(ScalarKind),
    /// The value has fewer scalars. So many are still to be passed over.
    Behind(usize),
}

fn kind_in(value: &Value, index: usize) -> Reached
    ensures { IsReached (kinds_of value.now) index result }
{
    match value {
        Value::Number(_) => {
            if index == 0 {
                Reached::At(ScalarKind::Plain)
            } else {
                Reached::Behind(index - 1)
            }
        }
        Value::Members { size, .. } => powerset_kind(*size, index),
        Value::Parts(parts) => {
            let mut left = index;
            for part in parts.as_slice() {
                match kind_in(part, left) {
                    Reached::At(kind) => return Reached::At(kind),
                    Reached::Behind(rest) => left = rest,
                }
            }
            Reached::Behind(left)
        }
    }
}

fn powerset_kind(size: u32, index: usize) -> Reached
    ensures { IsReached (kinds_from size 0 (count_of_numbers size)) index result }
{
    let count = size.div_ceil(32) as usize;
    if index < count {
        Reached::At(ScalarKind::Powerset {
            size,
            first: 32 * index as u32,
        })
    } else {
        Reached::Behind(index - count)
    }
}
