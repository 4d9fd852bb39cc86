// The flat scalars of a value (Z.200, chapter on modes).
ghost use Rattle.std.specs.Prelude.{◌≡◌, ◌^◌, ◌<◌, ◌≤◌, ◌/◌, ◌%◌, ◌==◌, ◌↔◌, if◌then◌else◌, pos, length, IfOk, IsTrue};
ghost use Rattle.kernel_base.specs.Value as values;
ghost use Rattle.world_check.specs.Opening.{HasFewMembersEach};

use chill_base::{List, Memory, Scalars};
use kernel_base::Value;
use std::alloc::Global;

// The part of number j that a member tells.
fn member_bit(offset: u32, j: u32) -> u64
    ensures bit { result ≡ (if offset / 32 == j then 2 ^ (offset % 32) else 0) }
    ensures small { result ≤ 2 ^ 31 }
{
    if offset / 32 == j {
        1u64 << (offset % 32)
    } else {
        0
    }
}

fn bits_of(offsets: &[u32], j: u32) -> u64
    requires { length offsets.now < 2 ^ 32 }
    ensures is { result ≡ values.number_of offsets.now j }
    ensures small { result < 2 ^ 63 }
{
    let mut bits: u64 = 0;
    for offset in offsets {
        bits += member_bit(*offset, j);
    }
    bits
}

fn number_of(offsets: &[u32], j: u32) -> i64
    requires { length offsets.now < 2 ^ 32 }
    ensures { result ≡ pos (values.number_of offsets.now j) }
{
    bits_of(offsets, j) as i64
}

fn count_of_numbers(size: u32) -> u32
    ensures { result ≡ values.count_of_numbers size }
{
    size.div_ceil(32)
}

#[tactic(auto, using(crate::proofs::PowersetsInValues::next_number))]
fn numbers(alloc: Global, size: u32, offsets: &[u32]) -> Result<Scalars, Memory>
    requires { length offsets.now < 2 ^ 32 }
    ensures { IfOk result (λ numbers. numbers ≡ values.numbers_from offsets.now 0 (values.count_of_numbers size)) }
{
    let mut numbers = Vec::new(alloc);
    let count = count_of_numbers(size);
    for j in 0..count {
        let number = number_of(offsets, j);
        numbers.push(number)?;
    }
    Ok(List::from_vec(numbers))
}

/// The flat scalars of a value, in order. A powerset of more members than its member mode has values counts for none.
#[tactic(auto, using(crate::proofs::PowersetsInValues::one_scalar, crate::proofs::PowersetsInValues::numbers_here, crate::proofs::PowersetsInValues::no_such_members))]
pub fn scalars_of(alloc: Global, value: &Value) -> Result<Scalars, Memory>
    ensures { IfOk result (λ scalars. HasFewMembersEach value.now → scalars ≡ values.scalars_of value.now) }
{
    match value {
        Value::Number(number) => {
            let mut scalars = List::new(alloc);
            scalars.push(*number)?;
            Ok(scalars)
        }
        Value::Members { size, offsets } => {
            let members = offsets.as_slice();
            if members.len() <= *size as usize {
                let scalars = numbers(alloc, *size, members)?;
                Ok(scalars)
            } else {
                Ok(List::new(alloc))
            }
        }
        Value::Parts(parts) => {
            let mut all = Vec::new(alloc);
            for part in parts.as_slice() {
                let scalars = scalars_of(alloc, part)?;
                all.extend_from_slice(scalars.as_slice())?;
            }
            Ok(List::from_vec(all))
        }
    }
}

/// Whether no powerset of a value has more members than its member mode has values.
pub fn has_few_members(value: &Value) -> bool
    ensures { IsTrue result ↔ HasFewMembersEach value.now }
{
    match value {
        Value::Number(_) => true,
        Value::Members { size, offsets } => offsets.len() <= *size as usize,
        Value::Parts(parts) => {
            for part in parts.as_slice() {
                if !has_few_members(part) {
                    return false;
                }
            }
            true
        }
    }
}
