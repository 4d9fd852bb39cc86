// What is received from buffers, and the sender that is chosen with it.
ghost use Rattle.std.specs.Prelude.{◌≡◌, ◌↔◌, ℕ, IsTrue};
ghost use Rattle.world_model.specs.Lists as lists;
ghost use Rattle.world_model.specs.World as worlds;
ghost use Rattle.world_model.specs.Waiting as waiting;
ghost use Rattle.world_model.specs.Allowed as events;
ghost use Rattle.journal_check.specs.Receiving as receiving;

use crate::offers::{
    is_unbuffered, no_candidate, no_candidate_above, no_offer_above, nobody_sends,
    offered_priority, values_in,
};
use kernel_base::{Alternative, Answer, Facts, Request};
use world_check::{Receipt, are_equal, is_value};
use world_model::{Phase, StoredValue, World, number_at, number_for};

/// Whether no listed buffer has a value to take.
pub fn nothing_to_take(facts: &Facts, world: &World, buffers: &[Alternative]) -> bool
    ensures { IsTrue result ↔ events.NothingToTake facts.now world.now buffers.now }
{
    for place in 0..buffers.len() {
        let alternative = &buffers[place];
        if !no_candidate(facts, world, alternative.thing) {
            return false;
        }
    }
    true
}

fn no_value_above(facts: &Facts, world: &World, buffers: &[Alternative], priority: u32) -> bool
    ensures { IsTrue result ↔ receiving.NoValueAbove facts.now world.now buffers.now priority }
{
    for place in 0..buffers.len() {
        let alternative = &buffers[place];
        if !no_candidate_above(facts, world, alternative.thing, priority) {
            return false;
        }
    }
    true
}

// The priority of the value that waits in a phase, if it is this one.
fn priority_of(phase: &Phase, buffer: u32, send: u32, scalars: &[i64]) -> Option<u32>
    ensures { (who priority : ℕ) → (result ≡ Some priority) ↔ receiving.Offers buffer (receiving.value_of send scalars.now who priority) (waiting.offer_in who phase.now) }
{
    match phase {
        Phase::Waiting {
            request: Request::SendBuffer {
                buffer: to,
                scalars: offered,
                priority,
            },
            send: Some(drawn),
            ..
        } => {
            if *to == buffer && *drawn == send && are_equal(offered.as_slice(), scalars) {
                Some(*priority)
            } else {
                None
            }
        }
        _ => None,
    }
}

// The priority of the value that an instance offers, if it is this one.
fn offered_as(world: &World, buffer: u32, send: u32, scalars: &[i64], by: u32) -> Option<u32>
    ensures { (priority : ℕ) → (result ≡ Some priority) ↔ events.IsOffered world.now buffer (receiving.value_of send scalars.now by priority) }
{
    match world.phases.as_slice().get(by as usize) {
        Some(phase) => priority_of(phase, buffer, send, scalars),
        None => None,
    }
}

fn has_offered(
    facts: &Facts,
    world: &World,
    buffers: &[Alternative],
    buffer: u32,
    receipt: &Receipt,
) -> bool
    ensures { IsTrue result ↔ receiving.HasHighestOffered facts.now world.now buffers.now buffer receipt.now.send receipt.now.scalars.now receipt.now.by }
{
    match offered_as(world, buffer, receipt.send, receipt.scalars, receipt.by) {
        Some(priority) => no_value_above(facts, world, buffers, priority),
        None => false,
    }
}

// Whether a value is this one, and none that may be received has a higher priority.
fn may_take(
    facts: &Facts,
    world: &World,
    buffers: &[Alternative],
    value: &StoredValue,
    receipt: &Receipt,
) -> bool
    ensures { IsTrue result ↔ receiving.MayTake facts.now world.now buffers.now receipt.now.send receipt.now.scalars.now receipt.now.by value.now }
{
    is_value(value, receipt.send, receipt.scalars, receipt.by)
        && no_value_above(facts, world, buffers, value.priority)
}

fn has_stored(
    facts: &Facts,
    world: &World,
    buffers: &[Alternative],
    buffer: u32,
    receipt: &Receipt,
) -> bool
    ensures { IsTrue result ↔ receiving.HasHighestStored facts.now world.now buffers.now buffer receipt.now.send receipt.now.scalars.now receipt.now.by }
{
    let values = values_in(world, buffer);
    for place in 0..values.len() {
        let value = &values[place];
        if may_take(facts, world, buffers, value, receipt) {
            return true;
        }
    }
    false
}

fn has_highest(
    facts: &Facts,
    world: &World,
    buffers: &[Alternative],
    buffer: u32,
    receipt: &Receipt,
) -> bool
    ensures { IsTrue result ↔ receiving.HasHighest facts.now world.now buffers.now buffer receipt.now.send receipt.now.scalars.now receipt.now.by }
{
    if is_unbuffered(facts, buffer) {
        has_offered(facts, world, buffers, buffer, receipt)
    } else {
        has_stored(facts, world, buffers, buffer, receipt)
    }
}

// Whether an instance offers a value of highest priority to a buffer.
fn offers_highest(world: &World, buffer: u32, sender: u32) -> bool
    ensures { IsTrue result ↔ events.IsRefillBy world.now buffer (Some sender) }
{
    match offered_priority(world, buffer, sender as usize) {
        Some(priority) => no_offer_above(world, buffer, priority),
        None => false,
    }
}

fn refills_by(world: &World, buffer: u32, refill: Option<u32>) -> bool
    ensures { IsTrue result ↔ events.IsRefillBy world.now buffer refill }
{
    match refill {
        Some(sender) => offers_highest(world, buffer, sender),
        None => nobody_sends(world, buffer),
    }
}

fn refills_some(world: &World, length: u32, buffer: u32, by: u32, refill: Option<u32>) -> bool
    ensures { IsTrue result ↔ events.IsRefill (Some length) world.now buffer by refill }
{
    if length == 0 {
        return refill == Some(by);
    }
    refills_by(world, buffer, refill)
}

fn refills(facts: &Facts, world: &World, buffer: u32, by: u32, refill: Option<u32>) -> bool
    ensures { IsTrue result ↔ events.IsRefill (worlds.buffer_length facts.now buffer) world.now buffer by refill }
{
    match number_at(facts.buffers.as_slice(), buffer) {
        Some(length) => refills_some(world, length, buffer, by, refill),
        None => refill.is_none(),
    }
}

fn is_listed_as(buffers: &[Alternative], buffer: u32, alternative: u32) -> bool
    ensures { IsTrue result ↔ (lists.number_for buffers.now buffer ≡ Some alternative) }
{
    match number_for(buffers, buffer) {
        Some(listed) => listed == alternative,
        None => false,
    }
}

fn takes_from(
    facts: &Facts,
    world: &World,
    buffers: &[Alternative],
    receipt: &Receipt,
    refill: Option<u32>,
    buffer: u32,
) -> bool
    ensures { IsTrue result ↔ receiving.TakesFrom facts.now world.now buffers.now receipt.now.alternative receipt.now.send receipt.now.scalars.now receipt.now.by refill buffer }
{
    if !is_listed_as(buffers, buffer, receipt.alternative) {
        return false;
    }
    if !has_highest(facts, world, buffers, buffer, receipt) {
        return false;
    }
    refills(facts, world, buffer, receipt.by, refill)
}

fn takes_value(
    facts: &Facts,
    world: &World,
    buffers: &[Alternative],
    receipt: &Receipt,
    refill: Option<u32>,
) -> bool
    ensures { IsTrue result ↔ ((priority : ℕ) × events.TakesValue facts.now world.now buffers.now receipt.now.alternative (receiving.value_of receipt.now.send receipt.now.scalars.now receipt.now.by priority) refill) }
{
    for place in 0..buffers.len() {
        let listed = &buffers[place];
        if takes_from(facts, world, buffers, receipt, refill, listed.thing) {
            return true;
        }
    }
    false
}

fn may_take_none(
    facts: &Facts,
    world: &World,
    buffers: &[Alternative],
    otherwise: bool,
    refill: Option<u32>,
) -> bool
    ensures { IsTrue result ↔ ((refill ≡ None) × IsTrue otherwise × events.NothingToTake facts.now world.now buffers.now) }
{
    refill.is_none() && otherwise && nothing_to_take(facts, world, buffers)
}

/// Whether an answer takes a value of highest priority and chooses the right sender with it, or says that no value is
/// there where that may be said.
pub fn receives_from_buffer(
    facts: &Facts,
    world: &World,
    buffers: &[Alternative],
    otherwise: bool,
    answer: &Answer,
    refill: Option<u32>,
) -> bool
    ensures { IsTrue result ↔ events.ReceivesFromBuffer facts.now world.now buffers.now otherwise answer.now refill }
{
    match answer {
        Answer::Got {
            alternative,
            send,
            scalars,
            by,
        } => {
            let receipt = Receipt {
                alternative: *alternative,
                send: *send,
                scalars: scalars.as_slice(),
                by: *by,
            };
            takes_value(facts, world, buffers, &receipt, refill)
        }
        Answer::Otherwise => may_take_none(facts, world, buffers, otherwise, refill),
        _ => false,
    }
}
