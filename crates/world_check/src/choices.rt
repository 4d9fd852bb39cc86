// Who may be chosen: those delayed on an event, and the receivers of buffers and signals.
ghost use Rattle.std.specs.Prelude.{◌≡◌, ◌≤◌, ◌↔◌, ℕ, IsTrue, length, Some, None};
ghost use Rattle.world_model.specs.declared.waiting.Waiter.{Waiter};
ghost use Rattle.world_model.specs.Waiting as waiting;
ghost use Rattle.world_model.specs.World as worlds;
ghost use Rattle.world_model.specs.Allowed as events;

use crate::requests::{fails_with, refusal};
use kernel_base::{Answer, Facts};
use world_model::{Waiter, World, buffer_receiver, number_at, signal_receiver, sleeper};

fn is_there(found: Option<Waiter>) -> bool
    ensures { IsTrue result ↔ ((waiter : Waiter) × (found ≡ Some waiter)) }
{
    match found {
        Some(_) => true,
        None => false,
    }
}

fn nobody_sleeps(world: &World, event: u32) -> bool
    ensures { IsTrue result ↔ events.NobodySleeps world.now event }
{
    for p in 0..world.phases.len() {
        if sleeper(world, event, p).is_some() {
            return false;
        }
    }
    true
}

fn no_sleeper_above(world: &World, event: u32, priority: u32) -> bool
    ensures { IsTrue result ↔ ((q : ℕ) (other : Waiter) → waiting.sleeper world.now event q ≡ Some other → other.priority ≤ priority) }
{
    for q in 0..world.phases.len() {
        if let Some(other) = sleeper(world, event, q) {
            if other.priority > priority {
                return false;
            }
        }
    }
    true
}

fn is_highest_sleeper(world: &World, event: u32, p: u32) -> bool
    ensures { IsTrue result ↔ events.IsHighestSleeper world.now event p }
{
    match sleeper(world, event, p as usize) {
        Some(waiter) => no_sleeper_above(world, event, waiter.priority),
        None => false,
    }
}

/// Whether an answer names one of highest priority that is delayed on an event, or nobody where nobody is.
pub fn continues(world: &World, event: u32, answer: &Answer) -> bool
    ensures { IsTrue result ↔ events.Continues world.now event answer.now }
{
    match answer {
        Answer::Chose(None) => nobody_sleeps(world, event),
        Answer::Chose(Some(p)) => is_highest_sleeper(world, event, *p),
        _ => false,
    }
}

/// Whether nobody waits to receive from a buffer.
pub fn nobody_receives(world: &World, buffer: u32) -> bool
    ensures { IsTrue result ↔ events.NobodyReceives world.now buffer }
{
    for p in 0..world.phases.len() {
        if buffer_receiver(world, buffer, p).is_some() {
            return false;
        }
    }
    true
}

fn count_of_stored(world: &World, buffer: u32) -> usize
    ensures { result ≡ length (worlds.stored_in world.now buffer) }
{
    if (buffer as usize) < world.stored.len() {
        world.stored.at(buffer as usize).len()
    } else {
        0
    }
}

/// Whether a buffer takes one more value.
pub fn has_room(facts: &Facts, world: &World, buffer: u32) -> bool
    ensures { result ≡ events.has_room facts.now world.now buffer }
{
    match number_at(facts.buffers.as_slice(), buffer) {
        Some(most) => count_of_stored(world, buffer) < most as usize,
        None => true,
    }
}

/// Whether an answer hands a value to one that waits for it, or stores it where nobody does and the buffer has room.
pub fn sends_to_buffer(facts: &Facts, world: &World, buffer: u32, answer: &Answer) -> bool
    ensures { IsTrue result ↔ events.SendsToBuffer facts.now world.now buffer answer.now }
{
    match answer {
        Answer::Handed(p) => is_there(buffer_receiver(world, buffer, *p as usize)),
        Answer::Stored => nobody_receives(world, buffer) && has_room(facts, world, buffer),
        _ => false,
    }
}

fn nobody_may_receive(facts: &Facts, world: &World, signal: u32, to: Option<u32>) -> bool
    ensures { IsTrue result ↔ events.NobodyMayReceive facts.now world.now signal to }
{
    for p in 0..world.phases.len() {
        if signal_receiver(facts, world, signal, to, p).is_some() {
            return false;
        }
    }
    true
}

fn sends_signal_to(
    facts: &Facts,
    world: &World,
    signal: u32,
    to: Option<u32>,
    answer: &Answer,
) -> bool
    ensures { IsTrue result ↔ events.SendsSignalTo facts.now world.now signal to None answer.now }
{
    match answer {
        Answer::Handed(p) => is_there(signal_receiver(facts, world, signal, to, *p as usize)),
        Answer::Stored => nobody_may_receive(facts, world, signal, to),
        _ => false,
    }
}

/// Whether an answer refuses a signal as it has to, or hands it to one that waits for it, or lets it pend where nobody
/// may receive it.
pub fn sends_signal(
    facts: &Facts,
    world: &World,
    signal: u32,
    to: Option<u32>,
    answer: &Answer,
) -> bool
    ensures { IsTrue result ↔ events.SendsSignalTo facts.now world.now signal to (worlds.refusal world.now to) answer.now }
{
    match refusal(world, to) {
        Some(exception) => fails_with(answer, exception),
        None => sends_signal_to(facts, world, signal, to, answer),
    }
}
