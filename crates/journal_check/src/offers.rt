// The values that may be received from one buffer: those that lie in it, or those whose senders wait.
ghost use Rattle.std.specs.Prelude.{◌≡◌, ◌↔◌, ℕ, IsTrue};
ghost use Rattle.world_model.specs.World as worlds;
ghost use Rattle.world_model.specs.Waiting as waiting;
ghost use Rattle.world_model.specs.Allowed as events;
ghost use Rattle.journal_check.specs.Receiving as receiving;

use kernel_base::{Facts, Request};
use world_model::{Phase, StoredValue, World, number_at};

/// Whether a buffer has the length 0, so that its values are those of the senders that wait.
pub fn is_unbuffered(facts: &Facts, buffer: u32) -> bool
    ensures { IsTrue result ↔ (worlds.buffer_length facts.now buffer ≡ Some 0) }
{
    match number_at(facts.buffers.as_slice(), buffer) {
        Some(length) => length == 0,
        None => false,
    }
}

// The priority of the value that waits in a phase to be sent to a buffer.
fn priority_in(buffer: u32, phase: &Phase) -> Option<u32>
    ensures { (who : ℕ) → result ≡ receiving.priority_to buffer (waiting.offer_in who phase.now) }
{
    match phase {
        Phase::Waiting {
            request: Request::SendBuffer {
                buffer: to,
                priority,
                ..
            },
            send: Some(_),
            ..
        } => { if *to == buffer { Some(*priority) } else { None } }
        _ => None,
    }
}

/// The priority of the value that an instance offers to a buffer.
pub fn offered_priority(world: &World, buffer: u32, p: usize) -> Option<u32>
    ensures { result ≡ receiving.offered_priority world.now buffer p }
{
    match world.phases.as_slice().get(p) {
        Some(phase) => priority_in(buffer, phase),
        None => None,
    }
}

/// Whether nobody waits to send to a buffer.
pub fn nobody_sends(world: &World, buffer: u32) -> bool
    ensures { IsTrue result ↔ events.NobodySends world.now buffer }
{
    for p in 0..world.phases.len() {
        if let Some(_) = offered_priority(world, buffer, p) {
            return false;
        }
    }
    true
}

/// Whether no value that is offered to a buffer has a higher priority.
pub fn no_offer_above(world: &World, buffer: u32, priority: u32) -> bool
    ensures { IsTrue result ↔ receiving.NoOfferAbove world.now buffer priority }
{
    for p in 0..world.phases.len() {
        if let Some(other) = offered_priority(world, buffer, p) {
            if other > priority {
                return false;
            }
        }
    }
    true
}

/// The values that lie in a buffer.
pub fn values_in(world: &World, buffer: u32) -> &[StoredValue]
    ensures { result.now ≡ worlds.stored_in world.now buffer }
{
    if (buffer as usize) < world.stored.len() {
        world.stored.at(buffer as usize).as_slice()
    } else {
        &[]
    }
}

fn nothing_stored(world: &World, buffer: u32) -> bool
    ensures { IsTrue result ↔ receiving.NothingStored world.now buffer }
{
    values_in(world, buffer).is_empty()
}

fn no_stored_above(world: &World, buffer: u32, priority: u32) -> bool
    ensures { IsTrue result ↔ receiving.NoStoredAbove world.now buffer priority }
{
    let values = values_in(world, buffer);
    for place in 0..values.len() {
        let value = &values[place];
        if value.priority > priority {
            return false;
        }
    }
    true
}

/// Whether no value may be received from a buffer.
pub fn no_candidate(facts: &Facts, world: &World, buffer: u32) -> bool
    ensures { IsTrue result ↔ receiving.NoCandidate facts.now world.now buffer }
{
    if is_unbuffered(facts, buffer) {
        nobody_sends(world, buffer)
    } else {
        nothing_stored(world, buffer)
    }
}

/// Whether no value that may be received from a buffer has a higher priority.
pub fn no_candidate_above(facts: &Facts, world: &World, buffer: u32, priority: u32) -> bool
    ensures { IsTrue result ↔ receiving.NoCandidateAbove facts.now world.now priority buffer }
{
    if is_unbuffered(facts, buffer) {
        no_offer_above(world, buffer, priority)
    } else {
        no_stored_above(world, buffer, priority)
    }
}
