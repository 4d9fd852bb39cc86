// The answers to requests that leave no choice.
ghost use Rattle.std.specs.Prelude.{◌≡◌, ◌⊎◌, ◌↔◌, IsTrue, IsFalse, slice_index_or, take, drop, [], Some};
ghost use Rattle.std.specs.List.{count_by};
ghost use Rattle.kernel_base.specs.declared.answer.Answer.TheVariants as answers;
ghost use Rattle.world_model.specs.Lists.{scalars_at};
ghost use Rattle.world_model.specs.Waiting as waiting;
ghost use Rattle.world_model.specs.World as worlds;
ghost use Rattle.world_model.specs.Allowed as events;

use chill_base::Item;
use kernel_base::{Alternative, Answer, Exc, Facts, Place};
use world_model::{Phase, World, number_at, sleeper_in};

fn front(scalars: &[i64], count: usize) -> &[i64]
    ensures { result.now ≡ take count scalars.now }
{
    if count < scalars.len() {
        &scalars[..count]
    } else {
        scalars
    }
}

fn behind(scalars: &[i64], count: usize) -> &[i64]
    ensures { result.now ≡ drop count scalars.now }
{
    if count < scalars.len() {
        &scalars[count..]
    } else {
        &[]
    }
}

/// Whether these are the same scalars.
pub fn are_equal(scalars: &[i64], others: &[i64]) -> bool
    ensures { IsTrue result ↔ (scalars.now ≡ others.now) }
{
    if scalars.len() != others.len() {
        return false;
    }
    for i in 0..scalars.len() {
        if scalars[i] != others[i] {
            return false;
        }
    }
    true
}

fn location(world: &World, number: u32) -> &[i64]
    ensures { result.now ≡ slice_index_or world.now.store number [] }
{
    if (number as usize) < world.store.len() {
        world.store.at(number as usize).as_slice()
    } else {
        &[]
    }
}

fn scalars_of(world: &World, place: Place) -> &[i64]
    ensures { result.now ≡ scalars_at (slice_index_or world.now.store place.location []) place.first place.count }
{
    front(
        behind(location(world, place.location), place.first as usize),
        place.count as usize,
    )
}

/// Whether an answer is these scalars.
pub fn tells_scalars(answer: &Answer, wanted: &[i64]) -> bool
    ensures { IsTrue result ↔ (answer.now ≡ answers.Value wanted.now) }
{
    match answer {
        Answer::Value(scalars) => are_equal(scalars.as_slice(), wanted),
        _ => false,
    }
}

/// Whether an answer is the value of a place.
pub fn reads(world: &World, place: Place, answer: &Answer) -> bool
    ensures { IsTrue result ↔ (answer.now ≡ answers.Value (scalars_at (slice_index_or world.now.store place.location []) place.first place.count)) }
{
    tells_scalars(answer, scalars_of(world, place))
}

/// Whether an answer says that it was done.
pub fn is_done(answer: &Answer) -> bool
    ensures { IsTrue result ↔ (answer.now ≡ answers.Done) }
{
    answer.equals(&Answer::Done)
}

/// Whether an answer raises this exception.
pub fn fails_with(answer: &Answer, exception: Exc) -> bool
    ensures { IsTrue result ↔ (answer.now ≡ answers.Fail exception) }
{
    answer.equals(&Answer::Fail(exception))
}

/// Whether a region is free, or the instance occupies it.
pub fn may_enter(world: &World, who: u32, region: u32) -> bool
    ensures { IsTrue result ↔ (events.IsFree world.now region ⊎ events.Occupies world.now who region) }
{
    match world.occupants.as_slice().get(region as usize) {
        Some(None) => true,
        Some(Some(other)) => *other == who,
        None => false,
    }
}

/// Whether another occupies a region.
pub fn is_taken(world: &World, who: u32, region: u32) -> bool
    ensures { IsTrue result ↔ events.IsTaken world.now who region }
{
    match world.occupants.as_slice().get(region as usize) {
        Some(Some(other)) => *other != who,
        _ => false,
    }
}

/// Whether a region is free.
pub fn is_free(world: &World, region: u32) -> bool
    ensures { IsTrue result ↔ events.IsFree world.now region }
{
    match world.occupants.as_slice().get(region as usize) {
        Some(None) => true,
        _ => false,
    }
}

fn count_of_sleepers(world: &World, event: u32) -> usize
    ensures { result ≡ waiting.count_of_sleepers world.now event }
{
    world
        .phases
        .as_slice()
        .iter()
        .filter(|phase| sleeper_in(event, phase).is_some())
        .count()
}

fn is_full_at(length: Option<u32>, count: usize) -> bool
    ensures { result ≡ waiting.is_full_at length count }
{
    match length {
        Some(most) => most as usize <= count,
        None => false,
    }
}

/// Whether some listed event has as many delayed processes as its length.
pub fn is_full(facts: &Facts, world: &World, listed: &[Alternative]) -> bool
    ensures { result ≡ waiting.is_full facts.now world.now listed.now }
{
    for alternative in listed {
        let length = number_at(facts.events.as_slice(), alternative.thing);
        if is_full_at(length, count_of_sleepers(world, alternative.thing)) {
            return true;
        }
    }
    false
}

fn is_live_in(phase: &Phase) -> bool
    ensures { result ≡ waiting.is_live_in phase.now }
{
    match phase {
        Phase::Ended { .. } => false,
        _ => true,
    }
}

fn is_live(world: &World, who: u32) -> bool
    ensures { result ≡ waiting.is_live world.now who }
{
    match world.phases.as_slice().get(who as usize) {
        Some(phase) => is_live_in(phase),
        None => false,
    }
}

fn count_of_live_in(phases: &[Phase]) -> usize
    ensures { result ≡ count_by waiting.is_live_in phases.now }
{
    let mut count: usize = 0;
    for phase in phases {
        if is_live_in(phase) {
            count += 1;
        }
    }
    count
}

fn count_of_live(world: &World) -> usize
    ensures { result ≡ waiting.count_of_live world.now }
{
    count_of_live_in(world.phases.as_slice())
}

/// Whether an answer names the next instance, or says that as many live as may.
pub fn starts(world: &World, answer: &Answer) -> bool
    ensures { IsTrue result ↔ events.Starts world.now answer.now }
{
    match answer {
        Answer::Instance(instance) => {
            count_of_live(world) < 1000 && *instance as usize == world.phases.len()
        }
        Answer::Fail(Exc::Spacefail) => 1000 <= count_of_live(world),
        _ => false,
    }
}

#[tactic(auto, using(crate::proofs::Waiters::refusal_some))]
fn refusal_at(world: &World, to: u32) -> Option<Exc>
    ensures { result ≡ worlds.refusal world.now (Some to) }
{
    if to == 0 {
        return Some(Exc::Empty);
    }
    if is_live(world, to) {
        None
    } else {
        Some(Exc::Extinct)
    }
}

/// The exception at a signal sent to no instance, or to one that isn't live.
pub fn refusal(world: &World, to: Option<u32>) -> Option<Exc>
    ensures { result ≡ worlds.refusal world.now to }
{
    match to {
        Some(to) => refusal_at(world, to),
        None => None,
    }
}
