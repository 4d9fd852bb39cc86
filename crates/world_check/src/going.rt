// Who may ask, and who may go on.
ghost use Rattle.std.specs.Prelude.{◌≡◌, ◌↔◌, IsTrue};
ghost use Rattle.world_model.specs.Waiting as waiting;
ghost use Rattle.world_model.specs.Allowed as events;

use crate::requests::is_free;
use chill_base::Item;
use kernel_base::{Answer, Facts, Request, fits};
use world_model::{Phase, World};

/// Whether an instance is active.
pub fn is_active(world: &World, who: u32) -> bool
    ensures { IsTrue result ↔ waiting.IsActive world.now who }
{
    match world.phases.as_slice().get(who as usize) {
        Some(Phase::Active) => true,
        _ => false,
    }
}

/// Whether an instance is active and its request fits.
pub fn may_ask(facts: &Facts, world: &World, who: u32, request: &Request) -> bool
    ensures { IsTrue result ↔ events.MayAsk facts.now world.now who request.now }
{
    is_active(world, who) && fits(facts, request)
}

fn may_lock_back(world: &World, back: Option<u32>) -> bool
    ensures { IsTrue result ↔ events.MayLockBack world.now back }
{
    match back {
        Some(region) => is_free(world, region),
        None => true,
    }
}

/// Whether an instance was chosen with this answer, and the region that it has to lock again is free.
pub fn may_go(world: &World, who: u32, answer: &Answer) -> bool
    ensures { IsTrue result ↔ events.MayGo world.now who answer.now }
{
    match world.phases.as_slice().get(who as usize) {
        Some(
            Phase::Chosen {
                answer: chosen,
                back,
            },
        ) => chosen.equals(answer) && may_lock_back(world, *back),
        _ => false,
    }
}
