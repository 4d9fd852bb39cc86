// Which lists of events are allowed.
ghost use Rattle.std.specs.Prelude.{◌≡◌, ◌<◌, ◌^◌, IfOk, All, length};
ghost use Rattle.world_check.specs.Opening.{HasFewMembersEach};
ghost use Rattle.journal_check.specs.Journal.{TellsFirstRefused};

use crate::asking::is_allowed;
use chill_base::Memory;
use kernel_base::{Event, Facts};
use std::alloc::Global;
use world_check::opening_world;

/// None where a list of events is allowed from the opening, else the place of the first that isn't, counted from 0.
pub fn allowed(alloc: Global, facts: &Facts, events: &[Event]) -> Result<Option<u32>, Memory>
    requires few_members { All HasFewMembersEach facts.now.store }
    requires few_events { length events.now < 2 ^ 32 }
    ensures { IfOk result (λ first. TellsFirstRefused facts.now events.now first) }
{
    let mut world = opening_world(alloc, facts)?;
    for place in 0..events.len() {
        let event = &events[place];
        if !is_allowed(facts, &world, event) {
            return Ok(Some(place as u32));
        }
        world.apply(facts, event)?;
    }
    Ok(None)
}
