// Whether facts are sound.
ghost use Rattle.std.specs.Prelude.{◌<◌, ◌↔◌, IfOk, IfSome, IsTrue, All};
ghost use Rattle.kernel_base.specs.Facts.{IsSound};

use crate::layouts::are_laid_out;
use chill_base::Memory;
use kernel_base::Facts;
use std::alloc::Global;
use world_check::{have_few_members, opening_world, sound_facts_law};

/// The greatest budget.
const MOST_UNITS: u64 = 10_000_000;

// Whether each process that is named is below their number.
fn are_processes(processes: &[Option<u32>], count: u32) -> bool
    ensures { IsTrue result ↔ All (λ to. IfSome to (λ process. process < count)) processes.now }
{
    for process in processes {
        if let Some(process) = process {
            if *process >= count {
                return false;
            }
        }
    }
    true
}

/// Whether facts are sound.
pub fn are_sound(alloc: Global, facts: &Facts) -> Result<bool, Memory>
    ensures { IfOk result (λ yes. IsTrue yes ↔ IsSound facts.now) }
{
    if facts.layouts.len() != facts.store.len() {
        return Ok(false);
    }
    if facts.units < 1 || facts.units > MOST_UNITS {
        return Ok(false);
    }
    if !are_processes(facts.signals.as_slice(), facts.processes) {
        return Ok(false);
    }
    sound_facts_law();
    if !have_few_members(facts) {
        return Ok(false);
    }
    let world = opening_world(alloc, facts)?;
    Ok(are_laid_out(
        facts.store.as_slice(),
        world.store.as_slice(),
        facts.layouts.as_slice(),
    ))
}
