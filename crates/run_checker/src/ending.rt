// How a run is over.
ghost use Rattle.std.specs.Prelude.{◌≡◌, None, Some};
ghost use Rattle.std.specs.List.{list_all};
ghost use Rattle.kernel_base.specs.declared.ends.Over.TheVariants as ways;
ghost use Rattle.world_model.specs.Over as endings;
ghost use Rattle.run_checker.specs.Standing as standing;

use kernel_base::{Event, Over};
use world_model::{Phase, World};

fn is_ended(phase: &Phase) -> bool
    ensures { result ≡ endings.is_ended phase.now }
{
    matches!(phase, Phase::Ended { .. })
}

// Whether a region that is to be locked again, if any, is free.
fn may_lock_back(world: &World, back: Option<u32>) -> bool
    ensures { result ≡ endings.may_lock_back world.now back }
{
    match back {
        Some(region) => {
            if (region as usize) < world.occupants.len() {
                world.occupants.at(region as usize).is_none()
            } else {
                false
            }
        }
        None => true,
    }
}

fn is_stuck(world: &World, phase: &Phase) -> bool
    ensures { result ≡ endings.is_stuck world.now phase.now }
{
    match phase {
        Phase::Active => false,
        Phase::Chosen { back, .. } => !may_lock_back(world, *back),
        Phase::Waiting { .. } | Phase::Ended { .. } => true,
    }
}

fn all_ended(world: &World) -> bool
    ensures { result ≡ list_all endings.is_ended world.now.phases }
{
    let phases = world.phases.as_slice();
    phases.iter().all(|phase| is_ended(phase))
}

fn all_stuck(world: &World) -> bool
    ensures { result ≡ list_all (endings.is_stuck world.now) world.now.phases }
{
    let phases = world.phases.as_slice();
    phases.iter().all(|phase| is_stuck(world, phase))
}

/// How a run is over in a world, where its budget isn't spent; none where it isn't over.
pub fn end_in(world: &World) -> Option<Over>
    ensures { result ≡ endings.end_in world.now }
{
    if all_ended(world) {
        return Some(Over::AllEnded);
    }
    if all_stuck(world) {
        return Some(Over::Still);
    }
    None
}

/// Whether an event is anything but a going on.
pub fn is_no_going(event: &Event) -> bool
    ensures { result ≡ standing.is_no_going event.now }
{
    !matches!(event, Event::Goes { .. })
}
