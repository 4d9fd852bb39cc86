// Who may go on: the phases of the instances, the regions, and the answers of those that were chosen.
ghost use Rattle.std.specs.Prelude.{◌≡◌, ◌+◌, ◌<◌, ◌≤◌, ◌++◌, ◌∷◌, [], ◌^◌};
ghost use Rattle.std.specs.Prelude.{length, slice_set, Some, None, vec_len, vec_capacity};
ghost use Rattle.instance_table.specs.declared.phase.Phase.TheVariants as kinds;
ghost use Rattle.kernel_steps.specs.Seated.{CanSuspend, Suspends, CanChoose, Chooses};
ghost use Rattle.kernel_steps.specs.Seated.{CanChooseBack, ChoosesBack, CanRelease, Releases};
ghost use Rattle.kernel_steps.specs.Seated.{CanWait, BeginsToWait, Locks, StartsOne};

use instance_table::{Instances, Phase};
use kernel_base::Answer;
use region_kernel::Regions;
use std::mem;

/// The answer of one that was chosen: once for the journal, and once to be fetched.
#[derive(Drop)]
pub struct Copies {
    pub noted: Answer,
    pub handed: Answer,
}

/// One that goes on, and its answer for the journal.
#[derive(Drop)]
pub struct Going {
    pub who: u32,
    pub answer: Answer,
}

/// What the kernel keeps of each instance, and of the regions. The lists have an item for instance 0, which is none.
#[derive(Drop)]
pub struct Seats {
    pub instances: Instances,
    pub regions: Regions,
    /// The region that one that waits has to lock again.
    pub backs: Vec<Option<u32>>,
    /// The answers of those that wait for their region.
    pub chosen: Vec<Option<Copies>>,
    /// The answers of those that went on, until they are fetched.
    pub unfetched: Vec<Option<Answer>>,
}

// One that may go on is active from now on.
fn go(seats: &mut Seats, who: u32, copies: Copies) -> Going
    requires first { 0 < who }
    requires made { who < length seats.old.instances.phases }
    requires fetch { who < length seats.old.unfetched.items }
    ensures who { result.who ≡ who }
    ensures answer { result.answer ≡ copies.noted }
    ensures processes { seats.new.instances.processes ≡ seats.old.instances.processes }
    ensures phases { seats.new.instances.phases ≡ slice_set seats.old.instances.phases who kinds.Active }
    ensures room { seats.new.instances.spare ≡ seats.old.instances.spare }
    ensures regions { seats.new.regions ≡ seats.old.regions }
    ensures backs { seats.new.backs ≡ seats.old.backs }
    ensures chosen { seats.new.chosen ≡ seats.old.chosen }
    ensures unfetched { seats.new.unfetched.items ≡ slice_set seats.old.unfetched.items who (Some copies.handed) }
{
    seats.instances.set_phase(who, Phase::Active);
    seats.unfetched[who as usize] = Some(copies.handed);
    Going {
        who,
        answer: copies.noted,
    }
}

/// One that asked comes to wait for a region that another occupies, or one that was chosen for the region that it freed.
pub fn suspend(seats: &mut Seats, who: u32, region: u32, copies: Copies)
    requires spare { 0 < seats.old.regions.spare }
    requires seated { CanSuspend seats.old who region }
    ensures seated { Suspends seats.old seats.new who region copies }
    ensures spare { seats.old.regions.spare ≤ seats.new.regions.spare + 1 }
{
    seats.regions.wait(region, who);
    seats.instances.set_phase(who, Phase::Suspended);
    seats.chosen[who as usize] = Some(copies);
}

/// One that waited is chosen. It goes on where it has no region to lock again, or that region is free.
pub fn choose(seats: &mut Seats, who: u32, copies: Copies) -> Option<Going>
    requires spare { 0 < seats.old.regions.spare }
    requires seated { CanChoose seats.old who }
    ensures settles { Chooses seats.old seats.new who copies result }
    ensures spare { seats.old.regions.spare ≤ seats.new.regions.spare + 1 }
{
    match seats.backs[who as usize] {
        Some(region) => choose_back(seats, who, region, copies),
        None => Some(go(seats, who, copies)),
    }
}

fn choose_back(seats: &mut Seats, who: u32, region: u32, copies: Copies) -> Option<Going>
    requires spare { 0 < seats.old.regions.spare }
    requires seated { CanChooseBack seats.old who region }
    ensures settles { ChoosesBack seats.old seats.new who region copies result }
    ensures spare { seats.old.regions.spare ≤ seats.new.regions.spare + 1 }
{
    if seats.regions.occupant(region).is_some() {
        suspend(seats, who, region, copies);
        return None;
    }
    let _locked = seats.regions.lock(region, who);
    Some(go(seats, who, copies))
}

/// Frees a region. The one that waits longest for it goes on.
pub fn release(seats: &mut Seats, region: u32) -> Option<Going>
    requires spare { 0 < seats.old.regions.spare }
    requires seated { CanRelease seats.old region }
    ensures settles { Releases seats.old seats.new region result }
    ensures spare { seats.old.regions.spare ≤ seats.new.regions.spare + 1 }
{
    let who = seats.regions.free(region)?;
    let copies = mem::replace(&mut seats.chosen[who as usize], None)?;
    Some(go(seats, who, copies))
}

/// One that asked comes to wait for anything but a region. It frees the region that it locked last.
pub fn wait(seats: &mut Seats, who: u32) -> Option<Going>
    requires spare { 0 < seats.old.regions.spare }
    requires seated { CanWait seats.old who }
    ensures settles { BeginsToWait seats.old seats.new who result }
    ensures spare { seats.old.regions.spare ≤ seats.new.regions.spare + 1 }
{
    seats.instances.set_phase(who, Phase::Waiting);
    let back = seats.regions.last_held(who);
    seats.backs[who as usize] = back;
    match back {
        Some(region) => release(seats, region),
        None => None,
    }
}

/// One that asked locks a region that is free, or that it occupies.
pub fn enter(seats: &mut Seats, who: u32, region: u32)
    requires spare { 0 < seats.old.regions.spare }
    requires there { region < length seats.old.regions.occupants }
    ensures seated { Locks seats.old seats.new who region }
    ensures spare { seats.old.regions.spare ≤ seats.new.regions.spare + 1 }
{
    let _locked = seats.regions.lock(region, who);
}

/// Starts an instance.
pub fn start(seats: &mut Seats, process: u32) -> u32
    requires spare { 0 < seats.old.instances.spare }
    requires backs { vec_len seats.old.backs < vec_capacity seats.old.backs }
    requires chosen { vec_len seats.old.chosen < vec_capacity seats.old.chosen }
    requires unfetched { vec_len seats.old.unfetched < vec_capacity seats.old.unfetched }
    requires few { length seats.old.instances.phases < 2 ^ 32 }
    ensures number { result ≡ length seats.old.instances.phases }
    ensures seated { StartsOne seats.old seats.new process }
    ensures unfetched { seats.new.unfetched.items ≡ seats.old.unfetched.items ++ None ∷ [] }
{
    let instance = seats.instances.start(process);
    seats.backs.push_reserved(None);
    seats.chosen.push_reserved(None);
    seats.unfetched.push_reserved(None);
    instance
}
