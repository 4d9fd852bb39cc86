// What SEND and RECEIVE share: answers that are handed over, signals that are refused, and who asks.
ghost use Rattle.std.specs.Prelude.{◌≡◌, ◌≤◌, ◌<◌, ◌+◌, [], Some, slice_index_or, vec_capacity};
ghost use Rattle.world_model.specs.declared.world.World.{World};
ghost use Rattle.world_model.specs.World as worlds;
ghost use Rattle.kernel_steps.specs.Seated.{Seated, CanChoose, Hands};
ghost use Rattle.kernel_steps.specs.Kept.{count_of_scalars};

use crate::copies::twin;
use crate::seats::choose;
use crate::{Copies, Going, Seats, State};
use kernel_base::{Answer, Exc};

/// One that waited is handed an answer. It takes no memory.
pub fn hand(seats: &mut Seats, to: u32, answer: Answer, buffer: Vec<i64>) -> Option<Going>
    requires spare { 0 < seats.old.regions.spare }
    requires seated { CanChoose seats.old to }
    requires empty { buffer.items ≡ [] }
    requires room { count_of_scalars answer ≤ vec_capacity buffer }
    ensures settles { Hands seats.old seats.new to answer result }
    ensures spare { seats.old.regions.spare ≤ seats.new.regions.spare + 1 }
{
    let handed = twin(&answer, buffer);
    choose(
        seats,
        to,
        Copies {
            noted: answer,
            handed,
        },
    )
}

/// The exception at a signal sent to no instance (`Empty`), or to one that isn't live (`Extinct`).
pub fn refusal(s: &State, to: Option<u32>) -> Option<Exc>
    ensures { (w : World) → Seated w s.now.seats → result ≡ worlds.refusal w to }
{
    match to {
        Some(to) => refusal_at(s, to),
        None => None,
    }
}

fn refusal_at(s: &State, to: u32) -> Option<Exc>
    ensures { (w : World) → Seated w s.now.seats → result ≡ worlds.refusal w (Some to) }
{
    if to == 0 {
        return Some(Exc::Empty);
    }
    match s.seats.instances.phase(to) {
        Some(instance_table::Phase::Ended(_)) | None => Some(Exc::Extinct),
        Some(_) => None,
    }
}

/// The process of which an instance is one. It only reads the table.
pub fn process_of(s: &State, who: u32) -> u32
    requires { 0 < who }
    ensures { result ≡ slice_index_or s.now.seats.instances.processes who 0 }
{
    match s.seats.instances.process(who) {
        Some(process) => process,
        None => 0,
    }
}
