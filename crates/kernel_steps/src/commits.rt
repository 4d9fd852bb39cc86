// Who may commit, one pause, and the ends of a run.
ghost use Rattle.std.specs.Prelude.{◌≡◌, ◌≤◌, ◌^◌, ◌↔◌, IsTrue, None, All, length};
ghost use Rattle.world_model.specs.Allowed.{IsRun};
ghost use Rattle.world_model.specs.Waiting.{IsActive};
ghost use Rattle.world_model.specs.Over.{over_of};
ghost use Rattle.kernel_steps.specs.Seated.{IsIdle};
ghost use Rattle.kernel_steps.specs.Kept.{IsKept, IsPrepared, IsWholeBurst, world_in};
ghost use Rattle.kernel_steps.specs.View.{view_of, unfetched_of, count_of_actives, MayGoOn, MayCommit, IsReadyOf, Pauses};

use crate::ranges::number_in_range;
use crate::{Reply, State};
use instance_table::Phase;
use kernel_base::{Answer, Event, Over, Request, fits};

/// How the run is over, if it is.
pub fn over(s: &State) -> Option<Over>
    requires { IsKept s.now }
    ensures { result ≡ over_of s.now.facts s.now.journal.events }
{
    if s.journal.units() >= s.facts.units {
        Some(Over::Spent)
    } else if s.seats.instances.live() == 0 {
        Some(Over::AllEnded)
    } else if s.seats.instances.actives() == 0 {
        Some(Over::Still)
    } else {
        None
    }
}

/// How many processes are active.
pub fn actives(s: &State) -> u32
    requires { IsKept s.now }
    ensures { result ≡ count_of_actives (world_in s.now) }
{
    s.seats.instances.actives()
}

/// Each event of the journal is allowed in the world that those before it leave, from the opening of the facts on; of
/// those that were chosen nobody is left who may go on; and each note of ticks has 256 of them.
pub fn is_run(_s: &State)
    requires { IsKept _s.now }
    ensures run { IsRun _s.now.facts _s.now.journal.events }
    ensures idle { IsIdle (world_in _s.now) }
    ensures bursts { All IsWholeBurst _s.now.journal.events }
{}

/// Each instance has a process, arguments and a phase. Fewer than 2^32 were made: instance 0, which is none, is counted
/// here.
pub fn each_is_numbered(_s: &State)
    requires { IsKept _s.now }
    ensures processes { length (world_in _s.now).processes ≡ length (world_in _s.now).phases }
    ensures arguments { length (world_in _s.now).arguments ≡ length (world_in _s.now).phases }
    ensures few { length (world_in _s.now).phases ≤ 2 ^ 32 }
{}

/// Whether an instance is active, and has fetched its last answer.
pub fn may_go_on(s: &State, who: u32) -> bool
    requires { IsKept s.now }
    ensures { IsTrue result ↔ MayGoOn (view_of s.now) who }
{
    is_active(s, who) && has_fetched(&s.seats.unfetched, who)
}

fn is_active(s: &State, who: u32) -> bool
    requires { IsKept s.now }
    ensures { IsTrue result ↔ IsActive (world_in s.now) who }
{
    match s.seats.instances.phase(who) {
        Some(Phase::Active) => true,
        _ => false,
    }
}

fn has_fetched(unfetched: &[Option<Answer>], who: u32) -> bool
    ensures { IsTrue result ↔ (unfetched_of unfetched.now who ≡ None) }
{
    match unfetched.get(who as usize) {
        Some(Some(_)) => false,
        _ => true,
    }
}

/// Whether an instance may go on, and its request fits the facts.
pub fn may_commit(s: &State, who: u32, request: &Request) -> bool
    requires { IsKept s.now }
    ensures { IsTrue result ↔ MayCommit (view_of s.now) who request.now }
{
    may_go_on(s, who) && fits(&s.facts, request)
}

/// Notes that a process made the ticks of a whole burst. It takes no memory.
pub fn pause(s: &mut State, who: u32, ticks: u32) -> Reply
    requires kept { IsKept s.old }
    requires prepared { IsPrepared s.old }
    requires ready { IsReadyOf (view_of s.old) who }
    requires ticks { ticks ≡ 256 }
    ensures kept { IsKept s.new }
    ensures prepared { IsPrepared s.new }
    ensures pauses { Pauses (view_of s.old) (view_of s.new) who ticks result }
{
    if over(s).is_some() {
        return Reply::Over;
    }
    if !may_go_on(s, who) {
        return Reply::Stranger;
    }
    number_in_range(who);
    number_in_range(ticks);
    s.ready = None;
    s.journal.append(Event::Runs { who, ticks });
    Reply::Now(Answer::Done)
}
