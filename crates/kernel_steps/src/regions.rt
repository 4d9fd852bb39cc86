// Requests that lock and free regions, and the end of a process.
ghost use Rattle.std.specs.Prelude.{◌≡◌};
ghost use Rattle.kernel_base.specs.declared.request.Request.TheVariants as requests;
ghost use Rattle.kernel_steps.specs.Serving.{CanServe, Serves, other_than};
ghost use Rattle.kernel_steps.specs.Kept.{world_in};
ghost use Rattle.world_model.specs.Allowed.{IsTaken, Occupies};

use crate::noting::{did, goes, waits};
use crate::seats::{enter as lock, release, suspend};
use crate::state::Ready;
use crate::{Copies, Reply, State};
use instance_table::Phase;
use kernel_base::{Answer, How, Request};

// Whether a region that was found so is another's.
fn is_other(occupant: Option<u32>, who: u32) -> bool
    ensures { result ≡ other_than occupant who }
{
    match occupant {
        Some(other) => other != who,
        None => false,
    }
}

/// A region is locked, or waited for. It takes no memory.
pub fn enter(s: &mut State, who: u32, ticks: u32, region: u32, ready: Ready) -> Reply
    requires { CanServe s.old who (requests.Enter region) ready }
    ensures { Serves s.old s.new who ticks (requests.Enter region) result }
{
    if is_other(s.seats.regions.occupant(region), who) {
        return enter_later(s, who, ticks, region, ready);
    }
    lock(&mut s.seats, who, region);
    did(
        &mut s.journal,
        who,
        ticks,
        Request::Enter { region },
        Answer::Done,
    );
    Reply::Now(Answer::Done)
}

fn enter_later(s: &mut State, who: u32, ticks: u32, region: u32, ready: Ready) -> Reply
    requires can { CanServe s.old who (requests.Enter region) ready }
    requires taken { IsTaken (world_in s.old) who region }
    ensures { Serves s.old s.new who ticks (requests.Enter region) result }
{
    let chosen = Copies {
        noted: Answer::Done,
        handed: Answer::Done,
    };
    suspend(&mut s.seats, who, region, chosen);
    waits(&mut s.journal, who, ticks, Request::Enter { region }, None)
}

/// A region is left. The one that waits longest for it goes on. It takes no memory.
pub fn leave(s: &mut State, who: u32, ticks: u32, region: u32, ready: Ready) -> Reply
    requires { CanServe s.old who (requests.Leave region) ready }
    ensures { Serves s.old s.new who ticks (requests.Leave region) result }
{
    if s.seats.regions.occupant(region) == Some(who) {
        return leave_own(s, who, ticks, region, ready);
    }
    did(
        &mut s.journal,
        who,
        ticks,
        Request::Leave { region },
        Answer::Done,
    );
    Reply::Now(Answer::Done)
}

fn leave_own(s: &mut State, who: u32, ticks: u32, region: u32, ready: Ready) -> Reply
    requires can { CanServe s.old who (requests.Leave region) ready }
    requires own { Occupies (world_in s.old) who region }
    ensures { Serves s.old s.new who ticks (requests.Leave region) result }
{
    did(
        &mut s.journal,
        who,
        ticks,
        Request::Leave { region },
        Answer::Done,
    );
    let going = release(&mut s.seats, region);
    goes(&mut s.journal, going);
    Reply::Now(Answer::Done)
}

/// The end of a process. Its regions become free in the order of their numbers. It takes no memory.
pub fn end(s: &mut State, who: u32, ticks: u32, how: How, ready: Ready) -> Reply
    requires { CanServe s.old who (requests.End how) ready }
    ensures { Serves s.old s.new who ticks (requests.End how) result }
{
    did(
        &mut s.journal,
        who,
        ticks,
        Request::End { how },
        Answer::Done,
    );
    s.seats.instances.set_phase(who, Phase::Ended(how));
    for region in 0..s.facts.regions {
        let occupant = s.seats.regions.occupant(region);
        if occupant == Some(who) {
            let going = release(&mut s.seats, region);
            goes(&mut s.journal, going);
        }
    }
    Reply::Now(Answer::Done)
}
