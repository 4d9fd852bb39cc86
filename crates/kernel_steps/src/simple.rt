// Requests that let nobody go on: shared locations, input and output, and START.
ghost use Rattle.std.specs.Prelude.{◌≡◌, ◌↔◌, ◌≤◌, ◌<◌, [], IsTrue, vec_capacity};
ghost use Rattle.kernel_base.specs.declared.request.Request.TheVariants as requests;
ghost use Rattle.world_model.specs.Waiting.{count_of_live};
ghost use Rattle.world_model.specs.Allowed.{most_live};
ghost use Rattle.world_check.specs.Numbers.{told_by};
ghost use Rattle.kernel_steps.specs.Kept.{IsKept, world_in};
ghost use Rattle.kernel_steps.specs.Serving.{CanServe, Serves};

use crate::copies::twin_scalars;
use crate::input::word_end_from;
use crate::noting::did;
use crate::state::Ready;
use crate::{Reply, State, seats};
use chill_base::{List, Scalars, Text};
use kernel_base::{Answer, Exc, Place, Request};
use world_check::next_number;

/// The scalars at a place of a shared location. It takes no memory.
pub fn read(s: &mut State, who: u32, ticks: u32, place: Place, ready: Ready) -> Reply
    requires { CanServe s.old who (requests.Read place) ready }
    ensures { Serves s.old s.new who ticks (requests.Read place) result }
{
    let mut first = ready.first;
    s.store.read(place, &mut first);
    let handed = twin_scalars(&first, ready.second);
    let answer = Answer::Value(List::from_vec(first));
    did(&mut s.journal, who, ticks, Request::Read { place }, answer);
    Reply::Now(Answer::Value(handed))
}

/// Scalars are stored at a place of a shared location. It takes no memory.
pub fn write(
    s: &mut State,
    who: u32,
    ticks: u32,
    place: Place,
    scalars: Scalars,
    ready: Ready,
) -> Reply
    requires { CanServe s.old who (requests.Write place scalars) ready }
    ensures { Serves s.old s.new who ticks (requests.Write place scalars) result }
{
    s.store.write(place, &scalars);
    did(
        &mut s.journal,
        who,
        ticks,
        Request::Write { place, scalars },
        Answer::Done,
    );
    Reply::Now(Answer::Done)
}

/// Output, which stands in the journal alone. It takes no memory.
pub fn put(s: &mut State, who: u32, ticks: u32, bytes: Text, ready: Ready) -> Reply
    requires { CanServe s.old who (requests.Put bytes) ready }
    ensures { Serves s.old s.new who ticks (requests.Put bytes) result }
{
    did(
        &mut s.journal,
        who,
        ticks,
        Request::Put { bytes },
        Answer::Done,
    );
    Reply::Now(Answer::Done)
}

// The input that was not taken.
fn rest(s: &State) -> &[u8]
    requires { IsKept s.now }
    ensures { result.now ≡ (world_in s.now).input }
{
    &s.facts.input.as_slice()[s.read..]
}

// The answer that tells a number, or an exception.
fn told(number: Result<i64, Exc>, buffer: Vec<i64>) -> Answer
    requires empty { buffer.items ≡ [] }
    requires room { 1 ≤ vec_capacity buffer }
    ensures { result ≡ told_by number }
{
    match number {
        Ok(number) => {
            let mut buffer = buffer;
            buffer.push_reserved(number);
            Answer::Value(List::from_vec(buffer))
        }
        Err(exception) => Answer::Fail(exception),
    }
}

/// GET_INT: the next number of the input. It takes no memory.
pub fn get(s: &mut State, who: u32, ticks: u32, ready: Ready) -> Reply
    requires { CanServe s.old who requests.Get ready }
    ensures { Serves s.old s.new who ticks requests.Get result }
{
    let number = next_number(rest(s));
    s.read = word_end_from(s.facts.input.as_slice(), s.read);
    let noted = told(number, ready.first);
    let handed = told(number, ready.second);
    did(&mut s.journal, who, ticks, Request::Get, noted);
    Reply::Now(handed)
}

// Whether as many instances are live as may be.
fn is_full(s: &State) -> bool
    requires { IsKept s.now }
    ensures { IsTrue result ↔ (most_live ≤ count_of_live (world_in s.now)) }
{
    s.seats.instances.live() >= 1000
}

// As many instances are live as may be.
fn refuse_start(
    s: &mut State,
    who: u32,
    ticks: u32,
    process: u32,
    scalars: Scalars,
    ready: Ready,
) -> Reply
    requires can { CanServe s.old who (requests.Start process scalars) ready }
    requires full { most_live ≤ count_of_live (world_in s.old) }
    ensures { Serves s.old s.new who ticks (requests.Start process scalars) result }
{
    did(
        &mut s.journal,
        who,
        ticks,
        ready.request,
        Answer::Fail(Exc::Spacefail),
    );
    Reply::Now(Answer::Fail(Exc::Spacefail))
}

/// START. It takes no memory.
pub fn start(
    s: &mut State,
    who: u32,
    ticks: u32,
    process: u32,
    scalars: Scalars,
    ready: Ready,
) -> Reply
    requires { CanServe s.old who (requests.Start process scalars) ready }
    ensures { Serves s.old s.new who ticks (requests.Start process scalars) result }
{
    if is_full(s) {
        return refuse_start(s, who, ticks, process, scalars, ready);
    }
    start_new(s, who, ticks, process, scalars, ready)
}

fn start_new(
    s: &mut State,
    who: u32,
    ticks: u32,
    process: u32,
    scalars: Scalars,
    ready: Ready,
) -> Reply
    requires can { CanServe s.old who (requests.Start process scalars) ready }
    requires room { count_of_live (world_in s.old) < most_live }
    ensures { Serves s.old s.new who ticks (requests.Start process scalars) result }
{
    let instance = seats::start(&mut s.seats, process);
    s.arguments.push_reserved(scalars);
    did(
        &mut s.journal,
        who,
        ticks,
        ready.request,
        Answer::Instance(instance),
    );
    Reply::Now(Answer::Instance(instance))
}
