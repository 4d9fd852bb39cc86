// Which events are allowed in a world.
ghost use Rattle.std.specs.Prelude.{◌≡◌, ◌≤◌, ◌⊎◌, ◌↔◌, IsTrue, IsFalse};
ghost use Rattle.kernel_base.specs.declared.answer.Answer.TheVariants as answers;
ghost use Rattle.kernel_base.specs.declared.ends.Exc.TheVariants.{Delayfail};
ghost use Rattle.world_model.specs.Waiting as waiting;
ghost use Rattle.world_model.specs.Allowed as events;

use crate::receiving::{nothing_to_take, receives_from_buffer};
use kernel_base::{Alternative, Answer, Event, Exc, Facts, Request};
use world_check::{
    continues, event_in_range, fails_with, gets, has_room, is_active, is_done, is_full, is_taken,
    may_ask, may_enter, may_go, no_signal_pends, nobody_receives, reads, receives_signal,
    sends_signal, sends_to_buffer, starts,
};
use world_model::World;

// Whether an event whose request delays on these has as many delayed processes as its length, and the answer says so.
fn refuses_delay(facts: &Facts, world: &World, listed: &[Alternative], answer: &Answer) -> bool
    ensures { IsTrue result ↔ ((answer.now ≡ answers.Fail Delayfail) × IsTrue (waiting.is_full facts.now world.now listed.now)) }
{
    fails_with(answer, Exc::Delayfail) && is_full(facts, world, listed)
}

fn enters(world: &World, who: u32, region: u32, answer: &Answer) -> bool
    ensures { IsTrue result ↔ ((answer.now ≡ answers.Done) × (events.IsFree world.now region ⊎ events.Occupies world.now who region)) }
{
    is_done(answer) && may_enter(world, who, region)
}

fn answers_alone(facts: &Facts, world: &World, who: u32, request: &Request, answer: &Answer) -> bool
    ensures { IsTrue result ↔ events.AnswersAlone facts.now world.now who request.now answer.now }
{
    match request {
        Request::Read { place } => reads(world, *place, answer),
        Request::Enter { region } => enters(world, who, *region, answer),
        Request::Write { .. } | Request::Leave { .. } | Request::Put { .. } | Request::End { .. } =>
            is_done(answer),
        Request::Delay { events, .. } => refuses_delay(facts, world, events.as_slice(), answer),
        Request::Continue { event } => continues(world, *event, answer),
        Request::SendBuffer { buffer, .. } => sends_to_buffer(facts, world, *buffer, answer),
        Request::ReceiveBuffer { .. } => false,
        Request::SendSignal { signal, to, .. } => sends_signal(facts, world, *signal, *to, answer),
        Request::ReceiveSignal { signals, otherwise } => {
            receives_signal(facts, world, who, signals.as_slice(), *otherwise, answer)
        }
        Request::Start { .. } => starts(world, answer),
        Request::Get => gets(world.input.as_slice(), answer),
    }
}

fn answers(
    facts: &Facts,
    world: &World,
    who: u32,
    request: &Request,
    answer: &Answer,
    refill: Option<u32>,
) -> bool
    ensures { IsTrue result ↔ events.Answers facts.now world.now who request.now answer.now refill }
{
    match request {
        Request::ReceiveBuffer { buffers, otherwise } => {
            receives_from_buffer(facts, world, buffers.as_slice(), *otherwise, answer, refill)
        }
        Request::Read { .. }
        | Request::Write { .. }
        | Request::Enter { .. }
        | Request::Leave { .. }
        | Request::Delay { .. }
        | Request::Continue { .. }
        | Request::SendBuffer { .. }
        | Request::SendSignal { .. }
        | Request::ReceiveSignal { .. }
        | Request::Start { .. }
        | Request::Put { .. }
        | Request::Get
        | Request::End { .. } => {
            refill.is_none() && answers_alone(facts, world, who, request, answer)
        }
    }
}

// Whether nobody waits for a value of this buffer, which takes none more.
fn must_hold_value(facts: &Facts, world: &World, buffer: u32) -> bool
    ensures { IsTrue result ↔ (events.NobodyReceives world.now buffer × IsFalse (events.has_room facts.now world.now buffer)) }
{
    nobody_receives(world, buffer) && !has_room(facts, world, buffer)
}

fn must_wait_for_value(
    facts: &Facts,
    world: &World,
    buffers: &[Alternative],
    otherwise: bool,
) -> bool
    ensures { IsTrue result ↔ (IsFalse otherwise × events.NothingToTake facts.now world.now buffers.now) }
{
    !otherwise && nothing_to_take(facts, world, buffers)
}

fn must_wait_for_signal(
    facts: &Facts,
    world: &World,
    who: u32,
    signals: &[Alternative],
    otherwise: bool,
) -> bool
    ensures { IsTrue result ↔ (IsFalse otherwise × events.NoSignalPends facts.now world.now who signals.now) }
{
    !otherwise && no_signal_pends(facts, world, who, signals)
}

fn must_wait(facts: &Facts, world: &World, who: u32, request: &Request) -> bool
    ensures { IsTrue result ↔ events.MustWait facts.now world.now who request.now }
{
    match request {
        Request::Enter { region } => is_taken(world, who, *region),
        Request::Delay { events, .. } => !is_full(facts, world, events.as_slice()),
        Request::SendBuffer { buffer, .. } => must_hold_value(facts, world, *buffer),
        Request::ReceiveBuffer { buffers, otherwise } => {
            must_wait_for_value(facts, world, buffers.as_slice(), *otherwise)
        }
        Request::ReceiveSignal { signals, otherwise } => {
            must_wait_for_signal(facts, world, who, signals.as_slice(), *otherwise)
        }
        Request::Read { .. }
        | Request::Write { .. }
        | Request::Leave { .. }
        | Request::Continue { .. }
        | Request::SendSignal { .. }
        | Request::Start { .. }
        | Request::Put { .. }
        | Request::Get
        | Request::End { .. } => false,
    }
}

fn may_be_answered(
    facts: &Facts,
    world: &World,
    who: u32,
    request: &Request,
    answer: &Answer,
    refill: Option<u32>,
) -> bool
    ensures { IsTrue result ↔ (events.MayAsk facts.now world.now who request.now × events.Answers facts.now world.now who request.now answer.now refill) }
{
    may_ask(facts, world, who, request) && answers(facts, world, who, request, answer, refill)
}

fn may_wait(facts: &Facts, world: &World, who: u32, request: &Request) -> bool
    ensures { IsTrue result ↔ (events.MayAsk facts.now world.now who request.now × events.MustWait facts.now world.now who request.now) }
{
    may_ask(facts, world, who, request) && must_wait(facts, world, who, request)
}

fn may_run(world: &World, who: u32, ticks: u32) -> bool
    ensures { IsTrue result ↔ (waiting.IsActive world.now who × (1 ≤ ticks)) }
{
    is_active(world, who) && 1 <= ticks
}

fn is_possible(facts: &Facts, world: &World, event: &Event) -> bool
    ensures { IsTrue result ↔ events.IsPossible facts.now world.now event.now }
{
    match event {
        Event::Did {
            who,
            request,
            answer,
            refill,
            ..
        } => may_be_answered(facts, world, *who, request, answer, *refill),
        Event::Waits { who, request, .. } => may_wait(facts, world, *who, request),
        Event::Goes { who, answer } => may_go(world, *who, answer),
        Event::Runs { who, ticks } => may_run(world, *who, *ticks),
    }
}

/// Whether an event is allowed in a world.
pub fn is_allowed(facts: &Facts, world: &World, event: &Event) -> bool
    ensures { IsTrue result ↔ events.IsAllowed facts.now world.now event.now }
{
    event_in_range(event) && is_possible(facts, world, event)
}
