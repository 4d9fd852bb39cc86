// The units of an event (our own choice), by which a run's budget is counted.
ghost use Rattle.std.specs.Prelude.{◌≡◌, ◌^◌, ◌<◌};
ghost use Rattle.kernel_base.specs.Units.{units_of, units_of_answer, units_of_request};

use crate::{Answer, Event, Request};

/// The units of an event: 1, its ticks, the scalars in its request and its answer, the alternatives that its request
/// lists, and the whole eighths of the bytes that it puts.
pub fn event_units(event: &Event) -> u64
    ensures { result ≡ units_of event.now }
{
    match event {
        Event::Did {
            ticks,
            request,
            answer,
            ..
        } => 1 + *ticks as u64 + request_units(request) + answer_units(answer),
        Event::Waits { ticks, request, .. } => 1 + *ticks as u64 + request_units(request),
        Event::Goes { answer, .. } => 1 + answer_units(answer),
        Event::Runs { ticks, .. } => 1 + *ticks as u64,
    }
}

fn request_units(request: &Request) -> u64
    ensures units { result ≡ units_of_request request.now }
    ensures few { result < 2 ^ 61 }
{
    match request {
        Request::Write { scalars, .. }
        | Request::SendBuffer { scalars, .. }
        | Request::SendSignal { scalars, .. }
        | Request::Start { scalars, .. } => scalars.as_slice().len() as u64,
        Request::Delay {
            events: alternatives,
            ..
        }
        | Request::ReceiveBuffer {
            buffers: alternatives,
            ..
        }
        | Request::ReceiveSignal {
            signals: alternatives,
            ..
        } => alternatives.as_slice().len() as u64,
        Request::Put { bytes } => (bytes.as_slice().len() / 8) as u64,
        Request::Read { .. }
        | Request::Enter { .. }
        | Request::Leave { .. }
        | Request::Continue { .. }
        | Request::Get
        | Request::End { .. } => 0,
    }
}

fn answer_units(answer: &Answer) -> u64
    ensures units { result ≡ units_of_answer answer.now }
    ensures few { result < 2 ^ 61 }
{
    match answer {
        Answer::Value(scalars) | Answer::Got { scalars, .. } => scalars.as_slice().len() as u64,
        Answer::Done
        | Answer::Woken { .. }
        | Answer::Otherwise
        | Answer::Instance(_)
        | Answer::Fail(_)
        | Answer::Chose(_)
        | Answer::Handed(_)
        | Answer::Stored => 0,
    }
}
