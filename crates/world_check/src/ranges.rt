// Numbers of Rust's types have the ranges that the definitions ask for.
ghost use Rattle.world_model.specs.Ranges.{IsNumber, AreScalars, AreAlternatives, IsPlaceInRange, IsExcInRange, IsHowInRange, IsRequestInRange, IsAnswerInRange, IsInRange};
ghost use Rattle.std.specs.Prelude.{◌<◌, ◌↔◌, IsTrue, IfSome, All};

use kernel_base::{Alternative, Answer, Event, Exc, How, Place, Request};

fn is_number(number: u32) -> bool
    ensures { IsTrue result ↔ IsNumber number }
{
    number <= u32::MAX
}

fn is_optional_number(number: Option<u32>) -> bool
    ensures { IsTrue result ↔ IfSome number IsNumber }
{
    match number {
        Some(number) => is_number(number),
        None => true,
    }
}

fn are_scalars(scalars: &[i64]) -> bool
    ensures { IsTrue result ↔ AreScalars scalars.now }
{
    scalars
        .iter()
        .all(|scalar| i64::MIN <= *scalar && *scalar <= i64::MAX)
}

fn are_bytes(bytes: &[u8]) -> bool
    ensures { IsTrue result ↔ All (λ byte. byte < 256) bytes.now }
{
    bytes.iter().all(|byte| *byte <= u8::MAX)
}

fn are_alternatives(alternatives: &[Alternative]) -> bool
    ensures { IsTrue result ↔ AreAlternatives alternatives.now }
{
    alternatives.iter().all(|alternative| alternative.thing <= u32::MAX
        && alternative.number <= u32::MAX)
}

fn place_in_range(place: Place) -> bool
    ensures { IsTrue result ↔ IsPlaceInRange place }
{
    is_number(place.location) && is_number(place.first) && is_number(place.count)
}

fn exc_in_range(exception: Exc) -> bool
    ensures { IsTrue result ↔ IsExcInRange exception }
{
    match exception {
        Exc::User(number) => is_number(number),
        _ => true,
    }
}

fn how_in_range(how: How) -> bool
    ensures { IsTrue result ↔ IsHowInRange how }
{
    match how {
        How::Raised(exception) => exc_in_range(exception),
        _ => true,
    }
}

fn request_in_range(request: &Request) -> bool
    ensures { IsTrue result ↔ IsRequestInRange request.now }
{
    match request {
        Request::Read { place } => place_in_range(*place),
        Request::Write { place, scalars } => {
            place_in_range(*place) && are_scalars(scalars.as_slice())
        }
        Request::Enter { region } => is_number(*region),
        Request::Leave { region } => is_number(*region),
        Request::Delay { events, priority } => {
            are_alternatives(events.as_slice()) && is_number(*priority)
        }
        Request::Continue { event } => is_number(*event),
        Request::SendBuffer {
            buffer,
            scalars,
            priority,
        } => is_number(*buffer) && are_scalars(scalars.as_slice()) && is_number(*priority),
        Request::ReceiveBuffer { buffers, .. } => are_alternatives(buffers.as_slice()),
        Request::SendSignal {
            signal,
            scalars,
            to,
            priority,
        } => {
            is_number(*signal)
                && are_scalars(scalars.as_slice())
                && is_optional_number(*to)
                && is_number(*priority)
        }
        Request::ReceiveSignal { signals, .. } => are_alternatives(signals.as_slice()),
        Request::Start { process, scalars } => {
            is_number(*process) && are_scalars(scalars.as_slice())
        }
        Request::Put { bytes } => are_bytes(bytes.as_slice()),
        Request::Get => true,
        Request::End { how } => how_in_range(*how),
    }
}

fn answer_in_range(answer: &Answer) -> bool
    ensures { IsTrue result ↔ IsAnswerInRange answer.now }
{
    match answer {
        Answer::Value(scalars) => are_scalars(scalars.as_slice()),
        Answer::Woken { alternative, by } => is_number(*alternative) && is_number(*by),
        Answer::Got {
            alternative,
            send,
            scalars,
            by,
        } => {
            is_number(*alternative)
                && is_number(*send)
                && are_scalars(scalars.as_slice())
                && is_number(*by)
        }
        Answer::Instance(instance) => is_number(*instance),
        Answer::Fail(exception) => exc_in_range(*exception),
        Answer::Chose(chosen) => is_optional_number(*chosen),
        Answer::Handed(instance) => is_number(*instance),
        Answer::Done | Answer::Otherwise | Answer::Stored => true,
    }
}

/// Whether each number in an event has the range of its type. In code it always has.
pub fn event_in_range(event: &Event) -> bool
    ensures { IsTrue result ↔ IsInRange event.now }
{
    match event {
        Event::Did {
            who,
            ticks,
            request,
            answer,
            refill,
        } => {
            is_number(*who)
                && is_number(*ticks)
                && request_in_range(request)
                && answer_in_range(answer)
                && is_optional_number(*refill)
        }
        Event::Waits {
            who,
            ticks,
            request,
        } => is_number(*who) && is_number(*ticks) && request_in_range(request),
        Event::Goes { who, answer } => is_number(*who) && answer_in_range(answer),
        Event::Runs { who, ticks } => is_number(*who) && is_number(*ticks),
    }
}
