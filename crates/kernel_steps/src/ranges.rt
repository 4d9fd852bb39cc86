// Numbers of Rust's types have the ranges that the definitions ask for. Each function only reads what it speaks of.
ghost use Rattle.std.specs.Prelude.{◌<◌, IfSome, All};
ghost use Rattle.world_model.specs.Ranges.{IsNumber, IsScalar, AreScalars, AreAlternatives, IsPlaceInRange, IsExcInRange, IsHowInRange, IsRequestInRange, IsAnswerInRange};

use kernel_base::{Alternative, Answer, Exc, How, Place, Request};

pub fn number_in_range(_number: u32)
    ensures { IsNumber _number }
{}

pub fn optional_in_range(number: Option<u32>)
    ensures { IfSome number IsNumber }
{
    if let Some(number) = number {
        number_in_range(number);
    }
}

fn scalar_in_range(_scalar: i64)
    ensures { IsScalar _scalar }
{}

fn scalars_in_range(scalars: &[i64])
    ensures { AreScalars scalars.now }
{
    for i in 0..scalars.len() {
        scalar_in_range(scalars[i]);
    }
}

fn bytes_in_range(bytes: &[u8])
    ensures { All (λ byte. byte < 256) bytes.now }
{
    for byte in bytes {
        let _byte = *byte;
    }
}

fn alternative_in_range(alternative: Alternative)
    ensures { IsNumber alternative.thing × IsNumber alternative.number }
{
    number_in_range(alternative.thing);
    number_in_range(alternative.number);
}

fn alternatives_in_range(alternatives: &[Alternative])
    ensures { AreAlternatives alternatives.now }
{
    for i in 0..alternatives.len() {
        alternative_in_range(alternatives[i]);
    }
}

fn place_in_range(place: Place)
    ensures { IsPlaceInRange place }
{
    number_in_range(place.location);
    number_in_range(place.first);
    number_in_range(place.count);
}

fn exc_in_range(exception: Exc)
    ensures { IsExcInRange exception }
{
    if let Exc::User(number) = exception {
        number_in_range(number);
    }
}

fn how_in_range(how: How)
    ensures { IsHowInRange how }
{
    if let How::Raised(exception) = how {
        exc_in_range(exception);
    }
}

/// Each number in a request has the range of its type.
pub fn request_in_range(request: &Request)
    ensures { IsRequestInRange request.now }
{
    match request {
        Request::Read { place } => place_in_range(*place),
        Request::Write { place, scalars } => {
            place_in_range(*place);
            scalars_in_range(scalars.as_slice());
        }
        Request::Enter { region } => number_in_range(*region),
        Request::Leave { region } => number_in_range(*region),
        Request::Delay { events, priority } => {
            alternatives_in_range(events.as_slice());
            number_in_range(*priority);
        }
        Request::Continue { event } => number_in_range(*event),
        Request::SendBuffer {
            buffer,
            scalars,
            priority,
        } => {
            number_in_range(*buffer);
            scalars_in_range(scalars.as_slice());
            number_in_range(*priority);
        }
        Request::ReceiveBuffer { buffers, .. } => alternatives_in_range(buffers.as_slice()),
        Request::SendSignal {
            signal,
            scalars,
            to,
            priority,
        } => {
            number_in_range(*signal);
            scalars_in_range(scalars.as_slice());
            optional_in_range(*to);
            number_in_range(*priority);
        }
        Request::ReceiveSignal { signals, .. } => alternatives_in_range(signals.as_slice()),
        Request::Start { process, scalars } => {
            number_in_range(*process);
            scalars_in_range(scalars.as_slice());
        }
        Request::Put { bytes } => bytes_in_range(bytes.as_slice()),
        Request::Get => {}
        Request::End { how } => how_in_range(*how),
    }
}

/// Each number in an answer has the range of its type.
pub fn answer_in_range(answer: &Answer)
    ensures { IsAnswerInRange answer.now }
{
    match answer {
        Answer::Value(scalars) => scalars_in_range(scalars.as_slice()),
        Answer::Woken { alternative, by } => {
            number_in_range(*alternative);
            number_in_range(*by);
        }
        Answer::Got {
            alternative,
            send,
            scalars,
            by,
        } => {
            number_in_range(*alternative);
            number_in_range(*send);
            scalars_in_range(scalars.as_slice());
            number_in_range(*by);
        }
        Answer::Instance(instance) => number_in_range(*instance),
        Answer::Fail(exception) => exc_in_range(*exception),
        Answer::Chose(chosen) => optional_in_range(*chosen),
        Answer::Handed(instance) => number_in_range(*instance),
        Answer::Done | Answer::Otherwise | Answer::Stored => {}
    }
}
