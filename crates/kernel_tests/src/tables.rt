// Requests and answers as tables can hold them, and what they stand for.
use chill_base::{List, Scalars};
use kernel_base::{Alternative, Alternatives, Answer, Exc, How, Place, Request};
use std::alloc::{AllocError, Global};

/// A request as a table can hold it, with its parts in their order. The shared location is the one that there is.
#[derive(Drop)]
pub enum Asked {
    Read,
    Write(i64),
    Enter(u32),
    Leave(u32),
    Delay(&'static [Alternative], u32),
    Continue(u32),
    SendBuffer(u32, &'static [i64], u32),
    ReceiveBuffer(&'static [Alternative], bool),
    SendSignal(u32, Option<u32>, u32),
    ReceiveSignal(&'static [Alternative], bool),
    Start(u32, &'static [i64]),
    Put(&'static str),
    Get,
    End(How),
}

/// An answer as a table can hold it.
#[derive(Drop)]
pub enum Given {
    Value(i64),
    Done,
    /// The alternative, and the instance that continued.
    Woken(u32, u32),
    /// The alternative, the send number, the scalars, and the instance that sent.
    Got(u32, u32, &'static [i64], u32),
    Otherwise,
    Instance(u32),
    Fail(Exc),
    Chose(Option<u32>),
    Handed(u32),
    Stored,
}

/// Thing 0 alone.
pub const FIRST: &[Alternative] = &[Alternative {
    thing: 0,
    number: 0,
}];

/// Thing 1 alone.
pub const SECOND: &[Alternative] = &[Alternative {
    thing: 1,
    number: 0,
}];

/// Thing 2 alone.
pub const THIRD: &[Alternative] = &[Alternative {
    thing: 2,
    number: 0,
}];

/// Thing 0 as the first alternative, thing 1 as the second.
pub const BOTH: &[Alternative] = &[
    Alternative {
        thing: 0,
        number: 0,
    },
    Alternative {
        thing: 1,
        number: 1,
    },
];

/// The one scalar of the one shared location.
const SHARED: Place = Place {
    location: 0,
    first: 0,
    count: 1,
};

fn scalars_of(alloc: Global, numbers: &[i64]) -> Result<Scalars, AllocError> {
    Ok(List::from_vec(numbers.to_vec(alloc)?))
}

fn alternatives_of(alloc: Global, rows: &[Alternative]) -> Result<Alternatives, AllocError> {
    Ok(List::from_vec(rows.to_vec(alloc)?))
}

/// The request of the table.
pub fn request_of(alloc: Global, asked: &Asked) -> Result<Request, AllocError> {
    Ok(match asked {
        Asked::Read => Request::Read { place: SHARED },
        Asked::Write(number) => Request::Write {
            place: SHARED,
            scalars: scalars_of(alloc, &[*number])?,
        },
        Asked::Enter(region) => Request::Enter { region: *region },
        Asked::Leave(region) => Request::Leave { region: *region },
        Asked::Delay(events, priority) => Request::Delay {
            events: alternatives_of(alloc, events)?,
            priority: *priority,
        },
        Asked::Continue(event) => Request::Continue { event: *event },
        Asked::SendBuffer(buffer, scalars, priority) => Request::SendBuffer {
            buffer: *buffer,
            scalars: scalars_of(alloc, scalars)?,
            priority: *priority,
        },
        Asked::ReceiveBuffer(buffers, otherwise) => Request::ReceiveBuffer {
            buffers: alternatives_of(alloc, buffers)?,
            otherwise: *otherwise,
        },
        Asked::SendSignal(signal, to, priority) => Request::SendSignal {
            signal: *signal,
            scalars: List::new(alloc),
            to: *to,
            priority: *priority,
        },
        Asked::ReceiveSignal(signals, otherwise) => Request::ReceiveSignal {
            signals: alternatives_of(alloc, signals)?,
            otherwise: *otherwise,
        },
        Asked::Start(process, scalars) => Request::Start {
            process: *process,
            scalars: scalars_of(alloc, scalars)?,
        },
        Asked::Put(text) => Request::Put {
            bytes: List::from_vec(text.as_bytes().to_vec(alloc)?),
        },
        Asked::Get => Request::Get,
        Asked::End(how) => Request::End { how: *how },
    })
}

/// The answer of the table.
pub fn answer_of(alloc: Global, given: &Given) -> Result<Answer, AllocError> {
    Ok(match given {
        Given::Value(number) => Answer::Value(scalars_of(alloc, &[*number])?),
        Given::Done => Answer::Done,
        Given::Woken(alternative, by) => Answer::Woken {
            alternative: *alternative,
            by: *by,
        },
        Given::Got(alternative, send, scalars, by) => Answer::Got {
            alternative: *alternative,
            send: *send,
            scalars: scalars_of(alloc, scalars)?,
            by: *by,
        },
        Given::Otherwise => Answer::Otherwise,
        Given::Instance(instance) => Answer::Instance(*instance),
        Given::Fail(exception) => Answer::Fail(*exception),
        Given::Chose(process) => Answer::Chose(*process),
        Given::Handed(process) => Answer::Handed(*process),
        Given::Stored => Answer::Stored,
    })
}
