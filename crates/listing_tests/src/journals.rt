// Journals as tables can hold them, and what they stand for.
use crate::programs::text_of;
use chill_base::{List, Memory};
use kernel_base::{Alternative, Alternatives, Answer, Event, Exc, How, Request};
use std::alloc::{AllocError, Global};

/// An event as a table can hold it. The first number is who it is of.
#[derive(Clone, Copy)]
pub enum Step {
    /// It starts a process of a number, which becomes an instance.
    Starts(u32, u32, u32),
    /// It may start no more.
    StartsNone(u32),
    Enters(u32, u32),
    Leaves(u32, u32),
    WaitsToEnter(u32, u32),
    /// It is delayed on event 0.
    Delays(u32),
    /// It continues nobody, or the instance.
    Continues(u32, Option<u32>),
    /// It sends to buffer 0, and the value is stored, or handed to an instance.
    Sends(u32),
    SendsTo(u32, u32),
    WaitsToSend(u32),
    /// It receives from buffer 0, and a sender's value takes the place of the one received.
    Receives(u32, Option<u32>),
    WaitsToReceive(u32),
    /// It sends signal 0, which is stored, or handed to an instance.
    Signals(u32),
    SignalsTo(u32, u32),
    /// It waits for signal 0.
    Hears(u32),
    Goes(u32),
    Runs(u32),
    Puts(u32, &'static str),
    Ends(u32, How),
}

/// The events of a table's rows.
pub fn events_of(alloc: Global, steps: &[Step]) -> Result<List<Event>, Memory> {
    let mut events = List::new(alloc);
    for step in steps {
        events.push(event_of(alloc, *step)?)?;
    }
    Ok(events)
}

fn did(who: u32, request: Request, answer: Answer) -> Event {
    Event::Did {
        who,
        ticks: 0,
        request,
        answer,
        refill: None,
    }
}

fn waits(who: u32, request: Request) -> Event {
    Event::Waits {
        who,
        ticks: 0,
        request,
    }
}

fn event_of(alloc: Global, step: Step) -> Result<Event, AllocError> {
    Ok(match step {
        Step::Starts(who, process, instance) => did(
            who,
            started(alloc, process),
            Answer::Instance(instance),
        ),
        Step::StartsNone(who) => did(who, started(alloc, 1), Answer::Fail(Exc::Spacefail)),
        Step::Enters(who, region) => did(who, Request::Enter { region }, Answer::Done),
        Step::Leaves(who, region) => did(who, Request::Leave { region }, Answer::Done),
        Step::WaitsToEnter(who, region) => waits(who, Request::Enter { region }),
        Step::Delays(who) => waits(who, delayed(alloc)?),
        Step::Continues(who, chosen) => did(
            who,
            Request::Continue { event: 0 },
            Answer::Chose(chosen),
        ),
        Step::Goes(who) => Event::Goes {
            who,
            answer: Answer::Done,
        },
        Step::Runs(who) => Event::Runs { who, ticks: 256 },
        Step::Puts(who, text) => did(who, put(alloc, text)?, Answer::Done),
        Step::Ends(who, how) => did(who, Request::End { how }, Answer::Done),
        _ => message_of(alloc, step)?,
    })
}

// An event of a buffer or a signal.
fn message_of(alloc: Global, step: Step) -> Result<Event, AllocError> {
    Ok(match step {
        Step::Sends(who) => did(who, sent(alloc), Answer::Stored),
        Step::SendsTo(who, receiver) => did(who, sent(alloc), Answer::Handed(receiver)),
        Step::WaitsToSend(who) => waits(who, sent(alloc)),
        Step::Receives(who, refill) => received(alloc, who, refill)?,
        Step::WaitsToReceive(who) => waits(who, from_buffer(alloc)?),
        Step::Signals(who) => did(who, signalled(alloc), Answer::Stored),
        Step::SignalsTo(who, receiver) => did(who, signalled(alloc), Answer::Handed(receiver)),
        Step::Hears(who) => waits(who, heard(alloc)?),
        _ => Event::Runs { who: 1, ticks: 1 },
    })
}

fn started(alloc: Global, process: u32) -> Request {
    Request::Start {
        process,
        scalars: List::new(alloc),
    }
}

fn put(alloc: Global, text: &str) -> Result<Request, AllocError> {
    Ok(Request::Put {
        bytes: text_of(alloc, text)?,
    })
}

fn first(alloc: Global) -> Result<Alternatives, AllocError> {
    let mut alternatives = Vec::new(alloc);
    alternatives.push(Alternative {
        thing: 0,
        number: 0,
    })?;
    Ok(List::from_vec(alternatives))
}

fn delayed(alloc: Global) -> Result<Request, AllocError> {
    Ok(Request::Delay {
        events: first(alloc)?,
        priority: 0,
    })
}

fn sent(alloc: Global) -> Request {
    Request::SendBuffer {
        buffer: 0,
        scalars: List::new(alloc),
        priority: 0,
    }
}

fn from_buffer(alloc: Global) -> Result<Request, AllocError> {
    Ok(Request::ReceiveBuffer {
        buffers: first(alloc)?,
        otherwise: false,
    })
}

fn received(alloc: Global, who: u32, refill: Option<u32>) -> Result<Event, AllocError> {
    Ok(Event::Did {
        who,
        ticks: 0,
        request: from_buffer(alloc)?,
        answer: Answer::Got {
            alternative: 0,
            send: 1,
            scalars: List::new(alloc),
            by: 1,
        },
        refill,
    })
}

fn signalled(alloc: Global) -> Request {
    Request::SendSignal {
        signal: 0,
        scalars: List::new(alloc),
        to: None,
        priority: 0,
    }
}

fn heard(alloc: Global) -> Result<Request, AllocError> {
    Ok(Request::ReceiveSignal {
        signals: first(alloc)?,
        otherwise: false,
    })
}
