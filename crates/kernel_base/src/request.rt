// What a process asks of the kernel (Z.200, chapter on concurrent execution).
ghost use Rattle.std.specs.Prelude.{◌≡◌, ◌↔◌, IfOk, IsTrue};

use crate::How;
use chill_base::{Item, List, Memory, Scalars, Text};

/// A part of a shared location: `count` of its flat scalars, from number `first` on.
#[derive(Clone, Copy, PartialEq, Eq)]
pub struct Place {
    pub location: u32,
    pub first: u32,
    pub count: u32,
}

/// One alternative of a DELAY CASE or RECEIVE CASE: an event, buffer or signal, and the alternative's number.
#[derive(Clone, Copy, PartialEq, Eq)]
pub struct Alternative {
    pub thing: u32,
    pub number: u32,
}

pub type Alternatives = List<Alternative>;

impl Item for Alternative {
    fn copy(&self) -> Result<Self, Memory> {
        Ok(*self)
    }

    fn equals(&self, other: &Self) -> bool {
        *self == *other
    }
}

/// A request of a process. Locations, regions, events, buffers, signals and processes go by their numbers.
#[derive(Drop)]
pub enum Request {
    /// The value of a place.
    Read {
        place: Place,
    },
    /// A new value for a place.
    Write {
        place: Place,
        scalars: Scalars,
    },
    /// To lock a region.
    Enter {
        region: u32,
    },
    /// To free a region.
    Leave {
        region: u32,
    },
    /// To wait until one of the events is continued.
    Delay {
        events: Alternatives,
        priority: u32,
    },
    /// To let one process go on that is delayed on the event.
    Continue {
        event: u32,
    },
    /// To put a value into a buffer.
    SendBuffer {
        buffer: u32,
        scalars: Scalars,
        priority: u32,
    },
    /// To take a value from one of the buffers, or none where `otherwise` is set and none is there.
    ReceiveBuffer {
        buffers: Alternatives,
        otherwise: bool,
    },
    /// To send a signal, to one instance or to whoever may receive it.
    SendSignal {
        signal: u32,
        scalars: Scalars,
        to: Option<u32>,
        priority: u32,
    },
    /// To take one of the signals, or none where `otherwise` is set and none is there.
    ReceiveSignal {
        signals: Alternatives,
        otherwise: bool,
    },
    /// To start a process with these arguments.
    Start {
        process: u32,
        scalars: Scalars,
    },
    /// To append bytes to the output.
    Put {
        bytes: Text,
    },
    /// The next number of the input.
    Get,
    /// To end.
    End {
        how: How,
    },
}

impl Item for Request {
    fn copy(&self) -> Result<Self, Memory> {
        let copy = match self {
            Request::Read { place } => Request::Read { place: *place },
            Request::Write { place, scalars } => Request::Write {
                place: *place,
                scalars: scalars.copy()?,
            },
            Request::Enter { region } => Request::Enter { region: *region },
            Request::Leave { region } => Request::Leave { region: *region },
            Request::Delay { events, priority } => Request::Delay {
                events: events.copy()?,
                priority: *priority,
            },
            Request::Continue { event } => Request::Continue { event: *event },
            Request::SendBuffer {
                buffer,
                scalars,
                priority,
            } => Request::SendBuffer {
                buffer: *buffer,
                scalars: scalars.copy()?,
                priority: *priority,
            },
            Request::ReceiveBuffer { buffers, otherwise } => Request::ReceiveBuffer {
                buffers: buffers.copy()?,
                otherwise: *otherwise,
            },
            Request::SendSignal {
                signal,
                scalars,
                to,
                priority,
            } => Request::SendSignal {
                signal: *signal,
                scalars: scalars.copy()?,
                to: *to,
                priority: *priority,
            },
            Request::ReceiveSignal { signals, otherwise } => Request::ReceiveSignal {
                signals: signals.copy()?,
                otherwise: *otherwise,
            },
            Request::Start { process, scalars } => Request::Start {
                process: *process,
                scalars: scalars.copy()?,
            },
            Request::Put { bytes } => Request::Put {
                bytes: bytes.copy()?,
            },
            Request::Get => Request::Get,
            Request::End { how } => Request::End { how: *how },
        };
        Ok(copy)
    }

    fn equals(&self, other: &Self) -> bool {
        match (self, other) {
            (Request::Read { place }, Request::Read { place: p }) => *place == *p,
            (
                Request::Write { place, scalars },
                Request::Write {
                    place: p,
                    scalars: s,
                },
            ) => { *place == *p && scalars.equals(s) }
            (Request::Enter { region }, Request::Enter { region: r }) => *region == *r,
            (Request::Leave { region }, Request::Leave { region: r }) => *region == *r,
            (
                Request::Delay { events, priority },
                Request::Delay {
                    events: e,
                    priority: p,
                },
            ) => { events.equals(e) && *priority == *p }
            (Request::Continue { event }, Request::Continue { event: e }) => *event == *e,
            (
                Request::SendBuffer {
                    buffer,
                    scalars,
                    priority,
                },
                Request::SendBuffer {
                    buffer: b,
                    scalars: s,
                    priority: p,
                },
            ) => { *buffer == *b && scalars.equals(s) && *priority == *p }
            (
                Request::ReceiveBuffer { buffers, otherwise },
                Request::ReceiveBuffer {
                    buffers: b,
                    otherwise: o,
                },
            ) => { buffers.equals(b) && *otherwise == *o }
            (
                Request::SendSignal {
                    signal,
                    scalars,
                    to,
                    priority,
                },
                Request::SendSignal {
                    signal: n,
                    scalars: s,
                    to: t,
                    priority: p,
                },
            ) => { *signal == *n && scalars.equals(s) && *to == *t && *priority == *p }
            (
                Request::ReceiveSignal { signals, otherwise },
                Request::ReceiveSignal {
                    signals: s,
                    otherwise: o,
                },
            ) => { signals.equals(s) && *otherwise == *o }
            (
                Request::Start { process, scalars },
                Request::Start {
                    process: p,
                    scalars: s,
                },
            ) => { *process == *p && scalars.equals(s) }
            (Request::Put { bytes }, Request::Put { bytes: b }) => bytes.equals(b),
            (Request::Get, Request::Get) => true,
            (Request::End { how }, Request::End { how: h }) => *how == *h,
            _ => false,
        }
    }
}
