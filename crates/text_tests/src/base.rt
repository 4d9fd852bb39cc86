// Units of events, requests that fit, and copies, with ample memory.
use chill_base::{Bits, Item, List, Scalars, Text};
use kernel_base::{
    Alternative, Alternatives, Answer, Event, Facts, Place, Request, Value, event_units, fits,
};
use std::alloc::{AllocError, Global};
use std::test::Fail;

fn did(request: Request, answer: Answer, ticks: u32) -> Event {
    Event::Did {
        who: 1,
        ticks,
        request,
        answer,
        refill: None,
    }
}

fn scalars(alloc: Global, numbers: &[i64]) -> Result<Scalars, AllocError> {
    Ok(List::from_vec(numbers.to_vec(alloc)?))
}

fn text(alloc: Global, bytes: &[u8]) -> Result<Text, AllocError> {
    Ok(List::from_vec(bytes.to_vec(alloc)?))
}

fn alternatives(alloc: Global, things: &[u32]) -> Result<Alternatives, AllocError> {
    let mut all = Vec::new(alloc);
    for thing in things {
        all.push(Alternative {
            thing: *thing,
            number: 0,
        })?;
    }
    Ok(List::from_vec(all))
}

fn write(
    alloc: Global,
    location: u32,
    first: u32,
    count: u32,
    numbers: &[i64],
) -> Result<Request, AllocError> {
    Ok(Request::Write {
        place: Place {
            location,
            first,
            count,
        },
        scalars: scalars(alloc, numbers)?,
    })
}

#[test]
fn units_of_each_kind_of_event(rt: HostRuntime) -> Result<(), Fail> {
    let alloc = rt.alloc();
    let place = Place {
        location: 0,
        first: 0,
        count: 2,
    };
    let table = vec![in alloc;
        (
            did(
                Request::Read { place },
                Answer::Value(scalars(alloc, &[7, 8])?),
                3
            ),
            6
        ),
        (did(write(alloc, 0, 0, 2, &[1, 2])?, Answer::Done, 0), 3),
        (
            did(
                Request::Start {
                    process: 1,
                    scalars: scalars(alloc, &[4])?
                },
                Answer::Instance(2),
                1
            ),
            3
        ),
        (
            did(
                Request::Put {
                    bytes: text(alloc, b"seventeen letters")?
                },
                Answer::Done,
                0
            ),
            3
        ),
        (
            did(
                Request::Put {
                    bytes: text(alloc, b"seven..")?
                },
                Answer::Done,
                0
            ),
            1
        ),
        (
            Event::Waits {
                who: 1,
                ticks: 2,
                request: Request::Delay {
                    events: alternatives(alloc, &[0, 1])?,
                    priority: 0
                }
            },
            5
        ),
        (
            Event::Waits {
                who: 1,
                ticks: 0,
                request: Request::ReceiveSignal {
                    signals: alternatives(alloc, &[0, 1, 2])?,
                    otherwise: false
                }
            },
            4
        ),
        (
            Event::Goes {
                who: 1,
                answer: Answer::Got {
                    alternative: 0,
                    send: 9,
                    scalars: scalars(alloc, &[1, 2, 3, 4])?,
                    by: 2
                }
            },
            5
        ),
        (Event::Runs { who: 1, ticks: 256 }, 257),
    ]?;
    for (i, (event, units)) in table.iter().enumerate() {
        assert_eq!(rt; event_units(event), *units, "at {i}");
    }
    Ok(())
}

fn read(location: u32, first: u32, count: u32) -> Request {
    Request::Read {
        place: Place {
            location,
            first,
            count,
        },
    }
}

fn bits(start: u32, end: u32, signed: bool) -> Bits {
    Bits {
        word: 0,
        start,
        end,
        signed,
    }
}

// An INT, a powerset of 5 members in 8 bits, and a structure of a number without sign and one with it.
fn facts(alloc: Global) -> Result<Facts, AllocError> {
    let members = Value::Members {
        size: 5,
        offsets: List::new(alloc),
    };
    let pair = Value::Parts(List::from_vec(vec![in alloc; Value::Number(0), Value::Number(0)]?));
    let layouts = vec![in alloc;
        List::from_vec(vec![in alloc; bits(0, 31, true)]?),
        List::from_vec(vec![in alloc; bits(0, 7, false)]?),
        List::from_vec(vec![in alloc; bits(0, 7, false), bits(8, 15, true)]?),
    ]?;
    Ok(Facts {
        store: List::from_vec(vec![in alloc; Value::Number(0), members, pair]?),
        layouts: List::from_vec(layouts),
        regions: 1,
        events: List::from_vec(vec![in alloc; None, Some(1)]?),
        buffers: List::from_vec(vec![in alloc; Some(0)]?),
        processes: 2,
        signals: List::from_vec(vec![in alloc; None, Some(1)]?),
        input: List::new(alloc),
        units: 1000,
    })
}

#[test]
fn requests_that_fit(rt: HostRuntime) -> Result<(), Fail> {
    let alloc = rt.alloc();
    let table = vec![in alloc;
        (read(0, 0, 1), true),
        (read(0, 1, 0), true),
        (read(0, 0, 2), false),
        (read(0, 1, 1), false),
        (read(2, 1, 1), true),
        (read(2, 1, 2), false),
        (read(3, 0, 0), false),
        (write(alloc, 0, 0, 1, &[2147483647])?, true),
        (write(alloc, 0, 0, 1, &[2147483648])?, false),
        (write(alloc, 0, 0, 1, &[-2147483648])?, true),
        (write(alloc, 0, 0, 1, &[-2147483649])?, false),
        (write(alloc, 0, 0, 1, &[1, 2])?, false),
        (write(alloc, 1, 0, 1, &[26])?, true),
        (write(alloc, 1, 0, 1, &[32])?, false),
        (write(alloc, 2, 0, 2, &[255, -128])?, true),
        (write(alloc, 2, 0, 2, &[-1, 0])?, false),
        (write(alloc, 2, 0, 2, &[0, 128])?, false),
        (Request::Enter { region: 0 }, true),
        (Request::Leave { region: 1 }, false),
        (
            Request::Delay {
                events: alternatives(alloc, &[1, 0])?,
                priority: 5
            },
            true
        ),
        (
            Request::Delay {
                events: alternatives(alloc, &[0, 2])?,
                priority: 5
            },
            false
        ),
        (Request::Continue { event: 2 }, false),
        (
            Request::SendBuffer {
                buffer: 0,
                scalars: scalars(alloc, &[7])?,
                priority: 0
            },
            true
        ),
        (
            Request::ReceiveBuffer {
                buffers: alternatives(alloc, &[1])?,
                otherwise: true
            },
            false
        ),
        (
            Request::SendSignal {
                signal: 2,
                scalars: scalars(alloc, &[])?,
                to: None,
                priority: 0
            },
            false
        ),
        (
            Request::ReceiveSignal {
                signals: alternatives(alloc, &[1])?,
                otherwise: false
            },
            true
        ),
        (
            Request::Start {
                process: 2,
                scalars: scalars(alloc, &[])?
            },
            false
        ),
        (Request::Get, true),
    ]?;
    let facts = facts(alloc)?;
    for (i, (request, fit)) in table.iter().enumerate() {
        assert_eq!(rt; fits(&facts, request), *fit, "at {i}");
    }
    Ok(())
}

#[test]
fn copies_with_ample_memory(rt: HostRuntime) -> Result<(), Fail> {
    let alloc = rt.alloc();
    let facts = facts(alloc)?;
    assert!(rt; facts.copy().is_ok_and(|copy| copy.equals(&facts)));
    let event = did(write(alloc, 0, 0, 1, &[5])?, Answer::Done, 3);
    assert!(rt; event.copy().is_ok_and(|copy| copy.equals(&event)));
    assert!(rt; !event.equals(&Event::Runs { who: 1, ticks: 3 }));
    Ok(())
}
