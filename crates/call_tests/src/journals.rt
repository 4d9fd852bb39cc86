// The journal of a run that a call hands back.
use crate::calls::call;
use crate::ports::{NONE, Ports, text_of};
use chill_base::{Item, Memory};
use kernel_base::{Answer, Event, Events, How, Request};
use outside_ports::OpenGate;
use std::alloc::Global;
use std::test::Fail;

const TWO_NUMBERS: &str = "M: MODULE PUT_INT(1 + 2); PUT_INT(40); END M;";

// The event of a request that the outermost process made.
fn done(request: Request) -> Event {
    Event::Did {
        who: 1,
        ticks: 0,
        request,
        answer: Answer::Done,
        refill: None,
    }
}

fn put(alloc: Global, bytes: &[u8]) -> Result<Event, Memory> {
    Ok(done(Request::Put {
        bytes: text_of(alloc, bytes)?,
    }))
}

// The journal of the two numbers.
fn wanted(alloc: Global) -> Result<Events, Memory> {
    let mut events = Events::new(alloc);
    events.push(put(alloc, b"3")?)?;
    events.push(put(alloc, b"40")?)?;
    events.push(done(Request::End { how: How::Normal }))?;
    Ok(events)
}

#[test]
fn the_journal_of_a_run(rt: HostRuntime) -> Result<(), Fail> {
    let alloc = rt.alloc();
    for line in ["run f --workers 1", "run f --workers 4"] {
        let mut ports = Ports::new(alloc, TWO_NUMBERS, b"", &NONE)?;
        let mut watchers = Vec::new(alloc);
        let answered = call(&rt, alloc, line, &mut ports, &OpenGate, &mut watchers)?;
        assert_eq!(rt; answered.status, 0, "{line}");
        assert!(rt; answered.events.equals(&wanted(alloc)?), "{line}");
    }
    Ok(())
}
