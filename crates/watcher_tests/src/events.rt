// A journal of one event of each kind and one more.
use chill_base::{List, Memory, Text};
use kernel_base::{Answer, Event, Events, Request};
use std::alloc::Global;

/// Instance 1 enters region 0, instance 2 waits for region 1, goes on and runs, and instance 1 puts no bytes.
pub fn journal(alloc: Global) -> Result<Events, Memory> {
    let mut events = List::new(alloc);
    events.push(enters(1, 0))?;
    events.push(waits_to_enter(2, 1))?;
    events.push(Event::Goes {
        who: 2,
        answer: Answer::Done,
    })?;
    events.push(Event::Runs { who: 2, ticks: 256 })?;
    let bytes = Text::new(alloc);
    events.push(did(1, Request::Put { bytes }))?;
    Ok(events)
}

fn did(who: u32, request: Request) -> Event {
    Event::Did {
        who,
        ticks: 0,
        request,
        answer: Answer::Done,
        refill: None,
    }
}

pub fn enters(who: u32, region: u32) -> Event {
    did(who, Request::Enter { region })
}

pub fn waits_to_enter(who: u32, region: u32) -> Event {
    Event::Waits {
        who,
        ticks: 0,
        request: Request::Enter { region },
    }
}
