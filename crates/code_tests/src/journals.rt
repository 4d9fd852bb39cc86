// Journals by hand, and the first event of each that isn't allowed.
ghost use Rattle.std.specs.Prelude.{All, IfOk};
ghost use Rattle.world_check.specs.Opening.{HasFewMembersEach};

use crate::tables::few_facts;
use chill_base::Memory;
use journal_check::allowed;
use kernel_base::Exc::{Empty, Extinct, Rangefail};
use kernel_base::How::Normal;
use kernel_base::{Alternative, Event, Facts};
use played_turns::Asked::{
    Continue, Delay, End, Enter, Get, ReceiveBuffer, ReceiveSignal, SendBuffer, SendSignal, Start,
};
use played_turns::Given::{Chose, Done, Fail, Got, Instance, Stored, Value};
use played_turns::{Asked, Given, answer_of, request_of};
use std::alloc::{AllocError, Global};
use std::process::Abort;
use std::test::Fail as Failure;

/// An event as a table can hold it: who, what is asked, and the answer. Nobody makes ticks.
#[derive(Drop)]
pub enum Row {
    /// The last is the sender whose value took the place of the one received.
    Did(u32, Asked, Given, Option<u32>),
    Waits(u32, Asked),
    Goes(u32, Given),
}

use Row::{Did, Goes, Waits};

/// A journal, and its first event that isn't allowed.
pub struct Journal(pub &'static [Row], pub Option<u32>);

const FIRST: &[Alternative] = &[Alternative {
    thing: 0,
    number: 0,
}];

const SECOND: &[Alternative] = &[Alternative {
    thing: 1,
    number: 0,
}];

const STARTS_2: Row = Did(1, Start(1, &[]), Instance(2), None);

const STARTS_3: Row = Did(1, Start(1, &[]), Instance(3), None);

const STARTS_4: Row = Did(1, Start(1, &[]), Instance(4), None);

const EVENTS: &[Journal] = &[
    // Nobody is continued, and then one delays, who can do nothing more.
    Journal(
        &[
            Did(1, Continue(0), Chose(None), None),
            Waits(1, Delay(FIRST, 0)),
            Did(1, Enter(0), Done, None),
        ],
        Some(2),
    ),
    // An event of length 1 is full.
    Journal(
        &[
            STARTS_2,
            Waits(2, Delay(SECOND, 0)),
            Waits(1, Delay(SECOND, 0)),
        ],
        Some(2),
    ),
    // Of those of priority 5 either may be chosen, and none of a lower one.
    Journal(
        &[
            STARTS_2,
            STARTS_3,
            STARTS_4,
            Waits(2, Delay(FIRST, 0)),
            Waits(3, Delay(FIRST, 5)),
            Waits(4, Delay(FIRST, 5)),
            Did(1, Continue(0), Chose(Some(3)), None),
        ],
        None,
    ),
    Journal(
        &[
            STARTS_2,
            STARTS_3,
            STARTS_4,
            Waits(2, Delay(FIRST, 0)),
            Waits(3, Delay(FIRST, 5)),
            Waits(4, Delay(FIRST, 5)),
            Did(1, Continue(0), Chose(Some(4)), None),
        ],
        None,
    ),
    Journal(
        &[
            STARTS_2,
            STARTS_3,
            STARTS_4,
            Waits(2, Delay(FIRST, 0)),
            Waits(3, Delay(FIRST, 5)),
            Waits(4, Delay(FIRST, 5)),
            Did(1, Continue(0), Chose(Some(2)), None),
        ],
        Some(6),
    ),
    // A delay frees the region that was locked last, and no other.
    Journal(
        &[
            STARTS_2,
            Did(2, Enter(0), Done, None),
            Did(2, Enter(1), Done, None),
            Waits(2, Delay(FIRST, 0)),
            Did(1, Enter(1), Done, None),
            Did(1, Enter(0), Done, None),
        ],
        Some(5),
    ),
];

const SENDS_10: Row = Did(1, SendBuffer(0, &[10], 0), Stored, None);

const SENDS_20: Row = Did(1, SendBuffer(0, &[20], 5), Stored, None);

const WAITS_30: Row = Waits(2, SendBuffer(0, &[30], 0));

const BUFFERS: &[Journal] = &[
    // 10, and 20 with a higher priority, are stored; instance 2, which waits to store 30, refills the buffer.
    Journal(
        &[
            SENDS_10,
            SENDS_20,
            STARTS_2,
            WAITS_30,
            Did(1, ReceiveBuffer(FIRST, false), Got(0, 2, &[20], 1), Some(2)),
            Did(1, ReceiveBuffer(FIRST, false), Got(0, 3, &[30], 2), None),
        ],
        None,
    ),
    // The sender of a refill has to be named.
    Journal(
        &[
            SENDS_10,
            SENDS_20,
            STARTS_2,
            WAITS_30,
            Did(1, ReceiveBuffer(FIRST, false), Got(0, 2, &[20], 1), None),
        ],
        Some(4),
    ),
    // The value of highest priority is received, and no other.
    Journal(
        &[
            SENDS_10,
            SENDS_20,
            STARTS_2,
            WAITS_30,
            Did(1, ReceiveBuffer(FIRST, false), Got(0, 1, &[10], 1), Some(2)),
        ],
        Some(4),
    ),
    // A buffer of length 0 hands over, once.
    Journal(
        &[
            STARTS_2,
            Waits(2, SendBuffer(1, &[7], 0)),
            Did(1, ReceiveBuffer(SECOND, false), Got(0, 1, &[7], 2), Some(2)),
            Goes(2, Stored),
            Did(1, ReceiveBuffer(SECOND, false), Got(0, 1, &[7], 2), Some(2)),
        ],
        Some(4),
    ),
];

const TO_NOBODY: Row = Did(1, SendSignal(0, &[], Some(0), 0), Fail(Empty), None);

const ENDS_2: Row = Did(2, End(Normal), Done, None);

const TO_ENDED: Row = Did(1, SendSignal(0, &[], Some(2), 0), Fail(Extinct), None);

const TO_ANY: Row = Did(1, SendSignal(0, &[], None, 0), Stored, None);

const SIGNALS: &[Journal] = &[
    // A signal to nobody and one to an instance that has ended are refused and draw no number; the next one is stored, and
    // received by its number.
    Journal(
        &[
            TO_NOBODY,
            STARTS_2,
            ENDS_2,
            TO_ENDED,
            TO_ANY,
            Did(1, ReceiveSignal(FIRST, true), Got(0, 1, &[], 1), None),
        ],
        None,
    ),
    Journal(
        &[
            TO_NOBODY,
            STARTS_2,
            ENDS_2,
            TO_ENDED,
            TO_ANY,
            Did(1, ReceiveSignal(FIRST, true), Got(0, 3, &[], 1), None),
        ],
        Some(5),
    ),
];

const NUMBERS: &[Journal] = &[Journal(
    &[
        Did(1, Get, Value(&[-12]), None),
        Did(1, Get, Fail(Rangefail), None),
        Did(1, Get, Fail(Empty), None),
        Did(1, Get, Fail(Rangefail), None),
    ],
    Some(3),
)];

// Two regions; an event without a length and one of length 1; buffers of length 2 and 0; a signal that any may receive.
fn facts(alloc: Global) -> Result<Facts, Memory>
    ensures { IfOk result (λ facts. All HasFewMembersEach facts.store) }
{
    let mut facts = few_facts(alloc);
    facts.regions = 2;
    facts.processes = 2;
    facts.events.push(None)?;
    facts.events.push(Some(1))?;
    facts.buffers.push(Some(2))?;
    facts.buffers.push(Some(0))?;
    facts.signals.push(None)?;
    facts.input.room().extend_from_slice(b"-12 99999999999")?;
    Ok(facts)
}

fn event_of(alloc: Global, row: &Row) -> Result<Event, AllocError> {
    Ok(match row {
        Did(who, asked, given, refill) => Event::Did {
            who: *who,
            ticks: 0,
            request: request_of(alloc, asked)?,
            answer: answer_of(alloc, given)?,
            refill: *refill,
        },
        Waits(who, asked) => Event::Waits {
            who: *who,
            ticks: 0,
            request: request_of(alloc, asked)?,
        },
        Goes(who, given) => Event::Goes {
            who: *who,
            answer: answer_of(alloc, given)?,
        },
    })
}

fn events_of(alloc: Global, rows: &[Row]) -> Result<Vec<Event>, AllocError> {
    let mut events = Vec::new(alloc);
    for row in rows {
        events.push(event_of(alloc, row)?)?;
    }
    Ok(events)
}

/// The first event of the journal that isn't allowed.
fn refused(rt: &impl Abort, alloc: Global, rows: &[Row]) -> Result<Option<u32>, Failure> {
    let facts = facts(alloc)?;
    let events = events_of(alloc, rows)?;
    assert!(rt; events.len() < 100);
    Ok(allowed(alloc, &facts, &events)?)
}

fn all_journals(rt: &impl Abort, alloc: Global, journals: &[Journal]) -> Result<(), Failure> {
    for (i, journal) in journals.iter().enumerate() {
        assert_eq!(rt; refused(rt, alloc, journal.0)?, journal.1, "journal {i}");
    }
    Ok(())
}

#[test]
fn events_choose_by_priority_and_free_a_region(rt: HostRuntime) -> Result<(), Failure> {
    all_journals(&rt, rt.alloc(), EVENTS)
}

#[test]
fn buffers_are_refilled_and_hand_over(rt: HostRuntime) -> Result<(), Failure> {
    all_journals(&rt, rt.alloc(), BUFFERS)
}

#[test]
fn a_refused_signal_draws_no_number(rt: HostRuntime) -> Result<(), Failure> {
    all_journals(&rt, rt.alloc(), SIGNALS)
}

#[test]
fn numbers_are_read(rt: HostRuntime) -> Result<(), Failure> {
    all_journals(&rt, rt.alloc(), NUMBERS)
}
