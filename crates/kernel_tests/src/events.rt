// DELAY, DELAY CASE and CONTINUE.
use crate::stage::Step::{
    Actives, Did, Ends, Fetches, FetchesNone, Goes, GoesOn, Over, Takes, TakesNone, Waits,
};
use crate::stage::{Step, shows};
use crate::tables::Asked::{
    Continue, Delay, End, Enter, Leave, Put, ReceiveSignal, SendSignal, Start,
};
use crate::tables::Given::{Chose, Done, Fail, Got, Handed, Instance, Stored, Woken};
use crate::tables::{BOTH, FIRST, SECOND};
use kernel_base::Exc::Delayfail;
use kernel_base::How::Normal;
use kernel_base::Over::{AllEnded, Still};
use std::test::Fail as Failure;

const SECOND_ALTERNATIVE: &[Step] = &[
    Did(1, Start(1, &[]), Instance(2), None),
    Takes(1, 0, &[]),
    Takes(2, 1, &[]),
    TakesNone,
    Waits(1, Delay(BOTH, 0)),
    FetchesNone(1),
    Actives(1),
    Did(2, Continue(1), Chose(Some(1)), None),
    Goes(1, Woken(1, 2)),
    Fetches(1, Woken(1, 2)),
    FetchesNone(1),
    Actives(2),
    GoesOn,
];

#[test]
fn one_that_is_delayed_on_two_events_is_woken_by_the_second(
    rt: HostRuntime,
) -> Result<(), Failure> {
    shows(&rt, rt.alloc(), &[SECOND_ALTERNATIVE])
}

const CONTINUE_BEFORE_DELAY: &[Step] = &[
    Did(1, Continue(0), Chose(None), None),
    Waits(1, Delay(FIRST, 0)),
    Actives(0),
    Ends(Still),
    Over(1, Continue(0)),
];

#[test]
fn a_continue_before_the_delay_is_lost(rt: HostRuntime) -> Result<(), Failure> {
    shows(&rt, rt.alloc(), &[CONTINUE_BEFORE_DELAY])
}

const FULL_EVENT: &[Step] = &[
    Did(1, Start(1, &[]), Instance(2), None),
    Did(1, Start(1, &[]), Instance(3), None),
    Waits(1, ReceiveSignal(FIRST, false)),
    Waits(2, Delay(SECOND, 0)),
    Did(3, Delay(SECOND, 0), Fail(Delayfail), None),
    Did(3, SendSignal(0, None, 0), Handed(1), None),
    Goes(1, Got(0, 1, &[], 3)),
    Fetches(1, Got(0, 1, &[], 3)),
    Did(3, End(Normal), Done, None),
    Did(1, Continue(1), Chose(Some(2)), None),
    Goes(2, Woken(0, 1)),
    Fetches(2, Woken(0, 1)),
    Did(1, Put("1"), Done, None),
    Did(1, End(Normal), Done, None),
    GoesOn,
    Did(2, End(Normal), Done, None),
    Ends(AllEnded),
];

#[test]
fn an_event_of_length_one_is_full_for_a_second(rt: HostRuntime) -> Result<(), Failure> {
    shows(&rt, rt.alloc(), &[FULL_EVENT])
}

const FULL_EVENT_AMONG_TWO: &[Step] = &[
    Did(1, Start(1, &[]), Instance(2), None),
    Waits(2, Delay(SECOND, 0)),
    Did(1, Delay(BOTH, 0), Fail(Delayfail), None),
    Did(1, Continue(1), Chose(Some(2)), None),
    Goes(2, Woken(0, 1)),
    // There is room again.
    Waits(1, Delay(BOTH, 0)),
    Fetches(2, Woken(0, 1)),
    Did(2, Delay(SECOND, 0), Fail(Delayfail), None),
    // The event without a length is never full.
    Waits(2, Delay(FIRST, 0)),
    Ends(Still),
];

#[test]
fn an_event_is_full_among_others(rt: HostRuntime) -> Result<(), Failure> {
    shows(&rt, rt.alloc(), &[FULL_EVENT_AMONG_TWO])
}

// Instances 2, 3 and 4 come into the region and are delayed there, the first without a priority. Instance 1 comes into
// the region behind each.
const TWO_PARKS: &[Step] = &[
    Did(1, Start(1, &[1, 0]), Instance(2), None),
    Waits(1, ReceiveSignal(FIRST, false)),
    Did(2, Enter(0), Done, None),
    Did(2, SendSignal(0, None, 0), Handed(1), None),
    Goes(1, Got(0, 1, &[], 2)),
    Fetches(1, Got(0, 1, &[], 2)),
    // It waits for the region, which the delay frees.
    Waits(1, Enter(0)),
    Waits(2, Delay(FIRST, 0)),
    Goes(1, Done),
    Fetches(1, Done),
    Did(1, Leave(0), Done, None),
];

const THREE_PARKS: &[Step] = &[
    Did(1, Start(1, &[2, 1]), Instance(3), None),
    Did(3, Enter(0), Done, None),
    Did(3, SendSignal(0, None, 0), Stored, None),
    Waits(3, Delay(FIRST, 5)),
    Did(1, ReceiveSignal(FIRST, false), Got(0, 2, &[], 3), None),
    Did(1, Enter(0), Done, None),
    Did(1, Leave(0), Done, None),
];

const FOUR_PARKS: &[Step] = &[
    Did(1, Start(1, &[3, 1]), Instance(4), None),
    Did(4, Enter(0), Done, None),
    Did(4, SendSignal(0, None, 0), Stored, None),
    Waits(4, Delay(FIRST, 5)),
    Did(1, ReceiveSignal(FIRST, false), Got(0, 3, &[], 4), None),
    Did(1, Enter(0), Done, None),
    Did(1, Leave(0), Done, None),
];

// Of those of priority 5 the one that came first.
const THREE_WAKES: &[Step] = &[
    Did(1, Enter(0), Done, None),
    Did(1, Continue(0), Chose(Some(3)), None),
    // It goes on once the region is free.
    FetchesNone(3),
    Actives(1),
    Did(1, Leave(0), Done, None),
    Goes(3, Woken(0, 1)),
    Fetches(3, Woken(0, 1)),
    // It occupies the region again.
    Waits(1, Enter(0)),
    Did(3, Leave(0), Done, None),
    Goes(1, Done),
    Fetches(1, Done),
    Did(1, Leave(0), Done, None),
    Did(3, Put("2"), Done, None),
    Did(3, End(Normal), Done, None),
];

const FOUR_WAKES: &[Step] = &[
    Did(1, Enter(0), Done, None),
    Did(1, Continue(0), Chose(Some(4)), None),
    Did(1, Leave(0), Done, None),
    Goes(4, Woken(0, 1)),
    Fetches(4, Woken(0, 1)),
    Did(4, Put("3"), Done, None),
    // Its end frees the region.
    Did(4, End(Normal), Done, None),
];

const TWO_WAKES: &[Step] = &[
    Did(1, Enter(0), Done, None),
    Did(1, Continue(0), Chose(Some(2)), None),
    Did(1, Leave(0), Done, None),
    Goes(2, Woken(0, 1)),
    Fetches(2, Woken(0, 1)),
    Did(1, Continue(0), Chose(None), None),
    Did(2, Put("1"), Done, None),
    Did(2, End(Normal), Done, None),
    Did(1, End(Normal), Done, None),
    Ends(AllEnded),
];

#[test]
fn the_highest_priority_is_woken_and_then_the_first_to_come(
    rt: HostRuntime,
) -> Result<(), Failure> {
    shows(
        &rt,
        rt.alloc(),
        &[
            TWO_PARKS,
            THREE_PARKS,
            FOUR_PARKS,
            THREE_WAKES,
            FOUR_WAKES,
            TWO_WAKES,
        ],
    )
}
