// ENTER and LEAVE, and the region that is freed by a wait.
use crate::stage::Step::{Did, Ends, Fetches, FetchesNone, Goes, Stranger, Waits};
use crate::stage::{Step, shows};
use crate::tables::Asked::{
    Delay, End, Enter, Leave, Put, Read, ReceiveSignal, SendSignal, Start, Write,
};
use crate::tables::FIRST;
use crate::tables::Given::{Done, Got, Handed, Instance, Value};
use kernel_base::How::Normal;
use kernel_base::Over::{AllEnded, Still};
use std::test::Fail as Failure;

// The shared counter, which instances 2 and 3 raise once each. Each tells instance 1 by a signal.
const COUNTER_STARTS: &[Step] = &[
    Did(1, Enter(0), Done, None),
    Did(1, Write(0), Done, None),
    Did(1, Leave(0), Done, None),
    Did(1, Start(1, &[]), Instance(2), None),
    Did(1, Start(1, &[]), Instance(3), None),
    Waits(1, ReceiveSignal(FIRST, false)),
];

const COUNTER_RISES: &[Step] = &[
    Did(2, Enter(0), Done, None),
    Waits(3, Enter(0)),
    Did(2, Read, Value(0), None),
    Did(2, Write(1), Done, None),
    FetchesNone(3),
    Did(2, Leave(0), Done, None),
    Goes(3, Done),
    Fetches(3, Done),
    Did(3, Read, Value(1), None),
    Did(3, Write(2), Done, None),
    Did(3, Leave(0), Done, None),
];

const COUNTER_IS_TOLD: &[Step] = &[
    Did(2, SendSignal(0, None, 0), Handed(1), None),
    Goes(1, Got(0, 1, &[], 2)),
    Did(2, End(Normal), Done, None),
    Fetches(1, Got(0, 1, &[], 2)),
    Waits(1, ReceiveSignal(FIRST, false)),
    Did(3, SendSignal(0, None, 0), Handed(1), None),
    Goes(1, Got(0, 2, &[], 3)),
    Fetches(1, Got(0, 2, &[], 3)),
    Did(1, Enter(0), Done, None),
    Did(1, Read, Value(2), None),
    Did(1, Leave(0), Done, None),
    Did(1, Put("2"), Done, None),
    Did(1, End(Normal), Done, None),
    Did(3, End(Normal), Done, None),
    Ends(AllEnded),
];

#[test]
fn a_shared_counter_in_a_region_loses_nothing(rt: HostRuntime) -> Result<(), Failure> {
    shows(
        &rt,
        rt.alloc(),
        &[COUNTER_STARTS, COUNTER_RISES, COUNTER_IS_TOLD],
    )
}

const LOCKED_LAST: &[Step] = &[
    Did(1, Start(1, &[]), Instance(2), None),
    Waits(1, ReceiveSignal(FIRST, false)),
    Did(2, Enter(1), Done, None),
    Did(2, SendSignal(0, None, 0), Handed(1), None),
    Goes(1, Got(0, 1, &[], 2)),
    Fetches(1, Got(0, 1, &[], 2)),
    Did(2, Enter(0), Done, None),
    Waits(2, Delay(FIRST, 0)),
    // Region 0 is freed, and region 1 isn't.
    Did(1, Enter(0), Done, None),
    Did(1, Leave(0), Done, None),
    Waits(1, Enter(1)),
    Ends(Still),
];

#[test]
fn a_delay_frees_only_the_region_that_was_locked_last(rt: HostRuntime) -> Result<(), Failure> {
    shows(&rt, rt.alloc(), &[LOCKED_LAST])
}

const WAITS_LONGEST: &[Step] = &[
    Did(1, Start(1, &[]), Instance(2), None),
    Did(1, Start(1, &[]), Instance(3), None),
    Did(1, Enter(0), Done, None),
    Waits(3, Enter(0)),
    Waits(2, Enter(0)),
    Did(1, Leave(0), Done, None),
    Goes(3, Done),
    Fetches(3, Done),
    FetchesNone(2),
    Did(3, End(Normal), Done, None),
    Goes(2, Done),
    Fetches(2, Done),
];

#[test]
fn a_region_goes_to_the_one_that_waits_longest(rt: HostRuntime) -> Result<(), Failure> {
    shows(&rt, rt.alloc(), &[WAITS_LONGEST])
}

const HELD_ONCE: &[Step] = &[
    Did(1, Start(1, &[]), Instance(2), None),
    Did(1, Enter(0), Done, None),
    // It occupies the region already.
    Did(1, Enter(0), Done, None),
    // It doesn't occupy the region.
    Did(2, Leave(0), Done, None),
    Waits(2, Enter(0)),
    Stranger(2, Leave(0)),
    Did(1, Leave(0), Done, None),
    Goes(2, Done),
    Did(1, Leave(0), Done, None),
    Waits(1, Enter(0)),
];

#[test]
fn a_region_is_freed_by_its_occupant_alone(rt: HostRuntime) -> Result<(), Failure> {
    shows(&rt, rt.alloc(), &[HELD_ONCE])
}
