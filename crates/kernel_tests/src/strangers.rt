// Those that may not ask: nothing comes of it.
use crate::stage::Step::{
    Did, Ends, Fetches, Goes, GoesOn, Over, Runs, RunsStranger, Stranger, Takes, TakesNone, Waits,
};
use crate::stage::{Step, shows};
use crate::tables::Asked::{
    Continue, Delay, End, Enter, Get, Put, Read, ReceiveBuffer, SendBuffer, SendSignal, Start,
    Write,
};
use crate::tables::Given::{Chose, Done, Fail, Instance, Value, Woken};
use crate::tables::{FIRST, THIRD};
use kernel_base::Exc::{Empty, Rangefail};
use kernel_base::How::{Normal, Raised};
use kernel_base::Over::AllEnded;
use std::test::Fail as Failure;

const NOT_THERE: &[Step] = &[
    Stranger(0, Get),
    Stranger(2, Get),
    RunsStranger(2),
    Stranger(1, Enter(2)),
    Stranger(1, Continue(2)),
    Stranger(1, Delay(THIRD, 0)),
    Stranger(1, SendBuffer(3, &[1], 0)),
    Stranger(1, SendSignal(3, None, 0)),
    Stranger(1, Start(3, &[])),
    // Numbers of 32 bits, with their sign.
    Stranger(1, Write(2_147_483_648)),
    Stranger(1, Write(-2_147_483_649)),
    Did(1, Write(-2_147_483_648), Done, None),
    Did(1, Read, Value(-2_147_483_648), None),
    GoesOn,
];

#[test]
fn requests_for_what_is_not_there_change_nothing(rt: HostRuntime) -> Result<(), Failure> {
    shows(&rt, rt.alloc(), &[NOT_THERE])
}

const NOT_ACTIVE: &[Step] = &[
    Did(1, Start(1, &[]), Instance(2), None),
    Waits(2, Delay(FIRST, 0)),
    Stranger(2, Get),
    Did(1, Continue(0), Chose(Some(2)), None),
    Goes(2, Woken(0, 1)),
    // Its answer wasn't fetched.
    Stranger(2, Get),
    RunsStranger(2),
    Fetches(2, Woken(0, 1)),
    Runs(2),
    Did(2, End(Normal), Done, None),
    Stranger(2, Get),
];

#[test]
fn one_that_is_not_active_is_a_stranger(rt: HostRuntime) -> Result<(), Failure> {
    shows(&rt, rt.alloc(), &[NOT_ACTIVE])
}

const OVER: &[Step] = &[
    Did(1, Start(1, &[]), Instance(2), None),
    Did(1, End(Raised(Empty)), Done, None),
    GoesOn,
    Did(2, End(Normal), Done, None),
    Ends(AllEnded),
    Over(1, Get),
    Over(2, ReceiveBuffer(FIRST, true)),
    // It was never made.
    Over(9, Get),
];

#[test]
fn nothing_comes_behind_the_end_of_a_run(rt: HostRuntime) -> Result<(), Failure> {
    shows(&rt, rt.alloc(), &[OVER])
}

const TAKEN: &[Step] = &[
    Takes(1, 0, &[]),
    TakesNone,
    Did(1, Start(2, &[7, -1]), Instance(2), None),
    Did(1, Start(1, &[]), Instance(3), None),
    Takes(2, 2, &[7, -1]),
    Did(3, Start(1, &[5]), Instance(4), None),
    Takes(3, 1, &[]),
    Takes(4, 1, &[5]),
    TakesNone,
];

#[test]
fn processes_are_taken_in_the_order_of_their_starts(rt: HostRuntime) -> Result<(), Failure> {
    shows(&rt, rt.alloc(), &[TAKEN])
}

const INPUT: &[Step] = &[
    Did(1, Get, Value(12), None),
    Did(1, Get, Fail(Rangefail), None),
    Did(1, Get, Fail(Empty), None),
    Did(1, Put("12re"), Done, None),
    GoesOn,
];

#[test]
fn the_input_is_read_number_by_number(rt: HostRuntime) -> Result<(), Failure> {
    shows(&rt, rt.alloc(), &[INPUT])
}
