// The most that may be live, and the ends of a run.
use crate::stage::Step::{Did, Ends, Fetches, Goes, GoesOn, Over, Runs, RunsOver, Waits};
use crate::stage::{Stage, Step, opened, play, shows_within};
use crate::tables::Asked::{
    Continue, Delay, End, Enter, Get, Put, Read, ReceiveBuffer, SendBuffer, Start, Write,
};
use crate::tables::Given::{Chose, Done, Fail, Got, Handed, Instance, Stored, Value, Woken};
use crate::tables::{BOTH, FIRST, SECOND};
use kernel_base::Exc::Spacefail;
use kernel_base::How::Normal;
use kernel_base::Over::{AllEnded, Spent, Still};
use kernel_core::Reply;
use std::process::Abort;
use std::test::Fail as Failure;

// Instances 1 to 1000 are live.
fn start_a_thousand(rt: &impl Abort, stage: &mut Stage) -> Result<(), Failure> {
    for instance in 2..1001 {
        let start = Did(1, Start(1, &[]), Instance(instance), None);
        assert!(rt; stage.makes(&start)?, "instance {instance}");
    }
    Ok(())
}

// All but instance 1 are delayed.
fn delay_all(rt: &impl Abort, stage: &mut Stage) -> Result<(), Failure> {
    for instance in 2..1001 {
        let delay = Waits(instance, Delay(FIRST, 0));
        assert!(rt; stage.makes(&delay)?, "instance {instance}");
    }
    Ok(())
}

const NO_ROOM: &[Step] = &[
    Did(1, Start(1, &[]), Fail(Spacefail), None),
    Did(1, Put("999"), Done, None),
];

const ALL_DELAYED: &[Step] = &[GoesOn, Did(1, End(Normal), Done, None), Ends(Still)];

fn live_and_no_more(rt: &impl Abort, stage: &mut Stage) -> Result<(), Failure> {
    start_a_thousand(rt, stage)?;
    play(rt, stage, NO_ROOM)?;
    delay_all(rt, stage)?;
    play(rt, stage, ALL_DELAYED)
}

#[test]
fn a_thousand_processes_are_live_and_no_more(rt: HostRuntime) -> Result<(), Failure> {
    let mut stage = opened(rt.alloc(), 10_000_000)?;
    let played = live_and_no_more(&rt, &mut stage);
    stage.close();
    played
}

const ROOM_AGAIN: &[Step] = &[
    Did(1, Start(1, &[]), Fail(Spacefail), None),
    Did(2, End(Normal), Done, None),
    Did(1, Start(1, &[]), Instance(1001), None),
    Did(1, Start(1, &[]), Fail(Spacefail), None),
];

fn ends_and_starts(rt: &impl Abort, stage: &mut Stage) -> Result<(), Failure> {
    start_a_thousand(rt, stage)?;
    play(rt, stage, ROOM_AGAIN)
}

#[test]
fn an_end_makes_room_for_a_process_of_a_new_number(rt: HostRuntime) -> Result<(), Failure> {
    let mut stage = opened(rt.alloc(), 10_000_000)?;
    let played = ends_and_starts(&rt, &mut stage);
    stage.close();
    played
}

// Twice 257 units.
const TICKS: &[Step] = &[
    Runs(1),
    GoesOn,
    Runs(1),
    Ends(Spent),
    Over(1, Get),
    Over(2, Get),
    RunsOver(1),
];

#[test]
fn ticks_spend_the_budget(rt: HostRuntime) -> Result<(), Failure> {
    shows_within(&rt, rt.alloc(), 500, &[TICKS])
}

// 3, 2, 4, 2 and 2 units.
const SCALARS: &[Step] = &[
    Did(1, Start(1, &[7, 8]), Instance(2), None),
    Did(1, SendBuffer(0, &[10], 0), Stored, None),
    Did(1, ReceiveBuffer(BOTH, false), Got(0, 1, &[10], 1), None),
    Did(1, Write(5), Done, None),
    Did(1, Read, Value(5), None),
];

// 1, 2, 3, 1, 1 and 2 units.
const BYTES: &[Step] = &[
    Did(1, Put("1234567"), Done, None),
    Did(1, Put("12345678"), Done, None),
    Waits(2, Delay(BOTH, 0)),
    Did(1, Continue(0), Chose(Some(2)), None),
    Goes(2, Woken(0, 1)),
    Did(1, Get, Value(12), None),
    GoesOn,
];

const LAST_UNIT: &[Step] = &[Did(1, Enter(0), Done, None), Ends(Spent), Over(1, Get)];

#[test]
fn scalars_alternatives_and_bytes_spend_the_budget(rt: HostRuntime) -> Result<(), Failure> {
    shows_within(&rt, rt.alloc(), 24, &[SCALARS, BYTES, LAST_UNIT])
}

// 1, 2, 3 and 3 units: the budget is reached before the receiver goes on, which it does all the same.
const SPENT_BY_A_SEND: &[Step] = &[
    Did(1, Start(1, &[]), Instance(2), None),
    Waits(1, ReceiveBuffer(SECOND, false)),
    GoesOn,
    Did(2, SendBuffer(1, &[7, 8], 0), Handed(1), None),
    Goes(1, Got(0, 1, &[7, 8], 2)),
    Ends(Spent),
    Fetches(1, Got(0, 1, &[7, 8], 2)),
    Over(1, Get),
];

#[test]
fn who_is_chosen_goes_on_in_a_spent_run(rt: HostRuntime) -> Result<(), Failure> {
    shows_within(&rt, rt.alloc(), 6, &[SPENT_BY_A_SEND])
}

// Whether a number is read behind so many ticks.
fn gets_behind(stage: &mut Stage, ticks: u32) -> Result<bool, Failure> {
    Ok(matches!(stage.commit(1, ticks, &Get)?, Reply::Now(_)))
}

#[test]
fn ticks_before_a_request_spend_the_budget(rt: HostRuntime) -> Result<(), Failure> {
    // 1, 300 and 1 for the number that is read.
    let mut stage = opened(rt.alloc(), 302)?;
    let gets = gets_behind(&mut stage, 300);
    let over = stage.kernel.over();
    stage.close();
    assert!(rt; gets?);
    assert!(rt; over == Some(Spent));
    Ok(())
}

const ENDED: &[Step] = &[Did(1, End(Normal), Done, None), Ends(AllEnded)];

const ENDED_AND_SPENT: &[Step] = &[Did(1, End(Normal), Done, None), Ends(Spent)];

const STILL: &[Step] = &[Waits(1, Delay(FIRST, 0)), Ends(Still)];

const STILL_AND_SPENT: &[Step] = &[Waits(1, Delay(FIRST, 0)), Ends(Spent)];

#[test]
fn a_run_whose_processes_ended_is_all_ended(rt: HostRuntime) -> Result<(), Failure> {
    shows_within(&rt, rt.alloc(), 2, &[ENDED])
}

#[test]
fn a_run_that_ended_with_its_budget_is_spent(rt: HostRuntime) -> Result<(), Failure> {
    shows_within(&rt, rt.alloc(), 1, &[ENDED_AND_SPENT])
}

#[test]
fn a_run_that_is_still_with_units_left_is_still(rt: HostRuntime) -> Result<(), Failure> {
    shows_within(&rt, rt.alloc(), 3, &[STILL])
}

#[test]
fn a_run_that_is_still_with_its_budget_is_spent(rt: HostRuntime) -> Result<(), Failure> {
    shows_within(&rt, rt.alloc(), 2, &[STILL_AND_SPENT])
}

#[test]
fn the_journal_and_the_facts_are_handed_out(rt: HostRuntime) -> Result<(), Failure> {
    let mut stage = opened(rt.alloc(), 500)?;
    let played = play(&rt, &mut stage, ENDED);
    stage.kernel.is_run();
    let units = stage.kernel.facts().units;
    let events = stage.close();
    assert_eq!(rt; units, 500);
    assert_eq!(rt; events.len(), 1);
    played
}
