// Small codes, and the journals of their runs.
use crate::stage::Noted::{Did, Goes, Runs, Waits};
use crate::stage::{Noted, Scene, is_none, is_run, misfits, shows, stops};
use code_types::Instr;
use code_types::Instr::{Again, Finish, Pop, Push, PutInt, PutLine, Read};
use kernel_base::Alternative;
use kernel_base::How::Normal;
use kernel_base::Over::{AllEnded, Spent, Still};
use played_turns::Asked::{Delay, End, Enter, Leave, Put, Start};
use played_turns::Given::{Done, Instance};
use std::test::Fail;

const PUTS: Scene = Scene {
    instrs: &[Push(7), PutInt, PutLine, Finish],
    firsts: &[0],
    units: 1000,
};

const PUT: &[Noted] = &[
    Did(1, Put("7"), Done),
    Did(1, Put("\n"), Done),
    Did(1, End(Normal), Done),
];

#[test]
fn a_process_puts_and_ends(rt: HostRuntime) -> Result<(), Fail> {
    shows(&rt, rt.alloc(), &PUTS, PUT, 1, AllEnded)
}

// It is delayed on an event that nobody continues.
const SLEEPS: Scene = Scene {
    instrs: &[Push(0), Push(0), Instr::Delay(1, 5), Finish],
    firsts: &[0],
    units: 1000,
};

const SLEPT: &[Noted] = &[Waits(
    1,
    Delay(
        &[Alternative {
            thing: 0,
            number: 0,
        }],
        5,
    ),
)];

#[test]
fn a_process_that_nobody_continues_stands_still(rt: HostRuntime) -> Result<(), Fail> {
    shows(&rt, rt.alloc(), &SLEEPS, SLEPT, 1, Still)
}

// Each note of 256 ticks has 257 units.
const LOOPS: Scene = Scene {
    instrs: &[Again(0)],
    firsts: &[0],
    units: 515,
};

const LOOPED: &[Noted] = &[Runs(1, 256), Runs(1, 256), Runs(1, 256)];

#[test]
fn an_endless_loop_spends_the_budget(rt: HostRuntime) -> Result<(), Fail> {
    shows(&rt, rt.alloc(), &LOOPS, LOOPED, 1, Spent)
}

// The first process starts the second one, and both put a number in the region.
const SHARES: Scene = Scene {
    instrs: &[
        Instr::Start(1, 0),
        Pop(1),
        Instr::Enter(0),
        Push(1),
        PutInt,
        Instr::Leave(0),
        Finish,
        Instr::Enter(0),
        Push(2),
        PutInt,
        Instr::Leave(0),
        Finish,
    ],
    firsts: &[0, 7],
    units: 1000,
};

// Each is answered at once, and keeps its turn up to its end.
const SHARED: &[Noted] = &[
    Did(1, Start(1, &[]), Instance(2)),
    Did(1, Enter(0), Done),
    Did(1, Put("1"), Done),
    Did(1, Leave(0), Done),
    Did(1, End(Normal), Done),
    Did(2, Enter(0), Done),
    Did(2, Put("2"), Done),
    Did(2, Leave(0), Done),
    Did(2, End(Normal), Done),
];

#[test]
fn two_processes_keep_their_turns_in_a_region(rt: HostRuntime) -> Result<(), Fail> {
    shows(&rt, rt.alloc(), &SHARES, SHARED, 2, AllEnded)
}

// Each of the nine events is a commit.
#[test]
fn a_run_is_stopped_behind_each_commit(rt: HostRuntime) -> Result<(), Fail> {
    stops(&rt, rt.alloc(), &SLEEPS, SLEPT, 1, Still)?;
    stops(&rt, rt.alloc(), &SHARES, SHARED, 9, AllEnded)
}

// The second process comes to the region while the first one is in it, which is no choice of the serial run.
const SHARED_THE_OTHER_WAY: &[Noted] = &[
    Did(1, Start(1, &[]), Instance(2)),
    Did(1, Enter(0), Done),
    Did(1, Put("1"), Done),
    Waits(2, Enter(0)),
    Did(1, Leave(0), Done),
    Goes(2, Done),
    Did(1, End(Normal), Done),
    Did(2, Put("2"), Done),
    Did(2, Leave(0), Done),
    Did(2, End(Normal), Done),
];

// The second one puts a number that its code doesn't put.
const PUT_WRONGLY: &[Noted] = &[
    Did(1, Start(1, &[]), Instance(2)),
    Did(2, Enter(0), Done),
    Did(2, Put("3"), Done),
];

// Both are in the region.
const SHARED_BY_BOTH: &[Noted] = &[
    Did(1, Start(1, &[]), Instance(2)),
    Did(2, Enter(0), Done),
    Did(1, Enter(0), Done),
];

#[test]
fn journals_are_runs_up_to_an_event_that_cannot_come(rt: HostRuntime) -> Result<(), Fail> {
    let alloc = rt.alloc();
    is_run(&rt, alloc, &SHARES, SHARED, Some(AllEnded))?;
    is_run(&rt, alloc, &SHARES, SHARED_THE_OTHER_WAY, Some(AllEnded))?;
    is_run(&rt, alloc, &SLEEPS, SLEPT, Some(Still))?;
    is_run(&rt, alloc, &LOOPS, LOOPED, Some(Spent))?;
    is_run(&rt, alloc, &PUTS, &[], None)?;
    is_none(&rt, alloc, &SHARES, PUT_WRONGLY, 2)?;
    is_none(&rt, alloc, &SHARES, SHARED_BY_BOTH, 2)
}

// There is no location.
const READS: Scene = Scene {
    instrs: &[Push(0), Read(0, 0, 1), Pop(1), Finish],
    firsts: &[0],
    units: 1000,
};

// There are two processes.
const STARTS: Scene = Scene {
    instrs: &[Instr::Start(2, 0), Pop(1), Finish, Finish, Finish],
    firsts: &[0, 3, 4],
    units: 1000,
};

#[test]
fn a_request_that_does_not_fit_is_a_misfit(rt: HostRuntime) -> Result<(), Fail> {
    assert!(rt; misfits(rt.alloc(), &READS)?);
    assert!(rt; misfits(rt.alloc(), &STARTS)?);
    assert!(rt; !misfits(rt.alloc(), &PUTS)?);
    Ok(())
}
