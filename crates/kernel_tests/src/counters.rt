// Processes that raise the shared INT a thousand times each, in several schedules.
use crate::stage::{Stage, Step, opened, play};
use crate::tables::{Asked, Given};
use chill_base::Scalars;
use kernel_base::{Answer, Event, Request};
use kernel_core::Reply;
use std::alloc::Global;
use std::process::Abort;
use std::test::Fail;

/// What a process does in one turn of its loop.
#[derive(Clone, Copy)]
enum Act {
    Enter,
    Read,
    /// To write one more than was read.
    Raise,
    Leave,
}

const IN_A_REGION: &[Act] = &[Act::Enter, Act::Read, Act::Raise, Act::Leave];

const WITHOUT_A_REGION: &[Act] = &[Act::Read, Act::Raise];

/// A process in its loop.
#[derive(Drop)]
struct Worker {
    who: u32,
    acts: &'static [Act],
    /// The next of its acts.
    at: usize,
    /// The turns that are left.
    turns: u32,
    waits: bool,
    read: i64,
}

/// How often the first process acts, and then the second, and so on by turns.
type Schedule = &'static [(u32, u32)];

fn first(scalars: &Scalars) -> i64 {
    match scalars.as_slice() {
        [number, ..] => *number,
        [] => 0,
    }
}

impl Worker {
    fn new(who: u32, acts: &'static [Act]) -> Worker {
        Worker {
            who,
            acts,
            at: 0,
            turns: 1000,
            waits: false,
            read: 0,
        }
    }

    // What it asks next.
    fn asked(&self) -> Asked {
        match self.acts.get(self.at) {
            Some(Act::Enter) => Asked::Enter(0),
            Some(Act::Read) => Asked::Read,
            Some(Act::Raise) => Asked::Write(self.read.saturating_add(1)),
            _ => Asked::Leave(0),
        }
    }

    // Its next act is behind it.
    fn goes_on(&mut self) {
        self.waits = false;
        self.at = self.at.saturating_add(1);
        if self.at >= self.acts.len() {
            self.at = 0;
            self.turns = self.turns.saturating_sub(1);
        }
    }

    // It makes its next act, or fetches the answer that it waits for.
    fn acts(&mut self, stage: &mut Stage) -> Result<(), Fail> {
        if self.waits {
            if stage.kernel.fetch(self.who).is_some() {
                self.goes_on();
            }
            return Ok(());
        }
        if self.turns == 0 {
            return Ok(());
        }
        match stage.commit(self.who, 0, &self.asked())? {
            Reply::Now(answer) => {
                if let Answer::Value(scalars) = &answer {
                    self.read = first(scalars);
                }
                self.goes_on();
                Ok(())
            }
            Reply::Later => {
                self.waits = true;
                Ok(())
            }
            _ => Err(Fail::from("a process in its loop may ask")),
        }
    }
}

// Both processes act by the schedule, so often from its start.
fn act_by(
    stage: &mut Stage,
    pair: &mut (Worker, Worker),
    schedule: Schedule,
    times: u32,
) -> Result<(), Fail> {
    for _ in 0..times {
        for (first, second) in schedule {
            for _ in 0..*first {
                pair.0.acts(stage)?;
            }
            for _ in 0..*second {
                pair.1.acts(stage)?;
            }
        }
    }
    Ok(())
}

/// The value that the writes of a journal leave in the shared INT; none where a read gives another.
fn folded(events: &[Event]) -> Option<i64> {
    let mut value = 0;
    for event in events {
        match event {
            Event::Did {
                request: Request::Write { scalars, .. },
                ..
            } => value = first(scalars),
            Event::Did {
                request: Request::Read { .. },
                answer: Answer::Value(scalars),
                ..
            } => {
                if first(scalars) != value {
                    return None;
                }
            }
            _ => (),
        }
    }
    Some(value)
}

const STARTS: &[Step] = &[
    Step::Did(1, Asked::Start(1, &[]), Given::Instance(2), None),
    Step::Did(1, Asked::Start(1, &[]), Given::Instance(3), None),
];

// Both processes are started and make all their turns.
fn count(
    rt: &impl Abort,
    stage: &mut Stage,
    acts: &'static [Act],
    schedule: Schedule,
    times: u32,
) -> Result<(), Fail> {
    play(rt, stage, STARTS)?;
    let mut pair = (Worker::new(2, acts), Worker::new(3, acts));
    act_by(stage, &mut pair, schedule, times)?;
    assert!(rt;
        pair.0.turns == 0 && pair.1.turns == 0,
        "turns that are left"
    );
    Ok(())
}

/// What the counter comes to where two processes raise it in their loops by this schedule.
fn counted(
    rt: &impl Abort,
    alloc: Global,
    acts: &'static [Act],
    schedule: Schedule,
    times: u32,
) -> Result<Option<i64>, Fail> {
    let mut stage = opened(alloc, 10_000_000)?;
    let counted = count(rt, &mut stage, acts, schedule, times);
    let events = stage.close();
    counted?;
    Ok(folded(events.as_slice()))
}

const BY_TURNS: Schedule = &[(1, 1)];

const ONE_BEHIND_THE_OTHER: Schedule = &[(10_000, 10_000)];

#[test]
fn a_counter_in_a_region_comes_to_the_sum(rt: HostRuntime) -> Result<(), Fail> {
    let alloc = rt.alloc();
    assert_eq!(rt;
        counted(&rt, alloc, IN_A_REGION, BY_TURNS, 10_000)?,
        Some(2000)
    );
    assert_eq!(rt;
        counted(&rt, alloc, IN_A_REGION, ONE_BEHIND_THE_OTHER, 1)?,
        Some(2000)
    );
    Ok(())
}

// Both read, and then both write the same.
#[test]
fn a_counter_without_a_region_loses_half_by_turns(rt: HostRuntime) -> Result<(), Fail> {
    let alloc = rt.alloc();
    assert_eq!(rt;
        counted(&rt, alloc, WITHOUT_A_REGION, BY_TURNS, 2000)?,
        Some(1000)
    );
    Ok(())
}

// The first reads 0; the second makes all turns but one; the first writes 1, which the second reads; the first makes its
// other turns; the second writes 2.
const LOSES_MOST: Schedule = &[(1, 1998), (1, 1), (1998, 1)];

#[test]
fn a_counter_without_a_region_may_come_to_two(rt: HostRuntime) -> Result<(), Fail> {
    let alloc = rt.alloc();
    assert_eq!(rt;
        counted(&rt, alloc, WITHOUT_A_REGION, LOSES_MOST, 1)?,
        Some(2)
    );
    Ok(())
}

#[test]
fn a_counter_without_a_region_may_lose_nothing(rt: HostRuntime) -> Result<(), Fail> {
    let alloc = rt.alloc();
    assert_eq!(rt;
        counted(&rt, alloc, WITHOUT_A_REGION, ONE_BEHIND_THE_OTHER, 1)?,
        Some(2000)
    );
    Ok(())
}
