// What several processes do with a kernel, step by step, and what has to come of it.
ghost use Rattle.std.specs.Prelude.{◌≤◌};

use crate::facts::facts;
use crate::tables::{Asked, FIRST, Given, answer_of, request_of};
use chill_base::Item;
use kernel_base::{Answer, Event, Events, Over, Request};
use kernel_core::{Kernel, Reply};
use std::alloc::{AllocError, Global};
use std::process::Abort;
use std::test::Fail;

/// A step. All that the journal gets stands in steps, each event once and in their order.
#[derive(Drop)]
pub enum Step {
    /// A process commits a request, which is answered at once. The last is the sender whose value took the place of the
    /// one received.
    Did(u32, Asked, Given, Option<u32>),
    /// A process commits a request, which waits.
    Waits(u32, Asked),
    /// By the commit before, a process goes on with this answer.
    Goes(u32, Given),
    /// A process made 256 ticks.
    Runs(u32),
    /// A commit or a note of ticks comes to nothing, since the run is over.
    Over(u32, Asked),
    RunsOver(u32),
    /// A commit or a note of ticks comes to nothing, since the process may not ask.
    Stranger(u32, Asked),
    RunsStranger(u32),
    /// A process fetches its answer; it has none.
    Fetches(u32, Given),
    FetchesNone(u32),
    /// The next process that was started is taken: instance, process, arguments; there is none.
    Takes(u32, u32, &'static [i64]),
    TakesNone,
    /// So many are active.
    Actives(u32),
    /// The run is over in this way; it isn't over.
    Ends(Over),
    GoesOn,
}

/// A kernel, and how many of its events were told by steps. It is given up by `close`: a drop of the kernel, which is
/// never made, would have to be proved at each place.
pub struct Stage {
    pub kernel: Kernel,
    told: usize,
    alloc: Global,
}

/// The stage of a run with this budget.
pub fn opened(alloc: Global, units: u64) -> Result<Stage, Fail>
    requires least { 1 ≤ units }
    requires greatest { units ≤ 10000000 }
{
    let kernel = Kernel::new(alloc, facts(alloc, units)?)?;
    Ok(Stage {
        kernel,
        told: 0,
        alloc,
    })
}

// The event of a request that was answered at once.
fn event_did(
    alloc: Global,
    who: u32,
    asked: &Asked,
    given: &Given,
    refill: Option<u32>,
) -> Result<Event, AllocError> {
    Ok(Event::Did {
        who,
        ticks: 0,
        request: request_of(alloc, asked)?,
        answer: answer_of(alloc, given)?,
        refill,
    })
}

// The event of a request that waits.
fn event_waits(alloc: Global, who: u32, asked: &Asked) -> Result<Event, AllocError> {
    Ok(Event::Waits {
        who,
        ticks: 0,
        request: request_of(alloc, asked)?,
    })
}

// The event of one that goes on.
fn event_goes(alloc: Global, who: u32, given: &Given) -> Result<Event, AllocError> {
    Ok(Event::Goes {
        who,
        answer: answer_of(alloc, given)?,
    })
}

impl Stage {
    /// Gives up the kernel for its journal.
    pub fn close(self) -> Events {
        let Stage {
            kernel,
            told: _,
            alloc: _,
        } = self;
        kernel.into_events()
    }

    /// Whether each event was told.
    pub fn is_told(&self) -> bool {
        self.told == self.kernel.events().len()
    }

    /// Commits a request, with the room for it.
    pub fn commit(&mut self, who: u32, ticks: u32, asked: &Asked) -> Result<Reply, Fail> {
        let request = request_of(self.alloc, asked)?;
        self.kernel.room(who, &request)?;
        Ok(self.kernel.commit(who, ticks, request))
    }

    /// Notes 256 ticks, with the room for it.
    pub fn pause(&mut self, who: u32) -> Result<Reply, Fail> {
        self.kernel.room(who, &Request::Get)?;
        Ok(self.kernel.pause(who, 256))
    }

    // Whether the next event that no step told is this one, which is told then.
    fn tells(&mut self, event: &Event) -> bool {
        match self.kernel.events().get(self.told) {
            Some(next) => {
                let same = next.equals(event);
                self.told += 1;
                same
            }
            None => false,
        }
    }

    // Whether a commit is answered so.
    fn is_answered(&mut self, who: u32, asked: &Asked, given: &Given) -> Result<bool, Fail> {
        match self.commit(who, 0, asked)? {
            Reply::Now(answer) => Ok(answer.equals(&answer_of(self.alloc, given)?)),
            _ => Ok(false),
        }
    }

    // Whether a commit is answered so, and the journal tells it.
    fn does(
        &mut self,
        who: u32,
        asked: &Asked,
        given: &Given,
        refill: Option<u32>,
    ) -> Result<bool, Fail> {
        if !self.is_told() || !self.is_answered(who, asked, given)? {
            return Ok(false);
        }
        let event = event_did(self.alloc, who, asked, given, refill)?;
        Ok(self.tells(&event))
    }

    // Whether a commit waits, and the journal tells it.
    fn waits(&mut self, who: u32, asked: &Asked) -> Result<bool, Fail> {
        if !self.is_told() || !matches!(self.commit(who, 0, asked)?, Reply::Later) {
            return Ok(false);
        }
        let event = event_waits(self.alloc, who, asked)?;
        Ok(self.tells(&event))
    }

    // Whether the journal tells that a process goes on.
    fn goes(&mut self, who: u32, given: &Given) -> Result<bool, Fail> {
        let event = event_goes(self.alloc, who, given)?;
        Ok(self.tells(&event))
    }

    // Whether 256 ticks are noted, and the journal tells it.
    fn runs(&mut self, who: u32) -> Result<bool, Fail> {
        if !self.is_told() || !matches!(self.pause(who)?, Reply::Now(Answer::Done)) {
            return Ok(false);
        }
        Ok(self.tells(&Event::Runs { who, ticks: 256 }))
    }

    // Whether a process fetches this answer.
    fn fetches(&mut self, who: u32, given: &Given) -> Result<bool, Fail> {
        let wanted = answer_of(self.alloc, given)?;
        match self.kernel.fetch(who) {
            Some(answer) => Ok(answer.equals(&wanted)),
            None => Ok(false),
        }
    }

    // Whether this process is taken next.
    fn takes(&mut self, instance: u32, process: u32, scalars: &[i64]) -> bool {
        match self.kernel.take_new() {
            Some(new) => {
                new.instance == instance
                    && new.process == process
                    && new.scalars.as_slice() == scalars
            }
            None => false,
        }
    }

    /// Whether the step comes to what it tells.
    pub fn makes(&mut self, step: &Step) -> Result<bool, Fail> {
        match step {
            Step::Did(who, asked, given, refill) => self.does(*who, asked, given, *refill),
            Step::Waits(who, asked) => self.waits(*who, asked),
            Step::Goes(who, given) => self.goes(*who, given),
            Step::Runs(who) => self.runs(*who),
            Step::Over(who, asked) => Ok(matches!(self.commit(*who, 0, asked)?, Reply::Over)),
            Step::RunsOver(who) => Ok(matches!(self.pause(*who)?, Reply::Over)),
            Step::Stranger(who, asked) => Ok(matches!(
                self.commit(*who, 0, asked)?,
                Reply::Stranger
            )),
            Step::RunsStranger(who) => Ok(matches!(self.pause(*who)?, Reply::Stranger)),
            Step::Fetches(who, given) => self.fetches(*who, given),
            Step::FetchesNone(who) => Ok(self.kernel.fetch(*who).is_none()),
            Step::Takes(instance, process, scalars) => Ok(self.takes(*instance, *process, scalars)),
            Step::TakesNone => Ok(self.kernel.take_new().is_none()),
            Step::Actives(count) => Ok(self.kernel.actives() == *count),
            Step::Ends(over) => Ok(self.kernel.over() == Some(*over)),
            Step::GoesOn => Ok(self.kernel.over() == None),
        }
    }
}

/// Makes each step, all of which come to what they tell; and each event is told.
pub fn play(rt: &impl Abort, stage: &mut Stage, steps: &[Step]) -> Result<(), Fail> {
    for (i, step) in steps.iter().enumerate() {
        let holds = stage.makes(step)?;
        assert!(rt; holds, "step {i}");
    }
    assert!(rt; stage.is_told(), "events that no step tells");
    Ok(())
}

fn play_all(rt: &impl Abort, stage: &mut Stage, scene: &[&[Step]]) -> Result<(), Fail> {
    for steps in scene {
        play(rt, stage, steps)?;
    }
    Ok(())
}

/// Plays the parts of a scene in a new run with this budget.
pub fn shows_within(
    rt: &impl Abort,
    alloc: Global,
    units: u64,
    scene: &[&[Step]],
) -> Result<(), Fail>
    requires least { 1 ≤ units }
    requires greatest { units ≤ 10000000 }
{
    let mut stage = opened(alloc, units)?;
    let played = play_all(rt, &mut stage, scene);
    stage.close();
    played
}

/// Plays the parts of a scene in a new run with the greatest budget.
pub fn shows(rt: &impl Abort, alloc: Global, scene: &[&[Step]]) -> Result<(), Fail> {
    shows_within(rt, alloc, 10_000_000, scene)
}

const WRONG: &[Step] = &[
    Step::Did(1, Asked::Continue(0), Given::Chose(Some(1)), None),
    Step::Did(1, Asked::Continue(0), Given::Chose(None), Some(1)),
    Step::Did(1, Asked::Delay(FIRST, 0), Given::Done, None),
    Step::Waits(1, Asked::Continue(0)),
    Step::Goes(1, Given::Done),
    Step::Runs(2),
    Step::Over(1, Asked::Get),
    Step::Stranger(1, Asked::Get),
    Step::RunsOver(1),
    Step::RunsStranger(1),
    Step::Fetches(1, Given::Done),
    Step::Takes(1, 0, &[5]),
    Step::TakesNone,
    Step::Actives(0),
    Step::Ends(Over::Still),
];

// Whether the step holds as the first of a run.
fn holds_first(alloc: Global, step: &Step) -> Result<bool, Fail> {
    let mut stage = opened(alloc, 1000)?;
    let holds = stage.makes(step);
    stage.close();
    holds
}

#[test]
fn a_wrong_step_does_not_hold(rt: HostRuntime) -> Result<(), Fail> {
    for (i, step) in WRONG.iter().enumerate() {
        let holds = holds_first(rt.alloc(), step)?;
        assert!(rt; !holds, "step {i}");
    }
    Ok(())
}
