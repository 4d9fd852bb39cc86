// What a worker knows of a process that it took.
ghost use Rattle.std.specs.Prelude.{◌≡◌, IfOk};
ghost use Rattle.code_types.specs.declared.code.Code.{Code};
ghost use Rattle.worker_pool.specs.Logs.{AfterNoting, IsCurrent, MayNote, NotesAnswer, answer_at_once};

use chill_base::{Item, List, Memory, Scalars};
use code_guard::Guarded;
use code_machine::Machine;
use kernel_base::{Answer, Event, Events};
use kernel_core::New;
use serial_run::{RunRefusal, start};
use std::alloc::Global;

/// A process that a worker took: how it was started, those of its events that the worker saw, and its machine.
#[derive(Drop)]
pub struct Log {
    pub instance: u32,
    pub process: u32,
    pub scalars: Scalars,
    pub events: Events,
    pub machine: Machine,
}

/// The logs of a run.
pub type Logs = List<Log>;

/// Whether a machine takes an answer.
#[derive(Clone, Copy, PartialEq, Eq)]
pub enum Fit {
    Fits,
    Misfit,
}

/// The log of a process that was started, before its first event.
pub fn start_log(alloc: Global, guarded: &Guarded, new: New) -> Result<Log, RunRefusal>
    ensures { IfOk result (IsCurrent guarded.now) }
{
    let process = new.process;
    let scalars = new.scalars.copy()?;
    let runner = start(alloc, guarded, new)?;
    Ok(Log {
        instance: runner.instance,
        process,
        scalars,
        events: Events::new(alloc),
        machine: runner.machine,
    })
}

// Notes an event that brings an answer, and hands the answer over. Where the machine doesn't take it the log is as it was.
fn note_answer(log: &mut Log, event: Event, answer: Answer) -> Result<Fit, Memory>
    ensures { IfOk result (NotesAnswer log.old log.new event answer) }
{
    if !log.machine.can_answer(&answer) {
        return Ok(Fit::Misfit);
    }
    log.events.push(event)?;
    log.machine.answer(answer);
    Ok(Fit::Fits)
}

/// Notes the answer for which a process waited, and hands it over. Where the machine doesn't take it the log is as it was.
pub fn go_on(log: &mut Log, answer: Answer) -> Result<Fit, Memory>
    ensures { IfOk result (λ fit. (code : Code) → IsCurrent code log.old → IsCurrent code log.new) }
{
    let event = Event::Goes {
        who: log.instance,
        answer: answer.copy()?,
    };
    note_answer(log, event, answer)
}

/// Notes the event of a burst, and hands over the answer where one came at once. Where the machine doesn't take it the log is as it
/// was.
pub fn note(log: &mut Log, event: Event) -> Result<Fit, Memory>
    ensures { IfOk result (λ fit. (code : Code) → MayNote code log.old event → AfterNoting code fit log.new) }
{
    match at_once(&event)? {
        Some(answer) => note_answer(log, event, answer),
        None => {
            log.events.push(event)?;
            Ok(Fit::Fits)
        }
    }
}

// The answer that came with an event, where it came at once.
fn at_once(event: &Event) -> Result<Option<Answer>, Memory>
    ensures { IfOk result (λ answer. answer ≡ answer_at_once event.now) }
{
    match event {
        Event::Did { answer, .. } => Ok(Some(answer.copy()?)),
        Event::Waits { .. } | Event::Goes { .. } | Event::Runs { .. } => Ok(None),
    }
}
