// One worker: it keeps the processes that it takes.
ghost use Rattle.std.specs.Prelude.{◌≡◌, ◌<◌, All, IfOk, IfSome, OnOk, vec_len};
ghost use Rattle.code_types.specs.declared.code.Code.{Code};
ghost use Rattle.machine_steps.specs.Views.{state_of};
ghost use Rattle.code_machine.specs.Running.{IsUp};
ghost use Rattle.worker_pool.specs.Logs.{IsCurrent, IsLog, MayNote};
ghost use Rattle.worker_pool.specs.Keeping.{HasLogs, IsReady, MayTake};
ghost use Rattle.worker_pool.specs.Nexts.{FitsLogs};

use crate::desk::Outcome;
use crate::log::{Fit, Log, go_on, note, start_log};
use crate::shared::{Next, Shared};
use chill_base::Memory;
use code_guard::Guarded;
use kernel_base::{Answer, Event};
use kernel_core::New;
use outside_ports::Gate;
use serial_run::RunRefusal;
use std::alloc::Global;
use std::collections::VecDeque;
use std::sync::Wait;

/// The logs of the processes that a worker took: of those that can go, in the order of their turns; of those that wait for an
/// answer; and of those that go no further.
#[derive(Drop)]
pub struct Worker {
    number: u32,
    ready: VecDeque<Log>,
    waiting: Vec<Log>,
    done: Vec<Log>,
    /// How many of them had gone on when the worker last looked for answers.
    looked: u64,
    /// How many had gone on at its last commit.
    went: u64,
}

/// What a turn of a worker came to.
#[derive(Clone, Copy, PartialEq, Eq)]
enum Turn {
    /// There are more to come.
    More,
    /// The run is over, or was given up.
    Over,
    /// Something didn't fit, so the run is to be given up.
    Misfit,
}

impl Worker {
    fn new(alloc: Global, number: u32) -> Worker
        ensures { (code : Code) → HasLogs code result }
    {
        Worker {
            number,
            ready: VecDeque::new(alloc),
            waiting: Vec::new(alloc),
            done: Vec::new(alloc),
            looked: 0,
            went: 0,
        }
    }
}

// Keeps a log whose process can go.
fn keep_ready(worker: &mut Worker, log: Log) -> Result<(), Memory>
    requires { IsUp (state_of log.machine).mode }
    ensures { OnOk result ((code : Code) → HasLogs code worker.old → IsCurrent code log → HasLogs code worker.new) }
{
    worker.ready.push_back(log)?;
    Ok(())
}

// Keeps a log whose process waits.
fn keep_waiting(worker: &mut Worker, log: Log) -> Result<(), Memory>
    ensures { OnOk result ((code : Code) → HasLogs code worker.old → IsCurrent code log → HasLogs code worker.new) }
{
    worker.waiting.push(log)?;
    Ok(())
}

// Keeps a log that goes no further.
fn keep_done(worker: &mut Worker, log: Log) -> Result<(), Memory>
    ensures { OnOk result ((code : Code) → HasLogs code worker.old → IsLog code log → HasLogs code worker.new) }
{
    worker.done.push(log)?;
    Ok(())
}

// Keeps a log whose process can go, waits, or has ended.
fn keep(worker: &mut Worker, log: Log, waits: bool) -> Result<(), Memory>
    ensures { OnOk result ((code : Code) → HasLogs code worker.old → IsCurrent code log → HasLogs code worker.new) }
{
    if log.machine.can_burst() {
        keep_ready(worker, log)
    } else if waits {
        keep_waiting(worker, log)
    } else {
        keep_done(worker, log)
    }
}

// Keeps a log that goes no further, at the end of a turn.
fn give_up(worker: &mut Worker, log: Log, turn: Turn) -> Result<Turn, Memory>
    ensures { OnOk result ((code : Code) → HasLogs code worker.old → IsLog code log → HasLogs code worker.new) }
{
    keep_done(worker, log)?;
    Ok(turn)
}

// Takes out the log at a place of those that wait.
fn take_waiting(worker: &mut Worker, place: usize) -> Log
    requires { place < vec_len worker.old.waiting }
    ensures { (code : Code) → HasLogs code worker.old → HasLogs code worker.new × IsCurrent code result }
{
    worker.waiting.swap_remove(place)
}

// Takes out the next log of those that can go.
fn take_ready(worker: &mut Worker) -> Option<Log>
    ensures logs { (code : Code) → HasLogs code worker.old → HasLogs code worker.new }
    ensures ready { (code : Code) → HasLogs code worker.old → IfSome result (IsReady code) }
    ensures waiting { worker.new.waiting ≡ worker.old.waiting }
{
    worker.ready.pop_front()
}

fn take_answer(worker: &mut Worker, place: usize, answer: Answer) -> Result<Turn, Memory>
    requires { place < vec_len worker.old.waiting }
    ensures { OnOk result ((code : Code) → HasLogs code worker.old → HasLogs code worker.new) }
{
    let mut log = take_waiting(worker, place);
    match go_on(&mut log, answer)? {
        Fit::Fits => {
            keep(worker, log, false)?;
            Ok(Turn::More)
        }
        Fit::Misfit => give_up(worker, log, Turn::Misfit),
    }
}

fn take_new(guarded: &Guarded, worker: &mut Worker, new: New) -> Result<Turn, Memory>
    requires { HasLogs guarded.now worker.old }
    ensures { OnOk result (HasLogs guarded.now worker.new) }
{
    match start_log(*worker.waiting.allocator(), guarded, new) {
        Ok(log) => {
            keep(worker, log, false)?;
            Ok(Turn::More)
        }
        Err(RunRefusal::Misfit) => Ok(Turn::Misfit),
        Err(RunRefusal::Memory) => Err(Memory),
    }
}

fn take_next(guarded: &Guarded, worker: &mut Worker, next: Next) -> Result<Turn, Memory>
    requires logs { HasLogs guarded.now worker.old }
    requires fits { FitsLogs (vec_len worker.old.waiting) next }
    ensures { OnOk result (HasLogs guarded.now worker.new) }
{
    match next {
        Next::Answer(place, answer) => take_answer(worker, place, answer),
        Next::New(new) => take_new(guarded, worker, new),
        Next::Nothing(went) => {
            worker.looked = went;
            worker.went = went;
            Ok(Turn::More)
        }
        Next::Over => Ok(Turn::Over),
    }
}

// Keeps a log behind the event of its burst.
fn take_event(worker: &mut Worker, log: Log, event: Event) -> Result<Turn, Memory>
    ensures { OnOk result ((code : Code) → HasLogs code worker.old → MayNote code log event → HasLogs code worker.new) }
{
    let mut log = log;
    let waits = matches!(&event, Event::Waits { .. });
    match note(&mut log, event)? {
        Fit::Fits => {
            keep(worker, log, waits)?;
            Ok(Turn::More)
        }
        Fit::Misfit => give_up(worker, log, Turn::Misfit),
    }
}

// Keeps a log behind what its burst came to.
fn take_outcome(worker: &mut Worker, log: Log, outcome: Outcome) -> Result<Turn, Memory>
    ensures { OnOk result ((code : Code) → HasLogs code worker.old → MayTake code log outcome → HasLogs code worker.new) }
{
    match outcome {
        Outcome::Noted(event) => take_event(worker, log, event),
        Outcome::Over => give_up(worker, log, Turn::Over),
        Outcome::Stranger => give_up(worker, log, Turn::Misfit),
    }
}

// One burst, without the lock, and the commit of what it came to.
fn make_burst<R: Wait, G: Gate>(
    rt: &R,
    guarded: &Guarded,
    shared: &Shared,
    gate: &G,
    worker: &mut Worker,
    log: Log,
) -> Result<Turn, Memory>
    requires logs { HasLogs guarded.now worker.old }
    requires ready { IsReady guarded.now log }
    ensures { OnOk result (HasLogs guarded.now worker.new) }
{
    let mut log = log;
    let stop = log.machine.burst(guarded, 256)?;
    gate.pass(worker.number, log.instance);
    let committed = shared.commit(rt, log.instance, stop)?;
    worker.went = committed.went;
    take_outcome(worker, log, committed.outcome)
}

// One turn: the next process that can go makes a burst. Answers are looked for where one of the worker's own processes has gone
// on since the last look; and a process is taken only where none can go.
fn make_turn<R: Wait, G: Gate>(
    rt: &R,
    guarded: &Guarded,
    shared: &Shared,
    gate: &G,
    worker: &mut Worker,
) -> Result<Turn, Memory>
    requires { HasLogs guarded.now worker.old }
    ensures { OnOk result (HasLogs guarded.now worker.new) }
{
    if worker.went != worker.looked && !worker.waiting.is_empty() {
        let next = shared.look(rt, worker.number, &worker.waiting);
        return take_next(guarded, worker, next);
    }
    match take_ready(worker) {
        Some(log) => make_burst(rt, guarded, shared, gate, worker, log),
        None => {
            let next = shared.wait_for_next(rt, worker.number, &worker.waiting)?;
            take_next(guarded, worker, next)
        }
    }
}

// Turns up to the end of the run. Where something doesn't fit the run is given up.
fn make_turns<R: Wait, G: Gate>(
    rt: &R,
    guarded: &Guarded,
    shared: &Shared,
    gate: &G,
    worker: &mut Worker,
) -> Result<(), Memory>
    requires { HasLogs guarded.now worker.old }
    ensures { OnOk result (HasLogs guarded.now worker.new) }
{
    'turns: for _ in rt.forever() {
        match make_turn(rt, guarded, shared, gate, worker)? {
            Turn::More => {}
            Turn::Over => return Ok(()),
            Turn::Misfit => {
                shared.stop(rt);
                return Ok(());
            }
        }
    }
    unreachable!()
}

// Takes the answers that came for processes of the worker, and that no turn took.
fn take_last(rt: &impl Wait, shared: &Shared, worker: &mut Worker) -> Result<(), Memory>
    ensures { OnOk result ((code : Code) → HasLogs code worker.old → HasLogs code worker.new) }
{
    'answers: for _ in rt.forever() {
        match shared.look(rt, worker.number, &worker.waiting) {
            Next::Answer(place, answer) => match take_answer(worker, place, answer)? {
                Turn::More => {}
                Turn::Over | Turn::Misfit => return Ok(()),
            },
            Next::New(_) | Next::Nothing(_) | Next::Over => return Ok(()),
        }
    }
    unreachable!()
}

// The logs of a worker.
fn into_logs(worker: Worker) -> Result<Vec<Log>, Memory>
    ensures { IfOk result (λ logs. (code : Code) → HasLogs code worker → All (IsLog code) logs.items) }
{
    let Worker {
        ready,
        mut waiting,
        mut done,
        ..
    } = worker;
    let mut ready = ready.into_vec();
    done.append(&mut waiting)?;
    done.append(&mut ready)?;
    Ok(done)
}

fn work_on<R: Wait, G: Gate>(
    rt: &R,
    alloc: Global,
    guarded: &Guarded,
    shared: &Shared,
    gate: &G,
    number: u32,
) -> Result<Vec<Log>, Memory>
    ensures { IfOk result (λ logs. All (IsLog guarded.now) logs.items) }
{
    let mut worker = Worker::new(alloc, number);
    make_turns(rt, guarded, shared, gate, &mut worker)?;
    take_last(rt, shared, &mut worker)?;
    into_logs(worker)
}

/// Works until the run is over, and gives the logs of the processes that the worker took. A worker that wants memory gives up the
/// run, at which the others end.
pub fn work<R: Wait, G: Gate>(
    rt: &R,
    alloc: Global,
    guarded: &Guarded,
    shared: &Shared,
    gate: &G,
    number: u32,
) -> Result<Vec<Log>, Memory>
    ensures { IfOk result (λ logs. All (IsLog guarded.now) logs.items) }
{
    let result = work_on(rt, alloc, guarded, shared, gate, number);
    if result.is_err() {
        shared.stop(rt);
    }
    result
}
