// The desk under its lock, and where workers wait.
ghost use Rattle.std.specs.Prelude.{[], ◌≡◌, IfOk, length};
ghost use Rattle.serial_run.specs.Coming.{WasOpen};
ghost use Rattle.worker_pool.specs.Notes.{IsStop, IsOutcomeOf};
ghost use Rattle.worker_pool.specs.Nexts.{FitsLogs};

use crate::desk::{Committed, Desk, MAX_WORKERS, Wakes, worker_place};
use crate::log::Log;
use chill_base::Memory;
use code_machine::Stop;
use kernel_base::Answer;
use kernel_core::{Kernel, New};
use std::alloc::Global;
use std::array;
use std::sync::{Condvar, Mutex, Wait};

/// What a worker finds to do beside bursts.
#[derive(Drop)]
pub enum Next {
    /// The answer that came for the log at this place.
    Answer(usize, Answer),
    /// A process that was started.
    New(New),
    /// Nothing; so many of the worker's processes have gone on so far.
    Nothing(u64),
    /// The run is over, or was given up.
    Over,
}

/// What the workers share.
#[derive(Drop)]
pub struct Shared {
    desk: Mutex<Desk>,
    /// What each worker waits on.
    changed: [Condvar; MAX_WORKERS],
}

impl Shared {
    pub fn new(alloc: Global, kernel: Kernel) -> Shared
        requires { kernel.events ≡ [] }
    {
        Shared {
            desk: Mutex::new(Desk::new(alloc, kernel)),
            changed: array::from_fn(|_| Condvar::new()),
        }
    }

    // At most one worker waits on each.
    fn notify_all(&self) {
        for changed in &self.changed {
            changed.notify_one();
        }
    }

    /// Commits what a burst came to, and wakes those who then find something to do.
    pub fn commit(&self, rt: &impl Wait, who: u32, stop: Stop) -> Result<Committed, Memory>
        requires { IsStop stop }
        ensures { IfOk result (λ c. IsOutcomeOf who stop c.outcome) }
    {
        let committed = self.desk.lock(rt).commit(who, stop)?;
        match committed.wakes {
            Wakes::Nobody => {}
            Wakes::One(worker) => self.changed[worker_place(worker)].notify_one(),
            Wakes::All => self.notify_all(),
        }
        Ok(committed)
    }

    /// An answer that came for one of the worker's logs, if there is one.
    pub fn look(&self, rt: &impl Wait, worker: u32, logs: &[Log]) -> Next
        ensures { FitsLogs (length logs.now) result }
    {
        let mut desk = self.desk.lock(rt);
        match desk.fetch(logs) {
            Some((place, answer)) => Next::Answer(place, answer),
            None => Next::Nothing(desk.went(worker)),
        }
    }

    /// An answer that came for one of the logs, or a process that was started, or the end of the run. It waits where there is none
    /// of these: some process is active then, and another worker has it, or the run would be over.
    pub fn wait_for_next<R: Wait>(&self, rt: &R, worker: u32, logs: &[Log]) -> Result<Next, Memory>
        ensures { IfOk result (FitsLogs (length logs.now)) }
    {
        let mut desk = self.desk.lock(rt);
        for _ in rt.forever() {
            if let Some((place, answer)) = desk.fetch(logs) {
                return Ok(Next::Answer(place, answer));
            }
            if desk.is_over() {
                return Ok(Next::Over);
            }
            if let Some(new) = desk.take_new(worker)? {
                return Ok(Next::New(new));
            }
            desk.begin_waiting(worker);
            desk = self.changed[worker_place(worker)].wait(rt, desk);
            desk.end_waiting(worker);
        }
        unreachable!()
    }

    /// Gives up the run, at which all workers end.
    pub fn stop(&self, rt: &impl Wait) {
        self.desk.lock(rt).stop();
        self.notify_all();
    }

    /// The kernel, once no worker is left.
    pub fn into_kernel(self) -> Kernel
        ensures { WasOpen result.facts result.events }
    {
        let Shared { desk, changed: _ } = self;
        desk.into_inner().into_kernel()
    }
}
