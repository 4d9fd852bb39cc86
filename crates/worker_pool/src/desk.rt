// What stands under the lock: the kernel, and what workers have to know of one another.
ghost use Rattle.std.specs.Prelude.{◌≡◌, [], IfOk, IfSome, length, ◌<◌};
ghost use Rattle.worker_pool.specs.Notes.{IsEventAt, IsOutcomeOf, IsStop, KeepsOpen, NotesStop};

use crate::log::Log;
use crate::log_events::instance_of;
use chill_base::{Item, Memory};
use code_machine::Stop;
use kernel_base::{Answer, Event};
use kernel_core::{Kernel, New, Reply};
use serial_run::{commit, pause};
use std::alloc::Global;
use std::marker::Model;

/// What a burst came to at the kernel.
#[derive(Drop)]
pub enum Outcome {
    /// It was noted, as this event.
    Noted(Event),
    /// The run is over, or was given up.
    Over,
    /// The kernel takes it for no burst of a process that may go on.
    Stranger,
}

/// Which of the workers that wait find something to do behind a commit.
#[derive(Clone, Copy, PartialEq, Eq)]
pub enum Wakes {
    Nobody,
    /// The worker of this number.
    One(u32),
    All,
}

/// A run has at most so many workers.
pub const MAX_WORKERS: usize = 16;

/// What came of a burst: its outcome, how many processes of its worker have gone on so far, and whom it wakes.
#[derive(Drop)]
pub struct Committed {
    pub outcome: Outcome,
    pub went: u64,
    pub wakes: Wakes,
}

/// The kernel; and beside it whether the run was given up, how many processes of each worker have gone on so far, which worker has
/// each process, and which workers wait and weren't woken. Contracts see it as its kernel.
#[derive(Drop)]
pub struct Desk {
    kernel: Kernel,
    stopped: bool,
    went: [u64; MAX_WORKERS],
    owners: Vec<u32>,
    idle: [bool; MAX_WORKERS],
}

impl Model for Desk {
    ghost use Rattle.kernel_base.specs.contracts.value.Value as values;
    ghost use Rattle.kernel_steps.specs.View.{View};
    ghost use Rattle.serial_run.specs.Coming.{WasOpen};
    ghost use Rattle.std.specs.Coded.{codes};

    ghost Value = { View };

    ghost coded = { Prim.hlevel (codes, values.the_row.coded) };

    ghost view = { λ d. d.kernel };

    ghost invariant = { λ d. WasOpen d.kernel.facts d.kernel.events };
}

/// The place of a worker among all.
pub fn worker_place(worker: u32) -> usize
    ensures { result < 16 }
{
    worker as usize % MAX_WORKERS
}

// Commits what a burst came to, in room that it makes first.
fn commit_stop(kernel: &mut Kernel, who: u32, stop: Stop) -> Result<Reply, Memory>
    requires { IsStop stop }
    ensures notes { IfOk result (NotesStop kernel.old kernel.new who stop) }
    ensures open { KeepsOpen kernel.old kernel.new }
{
    match stop {
        Stop::Asks { ticks, request } => commit(kernel, who, ticks, request),
        Stop::Paused { ticks } => pause(kernel, who, ticks),
    }
}

// The event that was noted at a place of the journal.
fn event_at(kernel: &Kernel, place: usize) -> Result<Outcome, Memory>
    requires { place < length kernel.now.events }
    ensures { IfOk result (λ outcome. IsEventAt kernel.now.events place outcome) }
{
    Ok(Outcome::Noted(kernel.events()[place].copy()?))
}

// Commits what a burst came to, and copies the event that was noted of it.
fn note_stop(kernel: &mut Kernel, who: u32, stop: Stop) -> Result<Outcome, Memory>
    requires { IsStop stop }
    ensures outcome { IfOk result (IsOutcomeOf who stop) }
    ensures open { KeepsOpen kernel.old kernel.new }
{
    let place = kernel.events().len();
    match commit_stop(kernel, who, stop)? {
        Reply::Now(_) => event_at(kernel, place),
        Reply::Later => event_at(kernel, place),
        Reply::Over => Ok(Outcome::Over),
        Reply::Stranger => Ok(Outcome::Stranger),
    }
}

// Whether a process was started.
fn is_start(outcome: &Outcome) -> bool {
    match outcome {
        Outcome::Noted(
            Event::Did {
                answer: Answer::Instance(_),
                ..
            },
        ) => true,
        _ => false,
    }
}

impl Desk {
    ghost use Rattle.serial_run.specs.Coming.{WasOpen};

    pub fn new(alloc: Global, kernel: Kernel) -> Desk
        requires { kernel.events ≡ [] }
    {
        Desk {
            kernel,
            stopped: false,
            went: [0; MAX_WORKERS],
            owners: Vec::new(alloc),
            idle: [false; MAX_WORKERS],
        }
    }

    /// Commits what a burst came to, unless the run was given up.
    pub fn commit(&mut self, who: u32, stop: Stop) -> Result<Committed, Memory>
        requires { IsStop stop }
        ensures { IfOk result (λ c. IsOutcomeOf who stop c.outcome) }
    {
        if self.stopped {
            return Ok(Committed {
                outcome: Outcome::Over,
                went: self.went_of(who),
                wakes: Wakes::Nobody,
            });
        }
        let before = self.kernel.events().len();
        let outcome = note_stop(&mut self.kernel, who, stop)?;
        let others = self.note_goings(before.saturating_add(1));
        let finder = self.finder(&outcome, others);
        let wakes = self.wake(finder);
        Ok(Committed {
            outcome,
            went: self.went_of(who),
            wakes,
        })
    }

    // Who finds something to do: the worker of the process that went on, any worker where a process was started, and all where
    // several went on or the run is over.
    fn finder(&self, outcome: &Outcome, others: usize) -> Wakes {
        if others > 1 || self.kernel.over().is_some() {
            Wakes::All
        } else if others == 1 {
            self.last_owner()
        } else if is_start(outcome) {
            self.first_idle()
        } else {
            Wakes::Nobody
        }
    }

    // The worker that has a process.
    fn owner(&self, who: u32) -> Option<u32> {
        self.owners.get((who as usize).saturating_sub(1)).copied()
    }

    // How many processes of the worker that has this one have gone on so far.
    fn went_of(&self, who: u32) -> u64 {
        match self.owner(who) {
            Some(worker) => self.went(worker),
            None => 0,
        }
    }

    // Notes whose processes went on by the events from a place on, and answers how many did.
    fn note_goings(&mut self, from: usize) -> usize {
        let until = self.kernel.events().len();
        for at in from..until {
            let who = self.kernel.events().get(at).map_or(0, instance_of);
            if let Some(worker) = self.owner(who) {
                let place = worker_place(worker);
                self.went[place] = self.went[place].wrapping_add(1);
            }
        }
        until.saturating_sub(from)
    }

    // The worker that has the process of the last event.
    fn last_owner(&self) -> Wakes {
        let who = self.kernel.events().last().map_or(0, instance_of);
        match self.owner(who) {
            Some(worker) => Wakes::One(worker),
            None => Wakes::Nobody,
        }
    }

    // The first worker that waits.
    fn first_idle(&self) -> Wakes {
        match self.idle.iter().position(|is_idle| *is_idle) {
            Some(worker) => Wakes::One(worker as u32),
            None => Wakes::Nobody,
        }
    }

    // Of those that find something to do, those that wait. They are woken, so that the next commit wakes others.
    fn wake(&mut self, finder: Wakes) -> Wakes {
        match finder {
            Wakes::Nobody => Wakes::Nobody,
            Wakes::One(worker) => {
                let place = worker_place(worker);
                if !self.idle[place] {
                    return Wakes::Nobody;
                }
                self.idle[place] = false;
                finder
            }
            Wakes::All => {
                self.idle = [false; MAX_WORKERS];
                Wakes::All
            }
        }
    }

    /// The first answer that has come for one of the logs, with the log's place.
    pub fn fetch(&mut self, logs: &[Log]) -> Option<(usize, Answer)>
        ensures { IfSome result (λ found. found.0 < length logs.now) }
    {
        for place in 0..logs.len() {
            if let Some(answer) = self.kernel.fetch(logs[place].instance) {
                return Some((place, answer));
            }
        }
        None
    }

    /// The next process that was started and that no worker took, for this worker. Where there is no memory none is taken.
    pub fn take_new(&mut self, worker: u32) -> Result<Option<New>, Memory> {
        self.owners.reserve(1)?;
        let new = self.kernel.take_new();
        if new.is_some() {
            self.owners.push(worker)?;
        }
        Ok(new)
    }

    /// Whether the run is over, or was given up.
    pub fn is_over(&self) -> bool {
        self.stopped || self.kernel.over().is_some()
    }

    /// How many processes of a worker have gone on so far.
    pub fn went(&self, worker: u32) -> u64 {
        self.went[worker_place(worker)]
    }

    /// Notes that a worker begins to wait.
    pub fn begin_waiting(&mut self, worker: u32) {
        self.idle[worker_place(worker)] = true;
    }

    /// Notes that a worker waits no longer.
    pub fn end_waiting(&mut self, worker: u32) {
        self.idle[worker_place(worker)] = false;
    }

    /// Gives up the run.
    pub fn stop(&mut self) {
        self.stopped = true;
    }

    /// Gives up the desk for its kernel.
    pub fn into_kernel(self) -> Kernel
        ensures kernel { result ≡ self }
        ensures was_open { WasOpen result.facts result.events }
    {
        self.kernel
    }
}
