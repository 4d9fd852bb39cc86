// The run of a program that is ready.
ghost use Rattle.std.specs.Prelude.{◌≤◌, IfOk};
ghost use Rattle.kernel_base.specs.Facts.{IsSound};
ghost use Rattle.chill_top.specs.Plan.{Completes, IsPlanAfter};
ghost use Rattle.chill_top.specs.Runs.{IsAttempt};

use crate::plan::{Plan, Ran, Ready};
use chill_base::{Item, Memory};
use code_guard::Guarded;
use kernel_base::Facts;
use outside_ports::Gate;
use serial_run::{Driven, RunRefusal, attempt};
use std::alloc::Global;
use std::sync::Wait;
use std::thread::Threads;
use text_to_code::{Built, not_built};
use worker_pool::{gather, run_pool};

/// What comes of an attempt to run a code.
#[derive(Drop)]
pub(crate) enum Attempt {
    /// The run.
    Driven(Box<Driven>),
    /// The facts don't suit the code. This comes of no program that breaks no rule.
    NotBuilt,
}

/// Runs a program that is ready, by one worker.
pub(crate) fn run_alone(alloc: Global, ready: Ready) -> Result<Plan, Memory>
    requires { IsSound ready.facts }
    ensures { IfOk result (Completes ready) }
{
    let Ready { built, facts } = ready;
    let attempt = drive(alloc, &built.code, facts)?;
    plan_after(alloc, built, attempt)
}

/// Several workers of a run, and the gate that each passes behind its bursts.
#[derive(Drop)]
pub(crate) struct Workers<'a, R, G> {
    pub rt: &'a R,
    pub gate: &'a G,
    pub count: u32,
    ghost several: { (2 ≤ count) × (count ≤ 16) },
}

/// Runs a program that is ready, by several workers. It waits for the kernel's lock.
pub(crate) fn run_by_workers<R: Threads + Wait + Sync, G: Gate>(
    alloc: Global,
    ready: Ready,
    workers: &Workers<'_, R, G>,
) -> Result<Plan, Memory>
    requires { IsSound ready.facts }
    ensures { IfOk result (Completes ready) }
{
    let Ready { built, facts } = ready;
    let attempt = drive_by_workers(alloc, &built.code, facts, workers)?;
    plan_after(alloc, built, attempt)
}

// The plan of a program after an attempt to run its code.
fn plan_after(alloc: Global, built: Box<Built>, attempt: Attempt) -> Result<Plan, Memory>
    ensures { IfOk result (IsPlanAfter built.value attempt) }
{
    match attempt {
        Attempt::Driven(driven) => Ok(Plan::Ran(Ran { built, driven })),
        Attempt::NotBuilt => Ok(Plan::Refused(not_built(alloc)?)),
    }
}

// Runs a code from facts, by one worker.
fn drive(alloc: Global, code: &Guarded, facts: Facts) -> Result<Attempt, Memory>
    requires { IsSound facts }
    ensures { IfOk result (IsAttempt code.now facts) }
{
    match attempt(alloc, code, facts) {
        Ok(driven) => Ok(Attempt::Driven(Box::new(alloc, driven)?)),
        Err(RunRefusal::Misfit) => Ok(Attempt::NotBuilt),
        Err(RunRefusal::Memory) => Err(Memory),
    }
}

// Runs a code from facts, by several workers; by one where what they leave doesn't agree with itself.
fn drive_by_workers<R: Threads + Wait + Sync, G: Gate>(
    alloc: Global,
    code: &Guarded,
    facts: Facts,
    workers: &Workers<'_, R, G>,
) -> Result<Attempt, Memory>
    requires { IsSound facts }
    ensures { IfOk result (IsAttempt code.now facts) }
{
    let pool = run_pool(
        workers.rt,
        alloc,
        code,
        facts.copy()?,
        workers.count,
        workers.gate,
    )?;
    match gather(code, &facts, pool)? {
        Some(driven) => Ok(Attempt::Driven(Box::new(alloc, driven)?)),
        None => drive(alloc, code, facts),
    }
}
