// The workers, in threads of their own.
ghost use denote.Param.Send.{IsSync};
ghost use Rattle.std.specs.Prelude.{◌≡◌, ◌≤◌, All, IfOk, OnOk};
ghost use Rattle.kernel_base.specs.Facts.{IsSound};
ghost use Rattle.worker_pool.specs.Logs.{IsLog};
ghost use Rattle.worker_pool.specs.Pools.{IsPool};

use crate::log::{Log, Logs};
use crate::shared::Shared;
use crate::worker::work;
use chill_base::{List, Memory};
use code_guard::Guarded;
use kernel_base::Facts;
use kernel_core::Kernel;
use outside_ports::Gate;
use std::alloc::Global;
use std::sync::Wait;
use std::thread;
use std::thread::{Promise, PromisedHandle, Threads};

/// What the workers of a run leave: the kernel, and the logs of the processes that they took.
#[derive(Drop)]
pub struct Pool {
    pub kernel: Kernel,
    pub workers: Logs,
}

// A thread promises logs of this code.
#[derive(Clone, Copy)]
struct LogsOf<'a>(&'a Guarded);

impl<'a> Promise<Result<Vec<Log>, Memory>> for LogsOf<'a> {
    ghost kept_by = { λ p r. IfOk r (λ logs. All (IsLog p.0.now) logs.items) };
}

// Puts the logs of a worker behind those of others.
fn add_logs(all: &mut Vec<Log>, logs: Vec<Log>, guarded: &Guarded) -> Result<(), Memory>
    requires all { All (IsLog guarded.now) all.old.items }
    requires logs { All (IsLog guarded.now) logs.items }
    ensures { OnOk result (All (IsLog guarded.now) all.new.items) }
{
    let mut logs = logs;
    all.append(&mut logs)?;
    Ok(())
}

// What a thread promised comes by its join.
fn join_one<'a, R: Threads>(
    rt: &R,
    child: PromisedHandle<Result<Vec<Log>, Memory>, LogsOf<'a>>,
) -> Result<Vec<Log>, Memory>
    ensures { IfOk result (λ logs. All (IsLog child.entry.promise.0.now) logs.items) }
{
    child.join(rt)
}

fn join_all<'a, R: Threads>(
    rt: &R,
    children: Vec<PromisedHandle<Result<Vec<Log>, Memory>, LogsOf<'a>>>,
    all: &mut Vec<Log>,
    guarded: &Guarded,
) -> Result<(), Memory>
    requires all { All (IsLog guarded.now) all.old.items }
    requires promised { All (λ child. child.promise.0.now ≡ guarded.now) children.items }
    ensures { OnOk result (All (IsLog guarded.now) all.new.items) }
{
    let mut children = children;
    'rest: while !children.is_empty() {
        let child = children.remove(0);
        add_logs(all, join_one(rt, child)?, guarded)?;
    }
    Ok(())
}

// The logs of all workers. Where no thread can be made for a worker, the caller does its work.
fn run_workers<R: Threads + Wait + Sync, G: Gate>(
    rt: &R,
    alloc: Global,
    guarded: &Guarded,
    shared: &Shared,
    workers: u32,
    gate: &G,
) -> Result<Vec<Log>, Memory>
    ensures { IfOk result (λ logs. All (IsLog guarded.now) logs.items) }
{
    thread::scope(
        thread::scope_env(),
        rt,
        |scope| -> Result<Vec<Log>, Memory>
            requires { IsSync R.row × IsSync G.row }
            ensures { IfOk result (λ logs. All (IsLog guarded.entry.now) logs.items) }
        {
            let mut all = Vec::new(alloc);
            let mut children = Vec::with_capacity(alloc, workers as usize)?;
            for worker in 0..workers {
                match scope.spawn_with(
                    LogsOf(guarded),
                    move || work(rt, alloc, guarded, shared, gate, worker),
                ) {
                    Ok(child) => children.push(child)?,
                    Err(_) => add_logs(
                        &mut all,
                        work(rt, alloc, guarded, shared, gate, worker)?,
                        guarded,
                    )?,
                }
            }
            join_all(rt, children, &mut all, guarded)?;
            Ok(all)
        },
    )
}

/// Runs a code from facts by 2 to 16 workers, each in a thread of its own, and waits for them. A worker keeps the processes that it
/// takes for their whole life, and runs their bursts, of 256 ticks at most, without the lock. It passes the gate behind each burst
/// and before its commit. Whether the logs agree with the journal is for `gather` to say.
pub fn run_pool<R: Threads + Wait + Sync, G: Gate>(
    rt: &R,
    alloc: Global,
    guarded: &Guarded,
    facts: Facts,
    workers: u32,
    gate: &G,
) -> Result<Pool, Memory>
    requires sound { IsSound facts }
    requires workers { (2 ≤ workers) × (workers ≤ 16) }
    ensures { IfOk result (IsPool guarded.now) }
{
    let shared = Shared::new(alloc, Kernel::new(alloc, facts)?);
    let logs = run_workers(rt, alloc, guarded, &shared, workers, gate)?;
    Ok(Pool {
        kernel: shared.into_kernel(),
        workers: List::from_vec(logs),
    })
}
