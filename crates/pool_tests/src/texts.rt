// The code and the facts of texts, and what workers make of them.
ghost use Rattle.std.specs.Prelude.{◌≤◌, IfSome};
ghost use Rattle.worker_pool.specs.Pools.{IsPool};

use chill_base::{Item, Memory, Text};
use code_gen::facts_of;
use code_guard::Guarded;
use kernel_base::Facts;
use outside_ports::Gate;
use serial_run::Driven;
use sound_facts::are_sound;
use std::alloc::Global;
use std::sync::Wait;
use std::thread::Threads;
use text_to_code::{Built, Told, tell};
use worker_pool::{Pool, gather, run_pool};

pub const UNITS: u64 = 1_000_000;

/// The program of a text that breaks no rule, and its code.
pub fn built(alloc: Global, text: &[u8]) -> Option<Box<Built>> {
    match tell(alloc, text) {
        Ok(Told::Accepted(built)) => Some(built),
        _ => None,
    }
}

/// The facts of a program without input, with a budget.
pub fn facts(alloc: Global, built: &Built, units: u64) -> Option<Facts> {
    facts_of(alloc, built.program.checked(), Text::new(alloc), units).ok()
}

/// A pool of a code, where its facts are sound.
pub fn pool<R: Threads + Wait + Sync, G: Gate>(
    rt: &R,
    alloc: Global,
    code: &Guarded,
    facts: &Facts,
    workers: u32,
    gate: &G,
) -> Option<Pool>
    requires { (2 ≤ workers) × (workers ≤ 16) }
    ensures { IfSome result (IsPool code.now) }
{
    match are_sound(alloc, facts) {
        Ok(true) => run_pool(rt, alloc, code, facts.copy().ok()?, workers, gate).ok(),
        _ => None,
    }
}

/// The run that workers make of a text.
pub fn driven<R: Threads + Wait + Sync, G: Gate>(
    rt: &R,
    alloc: Global,
    text: &[u8],
    units: u64,
    workers: u32,
    gate: &G,
) -> Option<Driven>
    requires { (2 ≤ workers) × (workers ≤ 16) }
{
    let built = built(alloc, text)?;
    let facts = facts(alloc, &built, units)?;
    let pool = pool(rt, alloc, &built.code, &facts, workers, gate)?;
    gather(&built.code, &facts, pool).ok()?
}
