// The run that the workers made.
ghost use Rattle.std.specs.Prelude.{◌≡◌, ◌↔◌, IfOk, IfSome, IsSome, Some};
ghost use Rattle.serial_run.specs.Driven.{IsDriven};
ghost use Rattle.world_model.specs.Over.{over_of};
ghost use Rattle.worker_pool.specs.Gather.{Agrees, Gathers, machines_of};
ghost use Rattle.worker_pool.specs.Pools.{IsPool};

use crate::agreement::agree;
use crate::log::Logs;
use crate::pool::Pool;
use chill_base::{Item, List, Memory};
use code_guard::Guarded;
use kernel_base::{Facts, Over};
use serial_run::{Driven, Machines, Runner};

// The machines of the logs.
fn machines(logs: Logs) -> Result<Machines, Memory>
    ensures { IfOk result (λ machines. machines ≡ machines_of logs) }
{
    let logs = logs.into_vec();
    let mut machines = Vec::with_capacity(*logs.allocator(), logs.len())?;
    for log in logs {
        machines.push(Runner {
            instance: log.instance,
            machine: log.machine,
        })?;
    }
    Ok(List::from_vec(machines))
}

// How the run is over that the workers made, where their logs agree with its journal.
fn ending(facts: &Facts, pool: &Pool) -> Result<Option<Over>, Memory>
    ensures some { IfOk result (λ over. IsSome over ↔ Gathers facts.now pool.now) }
    ensures over { IfOk result (λ over. IfSome over (λ o. over_of pool.now.kernel.facts pool.now.kernel.events ≡ Some o)) }
{
    if !pool.kernel.facts().equals(facts) {
        return Ok(None);
    }
    let logs = &pool.workers;
    if !agree(logs.allocator(), logs.as_slice(), pool.kernel.events())? {
        return Ok(None);
    }
    Ok(pool.kernel.over())
}

// The run of a pool whose logs agree with the journal.
fn into_driven(guarded: &Guarded, pool: Pool, over: Over) -> Result<Driven, Memory>
    requires pool { IsPool guarded.now pool }
    requires agrees { Agrees pool.kernel.events pool.workers }
    requires over { over_of pool.kernel.facts pool.kernel.events ≡ Some over }
    ensures run { IfOk result (IsDriven guarded.now pool.kernel.facts) }
    ensures events { IfOk result (λ driven. driven.events ≡ pool.kernel.events) }
{
    let Pool { kernel, workers } = pool;
    let _code = guarded.code();
    kernel.is_run();
    let events = kernel.into_events();
    Ok(Driven {
        events,
        machines: machines(workers)?,
        over,
    })
}

/// The run that a pool's workers made of a code, exactly where the kernel was made from these facts, the run is over, and the logs
/// agree with its journal.
pub fn gather(guarded: &Guarded, facts: &Facts, pool: Pool) -> Result<Option<Driven>, Memory>
    requires { IsPool guarded.now pool }
    ensures some { IfOk result (λ driven. IsSome driven ↔ Gathers facts.now pool) }
    ensures run { IfOk result (λ driven. IfSome driven (IsDriven guarded.now facts.now)) }
    ensures events { IfOk result (λ driven. IfSome driven (λ d. d.events ≡ pool.kernel.events)) }
{
    match ending(facts, &pool)? {
        Some(over) => Ok(Some(into_driven(guarded, pool, over)?)),
        None => Ok(None),
    }
}
