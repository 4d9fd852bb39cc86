// The state of a run before its first event.
ghost use Rattle.std.specs.Prelude.{◌≡◌, [], ◌∷◌, None, IfOk};
ghost use Rattle.kernel_base.specs.Facts.{IsSound};
ghost use Rattle.world_model.specs.World as worlds;
ghost use Rattle.kernel_steps.specs.Seated.{Seated};
ghost use Rattle.kernel_steps.specs.Queued.{Sleeps, Trades, Hears};
ghost use Rattle.kernel_steps.specs.Kept.{IsKept, IsPrepared};
ghost use Rattle.kernel_steps.specs.View.{view_of, Opens};

use crate::{Queues, Seats, State};
use buffers_signals::{Buffers, Signals};
use chill_base::{List, Memory};
use event_queues::EventSets;
use instance_table::Instances;
use journal_book::Journal;
use kernel_base::Facts;
use region_kernel::Regions;
use shared_store::Store;
use std::alloc::Global;

#[tactic(auto, using(crate::proofs::Queueing::queues_open))]
fn new_seats(alloc: Global, facts: &Facts) -> Result<Seats, Memory>
    ensures seated { IfOk result (Seated (worlds.opening facts.now)) }
    ensures unfetched { IfOk result (λ s. s.unfetched.items ≡ None ∷ None ∷ []) }
{
    Ok(Seats {
        instances: Instances::new(alloc)?,
        regions: Regions::new(alloc, facts.regions)?,
        backs: vec![in alloc; None, None]?,
        chosen: vec![in alloc; None, None]?,
        unfetched: vec![in alloc; None, None]?,
    })
}

fn new_queues(alloc: Global, facts: &Facts) -> Result<Queues, Memory>
    ensures sleeps { IfOk result (λ q. Sleeps facts.now (worlds.opening facts.now) q.events) }
    ensures trades { IfOk result (λ q. Trades facts.now (worlds.opening facts.now) q.buffers) }
    ensures hears { IfOk result (λ q. Hears facts.now (worlds.opening facts.now) q.signals) }
    ensures sends { IfOk result (λ q. q.sends ≡ 0) }
    ensures last { IfOk result (λ q. (q.buffers.last ≡ 0) × (q.signals.last ≡ 0)) }
{
    Ok(Queues {
        events: EventSets::new(alloc, &facts.events)?,
        buffers: Buffers::new(alloc, facts)?,
        signals: Signals::new(alloc, facts)?,
        sends: 0,
    })
}

/// The state of a run from these facts, before its first event. Process 0 is instance 1.
pub fn open(alloc: Global, facts: Facts) -> Result<State, Memory>
    requires { IsSound facts }
    ensures kept { IfOk result IsKept }
    ensures prepared { IfOk result IsPrepared }
    ensures opens { IfOk result (λ s. Opens facts (view_of s)) }
{
    let seats = new_seats(alloc, &facts)?;
    let queues = new_queues(alloc, &facts)?;
    let store = Store::new(alloc, &facts)?;
    let arguments = vec![in alloc; List::new(alloc), List::new(alloc)]?;
    Ok(State {
        facts,
        journal: Journal::new(alloc),
        seats,
        queues,
        store,
        read: 0,
        arguments,
        taken: 0,
        widest: 0,
        ready: None,
    })
}
