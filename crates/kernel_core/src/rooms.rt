// The room for one commit, over the kernel's state.
ghost use Rattle.std.specs.Prelude.{◌≡◌, IfOk, OnOk};
ghost use Rattle.kernel_steps.specs.Kept.{IsKept, IsPrepared, width_of};
ghost use Rattle.kernel_steps.specs.View.{view_of, Keeps, IsReadyFor};
ghost use Rattle.kernel_core.specs.Roomier.{SameSeats, SameQueues, SameState, SeatsHaveRoom, QueuesHaveRoom, PartsHaveRoom, IsReadyWith};

use chill_base::{Item, Memory};
use kernel_base::Request;
use kernel_steps::{Queues, Ready, Seats, State};
use std::alloc::Global;

// How many scalars an answer to the request, or its message, may have.
fn width(request: &Request) -> usize
    ensures { result ≡ width_of request.now }
{
    match request {
        Request::Read { place } => place.count as usize,
        Request::SendBuffer { scalars, .. } | Request::SendSignal { scalars, .. } => scalars.len(),
        Request::Get => 1,
        _ => 0,
    }
}

fn reserve_seats(seats: &mut Seats, changes: usize) -> Result<(), Memory>
    ensures same { SameSeats seats.old seats.new }
    ensures room { OnOk result (SeatsHaveRoom changes seats.new) }
{
    seats.instances.reserve(1)?;
    seats.regions.reserve(changes)?;
    seats.backs.reserve(1)?;
    seats.chosen.reserve(1)?;
    seats.unfetched.reserve(1)?;
    Ok(())
}

fn reserve_queues(queues: &mut Queues) -> Result<(), Memory>
    ensures same { SameQueues queues.old queues.new }
    ensures room { OnOk result (QueuesHaveRoom queues.new) }
{
    queues.events.reserve(1)?;
    queues.buffers.reserve(1)?;
    queues.signals.reserve(1)?;
    Ok(())
}

// A commit notes at most two events more than there are regions: an END frees each of them.
fn reserve(s: &mut State) -> Result<(), Memory>
    ensures same { SameState s.old s.new }
    ensures room { OnOk result (PartsHaveRoom s.new) }
    ensures widest { s.new.widest ≡ s.old.widest }
    ensures ready { s.new.ready ≡ s.old.ready }
{
    let changes = s.facts.regions as usize + 2;
    s.journal.reserve(changes)?;
    reserve_seats(&mut s.seats, changes)?;
    reserve_queues(&mut s.queues)?;
    s.arguments.reserve(1)?;
    Ok(())
}

// A copy of the request, whose lists the parts keep, and two buffers as wide as any message.
fn ready_for(alloc: Global, who: u32, request: &Request, widest: usize) -> Result<Ready, Memory>
    ensures { IfOk result (IsReadyWith who request.now widest) }
{
    Ok(Ready {
        who,
        request: request.copy()?,
        first: Vec::with_capacity(alloc, widest)?,
        second: Vec::with_capacity(alloc, widest)?,
    })
}

/// Makes the room for one commit of this request by `who`, or for a pause of `who`.
pub fn room(s: &mut State, who: u32, request: &Request) -> Result<(), Memory>
    requires kept { IsKept s.old }
    ensures kept { IsKept s.new }
    ensures prepared { IsPrepared s.new }
    ensures ready { OnOk result (IsReadyFor (view_of s.new) who request.now) }
    ensures keeps { Keeps (view_of s.old) (view_of s.new) }
{
    s.ready = None;
    reserve(s)?;
    let widest = s.widest.max(width(request));
    let ready = ready_for(*s.arguments.allocator(), who, request, widest)?;
    s.widest = widest;
    s.ready = Some(ready);
    Ok(())
}
