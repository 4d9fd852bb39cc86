// Who waits for what.
ghost use Rattle.std.specs.Prelude.{◌≡◌, slice_index_or, IfOk};
ghost use Rattle.world_model.specs.Lists as lists;
ghost use Rattle.world_model.specs.Waiting as waiting;

use crate::{Phase, StoredValue, World};
use chill_base::{Item, Memory};
use kernel_base::{Alternative, Facts, Request};

/// One that waits: the alternative through which it would be chosen, its priority, and the region to lock again.
#[derive(Clone, Copy)]
pub struct Waiter {
    pub alternative: u32,
    pub priority: u32,
    pub back: Option<u32>,
}

/// A value whose sender waits: the buffer, the value, and the region to lock again.
#[derive(Drop)]
pub struct Offer {
    pub buffer: u32,
    pub value: StoredValue,
    pub back: Option<u32>,
}

/// The number of the first alternative that lists a thing.
pub fn number_for(alternatives: &[Alternative], thing: u32) -> Option<u32>
    ensures { result ≡ lists.number_for alternatives.now thing }
{
    for alternative in alternatives {
        if alternative.thing == thing {
            return Some(alternative.number);
        }
    }
    None
}

fn waiter_for(alternative: Option<u32>, priority: u32, back: Option<u32>) -> Option<Waiter>
    ensures { result ≡ waiting.waiter_for alternative priority back }
{
    match alternative {
        Some(alternative) => Some(Waiter {
            alternative,
            priority,
            back,
        }),
        None => None,
    }
}

/// One that is delayed on an event, by its phase.
pub fn sleeper_in(event: u32, phase: &Phase) -> Option<Waiter>
    ensures { result ≡ waiting.sleeper_in event phase.now }
{
    match phase {
        Phase::Waiting {
            request: Request::Delay { events, priority },
            back,
            ..
        } => waiter_for(number_for(events.as_slice(), event), *priority, *back),
        _ => None,
    }
}

fn buffer_receiver_in(buffer: u32, phase: &Phase) -> Option<Waiter>
    ensures { result ≡ waiting.buffer_receiver_in buffer phase.now }
{
    match phase {
        Phase::Waiting {
            request: Request::ReceiveBuffer { buffers, .. },
            back,
            ..
        } => waiter_for(number_for(buffers.as_slice(), buffer), 0, *back),
        _ => None,
    }
}

fn signal_receiver_in(signal: u32, phase: &Phase) -> Option<Waiter>
    ensures { result ≡ waiting.signal_receiver_in signal phase.now }
{
    match phase {
        Phase::Waiting {
            request: Request::ReceiveSignal { signals, .. },
            back,
            ..
        } => waiter_for(number_for(signals.as_slice(), signal), 0, *back),
        _ => None,
    }
}

/// One that is delayed on an event.
pub fn sleeper(world: &World, event: u32, who: usize) -> Option<Waiter>
    ensures { result ≡ waiting.sleeper world.now event who }
{
    match world.phases.as_slice().get(who) {
        Some(phase) => sleeper_in(event, phase),
        None => None,
    }
}

/// One that waits to receive from a buffer.
pub fn buffer_receiver(world: &World, buffer: u32, who: usize) -> Option<Waiter>
    ensures { result ≡ waiting.buffer_receiver world.now buffer who }
{
    match world.phases.as_slice().get(who) {
        Some(phase) => buffer_receiver_in(buffer, phase),
        None => None,
    }
}

/// Whether an instance may receive a signal.
pub fn may_receive(facts: &Facts, world: &World, signal: u32, to: Option<u32>, who: usize) -> bool
    ensures { result ≡ waiting.may_receive facts.now world.now signal to who }
{
    match to {
        Some(to) => who == to as usize,
        None => match number_at(facts.signals.as_slice(), signal) {
            Some(wanted) => process_of(world, who) == wanted,
            None => true,
        },
    }
}

/// The number at a place, where there is one.
pub fn number_at(numbers: &[Option<u32>], i: u32) -> Option<u32>
    ensures { result ≡ slice_index_or numbers.now i None }
{
    if (i as usize) < numbers.len() {
        numbers[i as usize]
    } else {
        None
    }
}

fn process_of(world: &World, who: usize) -> u32
    ensures { result ≡ slice_index_or world.now.processes who 0 }
{
    if who < world.processes.len() {
        *world.processes.at(who)
    } else {
        0
    }
}

/// One that waits for a signal and may receive it.
pub fn signal_receiver(
    facts: &Facts,
    world: &World,
    signal: u32,
    to: Option<u32>,
    who: usize,
) -> Option<Waiter>
    ensures { result ≡ waiting.signal_receiver facts.now world.now signal to who }
{
    if !may_receive(facts, world, signal, to, who) {
        return None;
    }
    match world.phases.as_slice().get(who) {
        Some(phase) => signal_receiver_in(signal, phase),
        None => None,
    }
}

fn offer_in(who: u32, phase: &Phase) -> Result<Option<Offer>, Memory>
    ensures { IfOk result (λ offer. offer ≡ waiting.offer_in who phase.now) }
{
    match phase {
        Phase::Waiting {
            request: Request::SendBuffer {
                buffer,
                scalars,
                priority,
            },
            send: Some(send),
            back,
        } => Ok(Some(Offer {
            buffer: *buffer,
            value: StoredValue {
                send: *send,
                sender: who,
                scalars: scalars.copy()?,
                priority: *priority,
            },
            back: *back,
        })),
        _ => Ok(None),
    }
}

/// The value of one that waits to send.
pub fn offer_of(world: &World, who: u32) -> Result<Option<Offer>, Memory>
    ensures { IfOk result (λ offer. offer ≡ waiting.offer world.now who) }
{
    match world.phases.as_slice().get(who as usize) {
        Some(phase) => offer_in(who, phase),
        None => Ok(None),
    }
}
