// What an event makes of a world.
ghost use Rattle.std.specs.Prelude.{◌≡◌, ◌+◌, ◌^◌, ◌<◌, OnOk, slice_index_or, None, Some, IfOk, take, drop};
ghost use Rattle.world_model.specs.World as worlds;
ghost use Rattle.world_model.specs.World.{with_phase, locked_back, freed_last, held_by, with_next_send, next_value};
ghost use Rattle.world_model.specs.Lists.{last_of, with_scalars};
ghost use Rattle.world_model.specs.Waiting.{phase_of};
ghost use Rattle.world_model.specs.declared.world.Phase.TheVariants.{Active, Waiting};

use crate::changes::{
    end, enter, free_last, hand_over, hand_signal, last_held, leave, lock_back, pend, put,
    set_phase, start, store_value, take_signal, take_value, wake,
};
use crate::input::take_input;
use crate::waiting::offer_of;
use crate::{Offer, PendingSignal, Phase, StoredValue, World};
use chill_base::{Item, List, Memory, Scalars};
use kernel_base::{Answer, Event, Facts, Place, Request};
use std::alloc::Global;

fn after_continue(world: &mut World, who: u32, event: u32, answer: &Answer)
    ensures { world.new ≡ worlds.after_continue world.old who event answer.now }
{
    if let Answer::Chose(Some(p)) = answer {
        wake(world, *p, event, who);
    }
}

fn after_receive_signal(world: &mut World, answer: &Answer) -> Result<(), Memory>
    ensures { OnOk result (world.new ≡ worlds.after_receive_signal world.old answer.now) }
{
    match answer {
        Answer::Got { send, .. } => take_signal(world, *send),
        _ => Ok(()),
    }
}

fn after_start(
    world: &mut World,
    process: u32,
    scalars: &Scalars,
    answer: &Answer,
) -> Result<(), Memory>
    ensures { OnOk result (world.new ≡ worlds.after_start world.old process scalars.now answer.now) }
{
    match answer {
        Answer::Instance(_) => start(world, process, scalars),
        _ => Ok(()),
    }
}

fn after_send_buffer(
    world: &mut World,
    who: u32,
    buffer: u32,
    scalars: &Scalars,
    priority: u32,
    answer: &Answer,
) -> Result<(), Memory>
    requires { world.old.sends + 1 < 2 ^ 32 }
    ensures { OnOk result (world.new ≡ worlds.after_send_buffer world.old who buffer scalars.now priority answer.now) }
{
    world.sends += 1;
    let send = world.sends;
    match answer {
        Answer::Handed(p) => hand_over(world, *p, buffer, send, scalars, who),
        _ => {
            let scalars = scalars.copy()?;
            store_value(
                world,
                buffer,
                StoredValue {
                    send,
                    sender: who,
                    scalars,
                    priority,
                },
            )
        }
    }
}

fn buffer_length(facts: &Facts, buffer: u32) -> Option<u32>
    ensures { result ≡ worlds.buffer_length facts.now buffer }
{
    if (buffer as usize) < facts.buffers.len() {
        *facts.buffers.at(buffer as usize)
    } else {
        None
    }
}

#[tactic(auto, using(crate::proofs::Fills::filled_some))]
fn fill_some(world: &mut World, length: u32, offer: Offer) -> Result<(), Memory>
    ensures { OnOk result (world.new ≡ worlds.refilled_buffer world.old (Some length) offer) }
{
    if length == 0 {
        return Ok(());
    }
    store_value(world, offer.buffer, offer.value)
}

fn fill(world: &mut World, length: Option<u32>, offer: Offer) -> Result<(), Memory>
    ensures { OnOk result (world.new ≡ worlds.refilled_buffer world.old length offer) }
{
    match length {
        Some(length) => fill_some(world, length, offer),
        None => store_value(world, offer.buffer, offer.value),
    }
}

fn refill_by(facts: &Facts, world: &mut World, sender: u32, offer: Offer) -> Result<(), Memory>
    ensures { OnOk result (world.new ≡ worlds.refilled_by facts.now world.old sender (Some offer)) }
{
    let back = offer.back;
    fill(world, buffer_length(facts, offer.buffer), offer)?;
    set_phase(
        world,
        sender,
        Phase::Chosen {
            answer: Answer::Stored,
            back,
        },
    );
    Ok(())
}

fn refill(facts: &Facts, world: &mut World, sender: Option<u32>) -> Result<(), Memory>
    ensures { OnOk result (world.new ≡ worlds.refilled facts.now world.old sender) }
{
    match sender {
        Some(sender) => match offer_of(world, sender)? {
            Some(offer) => refill_by(facts, world, sender, offer),
            None => Ok(()),
        },
        None => Ok(()),
    }
}

fn after_receive_buffer(
    facts: &Facts,
    world: &mut World,
    answer: &Answer,
    sender: Option<u32>,
) -> Result<(), Memory>
    ensures { OnOk result (world.new ≡ worlds.after_receive_buffer facts.now world.old answer.now sender) }
{
    match answer {
        Answer::Got { send, .. } => {
            take_value(world, *send)?;
            refill(facts, world, sender)
        }
        _ => Ok(()),
    }
}

fn after_goes(world: &mut World, who: u32) -> Result<(), Memory>
    ensures { OnOk result (world.new ≡ with_phase (locked_back world.old who (worlds.back_in (phase_of world.old who))) who Active) }
{
    let back = back_of(world, who);
    lock_back(world, who, back)?;
    set_phase(world, who, Phase::Active);
    Ok(())
}

fn back_of(world: &World, who: u32) -> Option<u32>
    ensures { result ≡ worlds.back_in (phase_of world.now who) }
{
    match world.phases.as_slice().get(who as usize) {
        Some(phase) => back_in(phase),
        None => None,
    }
}

fn back_in(phase: &Phase) -> Option<u32>
    ensures { result ≡ worlds.back_in (Some phase.now) }
{
    match phase {
        Phase::Chosen { back, .. } => *back,
        _ => None,
    }
}

fn draw(world: &mut World, request: &Request) -> Option<u32>
    requires { world.old.sends + 1 < 2 ^ 32 }
    ensures world { world.new ≡ worlds.with_drawn world.old (worlds.drawn world.old request.now) }
    ensures number { result ≡ worlds.drawn world.old request.now }
{
    match request {
        Request::SendBuffer { .. } => {
            world.sends += 1;
            Some(world.sends)
        }
        _ => None,
    }
}

fn wait(world: &mut World, who: u32, request: &Request) -> Result<(), Memory>
    requires { world.old.sends + 1 < 2 ^ 32 }
    ensures { OnOk result (let back = last_of (held_by world.old who) in world.new ≡ with_phase (freed_last (worlds.with_drawn world.old (worlds.drawn world.old request.now)) who back) who (Waiting request.now (worlds.drawn world.old request.now) back)) }
{
    let back = last_held(world, who);
    let send = draw(world, request);
    let request = request.copy()?;
    free_last(world, who, back)?;
    set_phase(
        world,
        who,
        Phase::Waiting {
            request,
            send,
            back,
        },
    );
    Ok(())
}

fn after_waits(world: &mut World, who: u32, request: &Request) -> Result<(), Memory>
    requires { world.old.sends + 1 < 2 ^ 32 }
    ensures { OnOk result (world.new ≡ worlds.after_waits world.old who request.now) }
{
    match request {
        Request::Enter { region } => {
            set_phase(
                world,
                who,
                Phase::Chosen {
                    answer: Answer::Done,
                    back: Some(*region),
                },
            );
            Ok(())
        }
        _ => wait(world, who, request),
    }
}

// A signal that a process sends: to one instance, or to whoever may receive it.
#[derive(Drop)]
struct SentSignal<'a> {
    signal: u32,
    scalars: &'a Scalars,
    to: Option<u32>,
    priority: u32,
}

// The signal under the next send number.
fn numbered(world: &mut World, who: u32, sent: SentSignal) -> Result<PendingSignal, Memory>
    requires { world.old.sends + 1 < 2 ^ 32 }
    ensures world { world.new ≡ with_next_send world.old }
    ensures signal { IfOk result (λ signal. signal ≡ let s = sent.entry in record { signal = s.signal; to = s.to; value = next_value world.old who s.scalars.now s.priority }) }
{
    world.sends += 1;
    Ok(PendingSignal {
        signal: sent.signal,
        to: sent.to,
        value: StoredValue {
            send: world.sends,
            sender: who,
            scalars: sent.scalars.copy()?,
            priority: sent.priority,
        },
    })
}

fn after_send_signal(
    facts: &Facts,
    world: &mut World,
    who: u32,
    sent: SentSignal,
    answer: &Answer,
) -> Result<(), Memory>
    requires { world.old.sends + 1 < 2 ^ 32 }
    ensures { OnOk result (let s = sent.entry in world.new ≡ worlds.after_send_signal facts.now world.old who s.signal s.scalars.now s.to s.priority answer.now) }
{
    match answer {
        Answer::Handed(p) => {
            let signal = numbered(world, who, sent)?;
            hand_signal(facts, world, *p, signal);
            Ok(())
        }
        Answer::Stored => {
            let signal = numbered(world, who, sent)?;
            pend(world, signal)
        }
        _ => Ok(()),
    }
}

fn front(scalars: &[i64], count: usize) -> &[i64]
    ensures { result.now ≡ take count scalars.now }
{
    if count < scalars.len() {
        &scalars[..count]
    } else {
        scalars
    }
}

fn behind(scalars: &[i64], count: usize) -> &[i64]
    ensures { result.now ≡ drop count scalars.now }
{
    if count < scalars.len() {
        &scalars[count..]
    } else {
        &[]
    }
}

fn with_new(alloc: Global, old: &[i64], first: u32, new: &[i64]) -> Result<Scalars, Memory>
    ensures { IfOk result (λ all. all ≡ with_scalars old.now first new.now) }
{
    let mut all = Vec::new(alloc);
    all.extend_from_slice(front(old, first as usize))?;
    all.extend_from_slice(new)?;
    all.extend_from_slice(behind(old, first as usize + new.len()))?;
    Ok(List::from_vec(all))
}

fn write(world: &mut World, place: Place, scalars: &Scalars) -> Result<(), Memory>
    ensures { OnOk result (world.new ≡ worlds.written world.old place scalars.now) }
{
    if (place.location as usize) < world.store.len() {
        let old = world.store.at(place.location as usize);
        let new = with_new(
            world.store.allocator(),
            old.as_slice(),
            place.first,
            scalars.as_slice(),
        )?;
        let store = world.store.room();
        store[place.location as usize] = new;
    }
    Ok(())
}

fn after_request(
    facts: &Facts,
    world: &mut World,
    who: u32,
    request: &Request,
    answer: &Answer,
    refill: Option<u32>,
) -> Result<(), Memory>
    requires { world.old.sends + 1 < 2 ^ 32 }
    ensures { OnOk result (world.new ≡ worlds.after_request facts.now world.old who request.now answer.now refill) }
{
    match request {
        Request::Read { .. } | Request::Delay { .. } => Ok(()),
        Request::Write { place, scalars } => write(world, *place, scalars),
        Request::Enter { region } => enter(world, who, *region),
        Request::Leave { region } => leave(world, who, *region),
        Request::Continue { event } => {
            after_continue(world, who, *event, answer);
            Ok(())
        }
        Request::SendBuffer {
            buffer,
            scalars,
            priority,
        } => after_send_buffer(world, who, *buffer, scalars, *priority, answer),
        Request::ReceiveBuffer { .. } => after_receive_buffer(facts, world, answer, refill),
        Request::SendSignal {
            signal,
            scalars,
            to,
            priority,
        } => {
            let sent = SentSignal {
                signal: *signal,
                scalars,
                to: *to,
                priority: *priority,
            };
            after_send_signal(facts, world, who, sent, answer)
        }
        Request::ReceiveSignal { .. } => after_receive_signal(world, answer),
        Request::Start { process, scalars } => after_start(world, *process, scalars, answer),
        Request::Put { bytes } => put(world, bytes),
        Request::Get => take_input(world),
        Request::End { how } => end(world, who, *how),
    }
}

impl World {
    ghost use Rattle.world_model.specs.World.{after};

    /// Makes of the world what the event makes of it, whether or not it is allowed. After want of memory the world is of
    /// no further use.
    pub fn apply(&mut self, facts: &Facts, event: &Event) -> Result<(), Memory>
        requires { self.old.sends + 1 < 2 ^ 32 }
        ensures { OnOk result (self.new ≡ after facts.now self.old event.now) }
    {
        match event {
            Event::Did {
                who,
                request,
                answer,
                refill,
                ..
            } => after_request(facts, self, *who, request, answer, *refill),
            Event::Waits { who, request, .. } => after_waits(self, *who, request),
            Event::Goes { who, .. } => after_goes(self, *who),
            Event::Runs { .. } => Ok(()),
        }
    }
}
