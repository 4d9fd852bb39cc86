// What events change in a world, one change at a time.
ghost use Rattle.std.specs.Prelude.{◌≡◌, ◌+◌, ◌^◌, ◌<◌, ◌∷◌, [], ◌++◌, slice_set, slice_index_or, None, Some, OnOk, IfOk, map};
ghost use Rattle.world_model.specs.World as worlds;
ghost use Rattle.world_model.specs.World.{with_phase, locked, freed, ended, entered, left, freed_last, locked_back, occupant, held_by, other_occupant, chosen, with_stored, values_but, signals_but};
ghost use Rattle.world_model.specs.Lists.{without, last_of};
ghost use Rattle.world_model.specs.Waiting as waiting;
ghost use Rattle.kernel_base.specs.declared.answer.Answer.{Answer};
ghost use Rattle.kernel_base.specs.declared.answer.Answer.TheVariants.{Woken, Got};
ghost use Rattle.world_model.specs.declared.world.Phase.TheVariants.{Active};

use crate::waiting::{buffer_receiver, signal_receiver, sleeper};
use crate::{PendingSignal, Phase, StoredValue, Waiter, World};
use chill_base::{Item, List, Memory, Scalars, Text};
use kernel_base::{Answer, Facts, How};
use std::mem;

/// Sets the phase of an instance that was made.
pub fn set_phase(world: &mut World, who: u32, phase: Phase)
    ensures { world.new ≡ with_phase world.old who phase }
{
    if (who as usize) < world.phases.len() {
        let phases = world.phases.room();
        phases[who as usize] = phase;
    }
}

/// Makes an instance the occupant of a region, which comes last in the list of those that it holds.
pub fn lock(world: &mut World, who: u32, region: u32) -> Result<(), Memory>
    ensures { OnOk result (world.new ≡ locked world.old who region) }
{
    if (who as usize) < world.held.len() {
        let held = world.held.room();
        held[who as usize].push(region)?;
    }
    if (region as usize) < world.occupants.len() {
        let occupants = world.occupants.room();
        occupants[region as usize] = Some(who);
    }
    Ok(())
}

fn set_occupant(world: &mut World, region: u32, occupant: Option<u32>)
    ensures { world.new ≡ record world.old { occupants = slice_set world.old.occupants region occupant } }
{
    if (region as usize) < world.occupants.len() {
        let occupants = world.occupants.room();
        occupants[region as usize] = occupant;
    }
}

// All but the items that are this region.
fn all_but(regions: &List<u32>, region: u32) -> Result<List<u32>, Memory>
    ensures { IfOk result (λ rest. rest ≡ without region regions.now) }
{
    let mut rest = Vec::new(regions.allocator());
    for other in regions.as_slice() {
        if *other != region {
            rest.push(*other)?;
        }
    }
    Ok(List::from_vec(rest))
}

fn let_go(world: &mut World, who: u32, region: u32) -> Result<(), Memory>
    ensures { OnOk result (world.new ≡ record world.old { held = slice_set world.old.held who (without region (held_by world.old who)) }) }
{
    if (who as usize) < world.held.len() {
        let rest = all_but(world.held.at(who as usize), region)?;
        let held = world.held.room();
        held[who as usize] = rest;
    }
    Ok(())
}

/// Frees a region, which leaves the list of those that the instance holds.
pub fn free(world: &mut World, who: u32, region: u32) -> Result<(), Memory>
    ensures { OnOk result (world.new ≡ freed world.old who region) }
{
    let_go(world, who, region)?;
    set_occupant(world, region, None);
    Ok(())
}

/// The occupant of a region.
pub fn occupant_of(world: &World, region: u32) -> Option<u32>
    ensures { result ≡ occupant world.now region }
{
    if (region as usize) < world.occupants.len() {
        *world.occupants.at(region as usize)
    } else {
        None
    }
}

/// Locks a region where it is free.
pub fn enter(world: &mut World, who: u32, region: u32) -> Result<(), Memory>
    ensures { OnOk result (world.new ≡ entered world.old who region (occupant world.old region)) }
{
    match occupant_of(world, region) {
        Some(_) => Ok(()),
        None => lock(world, who, region),
    }
}

/// Frees a region where the instance occupies it.
pub fn leave(world: &mut World, who: u32, region: u32) -> Result<(), Memory>
    ensures { OnOk result (world.new ≡ left world.old who region (occupant world.old region)) }
{
    match occupant_of(world, region) {
        Some(other) => {
            if other == who {
                free(world, who, region)
            } else {
                Ok(())
            }
        }
        None => Ok(()),
    }
}

/// The region that an instance locked last.
pub fn last_held(world: &World, who: u32) -> Option<u32>
    ensures { result ≡ last_of (held_by world.now who) }
{
    if (who as usize) < world.held.len() {
        last(world.held.at(who as usize).as_slice())
    } else {
        None
    }
}

fn last(regions: &[u32]) -> Option<u32>
    ensures { result ≡ last_of regions.now }
{
    match regions {
        [] => None,
        [.., region] => Some(*region),
    }
}

/// Frees the region that was locked last, if any.
pub fn free_last(world: &mut World, who: u32, back: Option<u32>) -> Result<(), Memory>
    ensures { OnOk result (world.new ≡ freed_last world.old who back) }
{
    match back {
        Some(region) => free(world, who, region),
        None => Ok(()),
    }
}

/// Locks the region that was freed, if any.
pub fn lock_back(world: &mut World, who: u32, back: Option<u32>) -> Result<(), Memory>
    ensures { OnOk result (world.new ≡ locked_back world.old who back) }
{
    match back {
        Some(region) => lock(world, who, region),
        None => Ok(()),
    }
}

// The occupants without one of them.
fn other_occupants(occupants: &List<Option<u32>>, who: u32) -> Result<List<Option<u32>>, Memory>
    ensures { IfOk result (λ rest. rest ≡ map (other_occupant who) occupants.now) }
{
    let mut rest = Vec::new(occupants.allocator());
    for occupant in occupants.as_slice() {
        rest.push(without_occupant(*occupant, who))?;
    }
    Ok(List::from_vec(rest))
}

fn without_occupant(occupant: Option<u32>, who: u32) -> Option<u32>
    ensures { result ≡ other_occupant who occupant }
{
    match occupant {
        Some(other) => { if other == who { None } else { Some(other) } }
        None => None,
    }
}

/// Ends an instance, which frees all that it holds.
pub fn end(world: &mut World, who: u32, how: How) -> Result<(), Memory>
    ensures { OnOk result (world.new ≡ ended world.old who how) }
{
    world.occupants = other_occupants(&world.occupants, who)?;
    set_phase(world, who, Phase::Ended { how });
    if (who as usize) < world.held.len() {
        let none = List::new(world.held.allocator());
        let held = world.held.room();
        held[who as usize] = none;
    }
    Ok(())
}

/// Lets one go on that is delayed on an event.
pub fn wake(world: &mut World, p: u32, event: u32, by: u32)
    ensures { world.new ≡ chosen world.old p (waiting.sleeper world.old event p) (λ alternative. Woken alternative by) }
{
    if let Some(waiter) = sleeper(world, event, p as usize) {
        set_phase(
            world,
            p,
            Phase::Chosen {
                answer: Answer::Woken {
                    alternative: waiter.alternative,
                    by,
                },
                back: waiter.back,
            },
        );
    }
}

/// Hands a value to one that waits to receive from a buffer.
pub fn hand_over(
    world: &mut World,
    p: u32,
    buffer: u32,
    send: u32,
    scalars: &Scalars,
    by: u32,
) -> Result<(), Memory>
    ensures { OnOk result (world.new ≡ chosen world.old p (waiting.buffer_receiver world.old buffer p) (λ alternative. Got alternative send scalars.now by)) }
{
    match buffer_receiver(world, buffer, p as usize) {
        Some(waiter) => {
            choose_receiver(world, p, waiter, send, scalars.copy()?, by);
            Ok(())
        }
        None => Ok(()),
    }
}

/// Hands a signal to one that waits for it and may receive it.
pub fn hand_signal(facts: &Facts, world: &mut World, p: u32, signal: PendingSignal)
    ensures { world.new ≡ chosen world.old p (waiting.signal_receiver facts.now world.old signal.signal signal.to p) (λ alternative. Got alternative signal.value.send signal.value.scalars signal.value.sender) }
{
    let PendingSignal { signal, to, value } = signal;
    if let Some(waiter) = signal_receiver(facts, world, signal, to, p as usize) {
        choose_receiver(world, p, waiter, value.send, value.scalars, value.sender);
    }
}

fn choose_receiver(world: &mut World, p: u32, waiter: Waiter, send: u32, scalars: Scalars, by: u32)
    ensures { world.new ≡ chosen world.old p (Some waiter) (λ alternative. Got alternative send scalars by) }
{
    set_phase(
        world,
        p,
        Phase::Chosen {
            answer: Answer::Got {
                alternative: waiter.alternative,
                send,
                scalars,
                by,
            },
            back: waiter.back,
        },
    );
}

/// Stores one more value in a buffer.
pub fn store_value(world: &mut World, buffer: u32, value: StoredValue) -> Result<(), Memory>
    ensures { OnOk result (world.new ≡ with_stored world.old buffer value) }
{
    if (buffer as usize) < world.stored.len() {
        let stored = world.stored.room();
        stored[buffer as usize].push(value)?;
    }
    Ok(())
}

/// Appends a pending signal.
pub fn pend(world: &mut World, signal: PendingSignal) -> Result<(), Memory>
    ensures { OnOk result (world.new ≡ record world.old { pending = world.old.pending ++ signal ∷ [] }) }
{
    world.pending.push(signal)
}

/// Appends a new instance, which is active.
pub fn start(world: &mut World, process: u32, scalars: &Scalars) -> Result<(), Memory>
    ensures { OnOk result (world.new ≡ record world.old { processes = world.old.processes ++ process ∷ []; arguments = world.old.arguments ++ scalars.now ∷ []; phases = world.old.phases ++ Active ∷ []; held = world.old.held ++ [] ∷ [] }) }
{
    world.processes.push(process)?;
    world.arguments.push(scalars.copy()?)?;
    world.phases.push(Phase::Active)?;
    world.held.push(List::new(world.held.allocator()))
}

/// Appends bytes to the output.
pub fn put(world: &mut World, bytes: &Text) -> Result<(), Memory>
    ensures { OnOk result (world.new ≡ record world.old { output = world.old.output ++ bytes.now }) }
{
    let output = world.output.room();
    output.extend_from_slice(bytes.as_slice())?;
    Ok(())
}

// All values but the one of a send number.
fn values_without(values: List<StoredValue>, send: u32) -> Result<List<StoredValue>, Memory>
    ensures { IfOk result (λ rest. rest ≡ values_but send values) }
{
    let mut rest = Vec::new(values.allocator());
    for value in values.into_vec() {
        if value.send != send {
            rest.push(value)?;
        }
    }
    Ok(List::from_vec(rest))
}

fn all_without(
    stored: List<List<StoredValue>>,
    send: u32,
) -> Result<List<List<StoredValue>>, Memory>
    ensures { IfOk result (λ rest. rest ≡ map (values_but send) stored) }
{
    let mut rest = Vec::new(stored.allocator());
    for values in stored.into_vec() {
        rest.push(values_without(values, send)?)?;
    }
    Ok(List::from_vec(rest))
}

fn signals_without(signals: List<PendingSignal>, send: u32) -> Result<List<PendingSignal>, Memory>
    ensures { IfOk result (λ rest. rest ≡ signals_but send signals) }
{
    let mut rest = Vec::new(signals.allocator());
    for signal in signals.into_vec() {
        if signal.value.send != send {
            rest.push(signal)?;
        }
    }
    Ok(List::from_vec(rest))
}

/// Takes a value out of the buffers.
pub fn take_value(world: &mut World, send: u32) -> Result<(), Memory>
    ensures { OnOk result (world.new ≡ record world.old { stored = map (values_but send) world.old.stored }) }
{
    let none = List::new(world.stored.allocator());
    world.stored = all_without(mem::replace(&mut world.stored, none), send)?;
    Ok(())
}

/// Takes a pending signal.
pub fn take_signal(world: &mut World, send: u32) -> Result<(), Memory>
    ensures { OnOk result (world.new ≡ record world.old { pending = signals_but send world.old.pending }) }
{
    let none = List::new(world.pending.allocator());
    world.pending = signals_without(mem::replace(&mut world.pending, none), send)?;
    Ok(())
}
