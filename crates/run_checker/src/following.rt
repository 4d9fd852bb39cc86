// The machines of a journal's instances, each of which makes what the journal tells of its instance.
ghost use Rattle.std.specs.Prelude.{◌≡◌, ◌↔◌, ◌+◌, ◌^◌, ◌<◌, ◌≤◌, IfOk, IsTrue, MatchBool, OnOk};
ghost use Rattle.code_types.specs.declared.code.Code.{Code};
ghost use Rattle.code_machine.specs.declared.burst.Stop.TheVariants as stops;
ghost use Rattle.run_checker.specs.Slots.{Adds, CanFollow, CannotFollow, Follows, HasAsked, HasRun, IsReady, Misses, StartsAs, Takes, is_end as asks_end, takes_in};

use chill_base::{Item, Memory, Scalars};
use code_guard::Guarded;
use code_machine::{Machine, Stop};
use kernel_base::{Answer, Event, Request};
use std::alloc::Global;

/// The machine of an instance; none where the code lets it do nothing more.
pub type Slot = Option<Machine>;

// Whether a burst came to this request, behind so many ticks.
fn is_asked(stop: &Stop, ticks: u32, request: &Request) -> bool
    ensures { IsTrue result ↔ (stop.now ≡ stops.Asks ticks request.now) }
{
    match stop {
        Stop::Asks {
            ticks: made,
            request: asked,
        } => *made == ticks && asked.equals(request),
        Stop::Paused { .. } => false,
    }
}

// Whether a burst made so many ticks and came to no request.
fn is_paused(stop: &Stop, ticks: u32) -> bool
    ensures { IsTrue result ↔ (stop.now ≡ stops.Paused ticks) }
{
    match stop {
        Stop::Asks { .. } => false,
        Stop::Paused { ticks: made } => *made == ticks,
    }
}

// Whether the machine makes so many ticks and asks the request.
#[tactic(auto, using(crate::proofs::Bursts::told_asked))]
fn asks(guarded: &Guarded, slot: &mut Slot, ticks: u32, request: &Request) -> Result<bool, Memory>
    requires ready { IsReady guarded.now slot.old }
    requires few { ticks + 1 < 2 ^ 32 }
    ensures { IfOk result (λ yes. MatchBool yes (HasAsked guarded.now ticks request.now slot.old slot.new) (Misses guarded.now (ticks + 1) (stops.Asks ticks request.now) slot.old)) }
{
    match slot {
        Some(machine) => {
            let stop = machine.burst(guarded, ticks + 1)?;
            let yes = is_asked(&stop, ticks, request);
            Ok(yes)
        }
        None => Ok(false),
    }
}

// Whether the machine makes so many ticks and asks nothing.
#[tactic(auto, using(crate::proofs::Bursts::told_run))]
fn runs(guarded: &Guarded, slot: &mut Slot, ticks: u32) -> Result<bool, Memory>
    requires ready { IsReady guarded.now slot.old }
    requires some { 1 ≤ ticks }
    ensures { IfOk result (λ yes. MatchBool yes (HasRun guarded.now ticks slot.old slot.new) (Misses guarded.now ticks (stops.Paused ticks) slot.old)) }
{
    match slot {
        Some(machine) => {
            let stop = machine.burst(guarded, ticks)?;
            let yes = is_paused(&stop, ticks);
            Ok(yes)
        }
        None => Ok(false),
    }
}

// Whether the machine takes the answer.
fn can_take(slot: &Slot, answer: &Answer) -> bool
    ensures { result ≡ takes_in slot.now answer.now }
{
    match slot {
        Some(machine) => machine.can_answer(answer),
        None => false,
    }
}

// Hands the answer to the machine. It is given up where the answer doesn't fit, and where its end is answered.
#[tactic(auto, using(crate::proofs::Bursts::takes_on))]
fn take(slot: &mut Slot, answer: &Answer, ends: bool) -> Result<(), Memory>
    ensures { OnOk result ((code : Code) → Takes code answer.now ends slot.old slot.new) }
{
    if ends || !can_take(slot, answer) {
        *slot = None;
        return Ok(());
    }
    if let Some(machine) = slot {
        machine.answer(answer.copy()?);
    }
    Ok(())
}

/// The machine of a process that is started.
pub fn start(
    alloc: Global,
    guarded: &Guarded,
    instance: u32,
    process: u32,
    scalars: &Scalars,
) -> Result<Slot, Memory>
    ensures { IfOk result (StartsAs guarded.now instance process scalars.now) }
{
    if !Machine::can_start(guarded, process, scalars) {
        return Ok(None);
    }
    let machine = Machine::start(alloc, guarded, instance, process, scalars.copy()?)?;
    Ok(Some(machine))
}

// Whether the request is that for an end.
fn is_end(request: &Request) -> bool
    ensures { result ≡ asks_end request.now }
{
    matches!(request, Request::End { .. })
}

// Makes the machine of a process that is started, if one is.
fn add_started(
    alloc: Global,
    guarded: &Guarded,
    machines: &mut Vec<Slot>,
    request: &Request,
    answer: &Answer,
) -> Result<(), Memory>
    ensures { OnOk result (Adds guarded.now request.now answer.now machines.old.items machines.new.items) }
{
    match (request, answer) {
        (Request::Start { process, scalars }, Answer::Instance(instance)) => {
            let slot = start(alloc, guarded, *instance, *process, scalars)?;
            machines.push(slot)?;
            Ok(())
        }
        _ => Ok(()),
    }
}

/// Lets the machines follow an event that is allowed: whether the code lets its instance do what it tells.
pub fn follow(
    alloc: Global,
    guarded: &Guarded,
    machines: &mut Vec<Slot>,
    event: &Event,
) -> Result<bool, Memory>
    requires can { CanFollow guarded.now machines.old.items event.now }
    ensures { IfOk result (λ yes. MatchBool yes (Follows guarded.now event.now machines.old.items machines.new.items) (CannotFollow guarded.now event.now machines.old.items)) }
{
    match event {
        Event::Did {
            who,
            ticks,
            request,
            answer,
            ..
        } => {
            let slot = &mut machines[*who as usize];
            if !asks(guarded, slot, *ticks, request)? {
                return Ok(false);
            }
            take(slot, answer, is_end(request))?;
            add_started(alloc, guarded, machines, request, answer)?;
            Ok(true)
        }
        Event::Waits {
            who,
            ticks,
            request,
        } => asks(guarded, &mut machines[*who as usize], *ticks, request),
        Event::Goes { who, answer } => {
            take(&mut machines[*who as usize], answer, false)?;
            Ok(true)
        }
        Event::Runs { who, ticks } => runs(guarded, &mut machines[*who as usize], *ticks),
    }
}
