// The pending signals that an instance may receive.
ghost use Rattle.std.specs.Prelude.{◌≡◌, ◌≤◌, ◌↔◌, ℕ, IsTrue, Some};
ghost use Rattle.world_model.specs.Allowed as events;
ghost use Rattle.world_check.specs.Pending as pending;

use crate::requests::are_equal;
use kernel_base::{Alternative, Answer, Facts};
use world_model::{PendingSignal, StoredValue, World, may_receive, number_for};

/// What is received: the alternative, and the send number, the scalars and the sender of the value.
#[derive(Drop)]
pub struct Receipt<'a> {
    pub alternative: u32,
    pub send: u32,
    pub scalars: &'a [i64],
    pub by: u32,
}

// The alternative through which an instance may receive a pending signal.
fn alternative_for(
    facts: &Facts,
    world: &World,
    who: u32,
    signals: &[Alternative],
    signal: &PendingSignal,
) -> Option<u32>
    ensures { result ≡ pending.alternative_for facts.now world.now who signals.now signal.now }
{
    if may_receive(facts, world, signal.signal, signal.to, who as usize) {
        number_for(signals, signal.signal)
    } else {
        None
    }
}

/// Whether no pending signal is listed that an instance may receive.
pub fn no_signal_pends(facts: &Facts, world: &World, who: u32, signals: &[Alternative]) -> bool
    ensures { IsTrue result ↔ events.NoSignalPends facts.now world.now who signals.now }
{
    for place in 0..world.pending.len() {
        let signal = world.pending.at(place);
        if let Some(_) = alternative_for(facts, world, who, signals, signal) {
            return false;
        }
    }
    true
}

fn no_signal_above(
    facts: &Facts,
    world: &World,
    who: u32,
    signals: &[Alternative],
    priority: u32,
) -> bool
    ensures { IsTrue result ↔ pending.NoSignalAbove facts.now world.now who signals.now priority }
{
    for place in 0..world.pending.len() {
        let signal = world.pending.at(place);
        if let Some(_) = alternative_for(facts, world, who, signals, signal) {
            if signal.value.priority > priority {
                return false;
            }
        }
    }
    true
}

/// Whether this is the value of a send number, a sender and scalars.
pub fn is_value(value: &StoredValue, send: u32, scalars: &[i64], by: u32) -> bool
    ensures { IsTrue result ↔ (value.now ≡ record { send = send; sender = by; scalars = scalars.now; priority = value.now.priority }) }
{
    value.send == send && value.sender == by && are_equal(value.scalars.as_slice(), scalars)
}

fn is_listed_as(
    facts: &Facts,
    world: &World,
    who: u32,
    signals: &[Alternative],
    alternative: u32,
    signal: &PendingSignal,
) -> bool
    ensures { IsTrue result ↔ (pending.alternative_for facts.now world.now who signals.now signal.now ≡ Some alternative) }
{
    match alternative_for(facts, world, who, signals, signal) {
        Some(listed) => listed == alternative,
        None => false,
    }
}

fn may_take(
    facts: &Facts,
    world: &World,
    who: u32,
    signals: &[Alternative],
    receipt: &Receipt,
    signal: &PendingSignal,
) -> bool
    ensures { IsTrue result ↔ pending.MayTake facts.now world.now who signals.now receipt.now.alternative receipt.now.send receipt.now.scalars.now receipt.now.by signal.now }
{
    if !is_listed_as(facts, world, who, signals, receipt.alternative, signal) {
        return false;
    }
    if !is_value(&signal.value, receipt.send, receipt.scalars, receipt.by) {
        return false;
    }
    no_signal_above(facts, world, who, signals, signal.value.priority)
}

fn takes_signal(
    facts: &Facts,
    world: &World,
    who: u32,
    signals: &[Alternative],
    receipt: &Receipt,
) -> bool
    ensures { IsTrue result ↔ events.TakesSignal facts.now world.now who signals.now receipt.now.alternative receipt.now.send receipt.now.scalars.now receipt.now.by }
{
    for place in 0..world.pending.len() {
        let signal = world.pending.at(place);
        if may_take(facts, world, who, signals, receipt, signal) {
            return true;
        }
    }
    false
}

fn may_take_none(
    facts: &Facts,
    world: &World,
    who: u32,
    signals: &[Alternative],
    otherwise: bool,
) -> bool
    ensures { IsTrue result ↔ (IsTrue otherwise × events.NoSignalPends facts.now world.now who signals.now) }
{
    otherwise && no_signal_pends(facts, world, who, signals)
}

/// Whether an answer takes a signal of highest priority, or says that none is there where that may be said.
pub fn receives_signal(
    facts: &Facts,
    world: &World,
    who: u32,
    signals: &[Alternative],
    otherwise: bool,
    answer: &Answer,
) -> bool
    ensures { IsTrue result ↔ events.ReceivesSignal facts.now world.now who signals.now otherwise answer.now }
{
    match answer {
        Answer::Got {
            alternative,
            send,
            scalars,
            by,
        } => {
            let receipt = Receipt {
                alternative: *alternative,
                send: *send,
                scalars: scalars.as_slice(),
                by: *by,
            };
            takes_signal(facts, world, who, signals, &receipt)
        }
        Answer::Otherwise => may_take_none(facts, world, who, signals, otherwise),
        _ => false,
    }
}
