// Signals that are pending, and those that wait for them (Z.200, chapter on concurrent execution).
ghost use Rattle.std.specs.Prelude.{◌≡◌, ℕ, ◌==◌, ◌&&◌, ◌+◌, ◌<◌, ◌≤◌, ◌++◌, ◌∷◌, [], None, Some, IfOk, IfSome, IfNone, OnOk, IsTrue, IsFalse, length, slice_get, slice_index_or};
ghost use Rattle.std.specs.List.{find};
ghost use Rattle.std.specs.Option.{option_and_then, option_map};
ghost use Rattle.kernel_lists.specs.Best.{IsBest, NoneRanked};
ghost use Rattle.kernel_lists.specs.First.{IsFirst};
ghost use Rattle.kernel_lists.specs.Once.{entry_of, AreOnce};
ghost use Rattle.signal_queues.specs.Pending.{pending_in, queue_of};
ghost use Rattle.buffers_signals.specs.Lists.{receiver_of};
ghost use Rattle.buffers_signals.specs.Pending.{IsChosen, may_take, rank_for};
ghost use Rattle.wait_queues.specs.Waiting.{waiter_of};
ghost use Rattle.buffers_signals.specs.Arrivals.{no_priority, receivers_at, receives_at, waits_at};
ghost use Rattle.buffers_signals.specs.Signals.{IsSend, IsReceive, Sends, SendsTo, Receives, ReceivesFrom, NonePends, may_receive, is_receiver, takes_any, waits_itself};

use crate::taking::answer_with;
use crate::waiting::Receivers;
use crate::{Received, Receiver, Sent};
use chill_base::{Item, Lengths, Memory};
use kernel_base::{Alternative, Alternatives, Facts, Request};
use kernel_lists::{Best, Rank, better};
use signal_queues::SignalQueues;
use std::alloc::Global;
use std::marker::Model;
use value_queues::rank;
use wait_queues::Waiters;
use world_model::{PendingSignal, StoredValue, number_at, number_for};

/// The signals of a program.
#[derive(Drop)]
pub struct Signals {
    wanted: Lengths,
    pending: SignalQueues,
    receivers: Receivers,
    last: u32,
}

impl Model for Signals {
    ghost use Rattle.std.specs.Prelude.{min};
    ghost use Rattle.signal_queues.specs.Pending.{pending_in};
    ghost use Rattle.buffers_signals.specs.Signals.{AreKept, SeenSignals};

    ghost Value = { SeenSignals };

    ghost view = { λ s. record {
      wanted = s.wanted;
      pending = pending_in s.pending;
      receivers = s.receivers.receivers;
      last = s.last;
      spare = min s.pending.room s.receivers.room;
    } };

    ghost invariant = { λ s. AreKept s.wanted s.pending s.receivers s.last };
}

impl Signals {
    /// The signals of the facts, none of which is pending.
    pub fn new(alloc: Global, facts: &Facts) -> Result<Signals, Memory>
        ensures wanted { IfOk result (λ s. s.wanted ≡ facts.now.signals) }
        ensures empty { IfOk result (λ s. (s.pending ≡ []) × (s.receivers ≡ [])) }
        ensures last { IfOk result (λ s. s.last ≡ 0) }
    {
        Ok(Signals {
            wanted: facts.signals.copy()?,
            pending: SignalQueues::new(alloc, facts.signals.len())?,
            receivers: Receivers::new(alloc, facts.signals.len())?,
            last: 0,
        })
    }

    /// Makes room for `n` changes.
    pub fn reserve(&mut self, n: u32) -> Result<(), Memory>
        ensures room { OnOk result (n ≤ self.new.spare) }
        ensures wanted { self.new.wanted ≡ self.old.wanted }
        ensures pending { self.new.pending ≡ self.old.pending }
        ensures receivers { self.new.receivers ≡ self.old.receivers }
        ensures last { self.new.last ≡ self.old.last }
        ensures spare { self.old.spare ≤ self.new.spare }
    {
        self.pending.reserve(n as usize)?;
        self.receivers.reserve(n as usize)?;
        Ok(())
    }

    /// No process waits twice.
    pub fn each_once(&self)
        ensures { AreOnce receiver_of self.now.receivers }
    {
        let _pending = &self.pending;
    }

    /// Those that wait for a signal, in the order in which they came.
    pub fn receivers(&self, signal: u32) -> &Waiters
        requires { signal < length self.now.wanted }
        ensures is { result.now.waiters ≡ receivers_at signal self.now.receivers }
        ensures exactly { (who : ℕ) → entry_of waiter_of result.now.waiters who ≡ option_and_then (waits_at receiver_of no_priority receives_at signal) (entry_of receiver_of self.now.receivers who) }
    {
        self.receivers.at(signal)
    }

    /// Sends a signal under this send number, which is behind all earlier ones, where it isn't refused. It takes no memory,
    /// and is never delayed.
    pub fn send(&mut self, who: u32, send: u32, request: Request) -> Sent
        requires spare { 0 < self.old.spare }
        requires next { self.old.last < send }
        requires is_send { IsSend self.old request }
        ensures sends { Sends self.old self.new who send request result }
        ensures last { self.new.last ≤ send }
        ensures wanted { self.new.wanted ≡ self.old.wanted }
        ensures spare { self.old.spare ≤ self.new.spare + 1 }
    {
        match request {
            Request::SendSignal {
                signal,
                scalars,
                to,
                priority,
            } => {
                let value = StoredValue {
                    send,
                    sender: who,
                    scalars,
                    priority,
                };
                self.send_signal(PendingSignal { signal, to, value })
            }
            _ => Sent::Stored,
        }
    }

    fn send_signal(&mut self, signal: PendingSignal) -> Sent
        requires spare { 0 < self.old.spare }
        requires next { self.old.last < signal.value.send }
        requires there { signal.signal < length self.old.wanted }
        ensures sends { SendsTo self.old self.new signal result }
        ensures last { self.new.last ≡ signal.value.send }
        ensures wanted { self.new.wanted ≡ self.old.wanted }
        ensures spare { self.old.spare ≤ self.new.spare + 1 }
    {
        self.last = signal.value.send;
        let wanted = self.wanted.as_slice();
        self.receivers.each_once();
        if let Some(to) = receiver_for(wanted, &self.receivers, signal.signal, signal.to) {
            let alternative = self.receivers.take(to, signal.signal);
            return Sent::Handed {
                to,
                answer: answer_with(alternative, signal.value),
            };
        }
        self.pending.put(signal);
        Sent::Stored
    }

    /// Receives a signal. `process` is the one of which the asker is an instance. It takes no memory.
    pub fn receive(&mut self, who: u32, process: u32, request: Request) -> Received
        requires spare { 0 < self.old.spare }
        requires is_receive { IsReceive self.old request }
        requires nothing { entry_of receiver_of self.old.receivers who ≡ None }
        ensures receives { Receives self.old self.new who process request result }
        ensures last { self.new.last ≡ self.old.last }
        ensures wanted { self.new.wanted ≡ self.old.wanted }
        ensures spare { self.old.spare ≤ self.new.spare + 1 }
    {
        match request {
            Request::ReceiveSignal { signals, otherwise } => {
                self.receive_from(who, process, signals, otherwise)
            }
            _ => Received::Delayed,
        }
    }

    fn receive_from(
        &mut self,
        who: u32,
        process: u32,
        signals: Alternatives,
        otherwise: bool,
    ) -> Received
        requires spare { 0 < self.old.spare }
        requires nothing { entry_of receiver_of self.old.receivers who ≡ None }
        ensures receives { ReceivesFrom self.old self.new who process signals otherwise result }
        ensures last { self.new.last ≡ self.old.last }
        ensures wanted { self.new.wanted ≡ self.old.wanted }
        ensures spare { self.old.spare ≤ self.new.spare + 1 }
    {
        let wanted = self.wanted.as_slice();
        if let Some(chosen) = choose(wanted, &self.pending, who, process, signals.as_slice()) {
            let taken = self.pending.take(chosen.signal, chosen.place);
            let alternative = number_for(signals.as_slice(), taken.signal).unwrap();
            return Received::Got {
                answer: answer_with(alternative, taken.value),
                refill: None,
            };
        }
        if otherwise {
            return Received::Otherwise;
        }
        self.receivers.put(Receiver {
            who,
            process,
            things: signals,
        });
        Received::Delayed
    }
}

// Whether an instance of a process may receive a signal.
fn may_be_received(
    wanted: &[Option<u32>],
    signal: u32,
    to: Option<u32>,
    who: u32,
    process: u32,
) -> bool
    ensures { result ≡ may_receive wanted.now signal to who process }
{
    match to {
        Some(to) => who == to,
        None => match number_at(wanted, signal) {
            Some(wanted) => process == wanted,
            None => true,
        },
    }
}

// Who came first of those that wait for a signal and may receive it.
fn receiver_for(
    wanted: &[Option<u32>],
    receivers: &Receivers,
    signal: u32,
    to: Option<u32>,
) -> Option<u32>
    requires { signal < receivers.now.places }
    ensures { result ≡ option_map receiver_of (find (is_receiver wanted.now signal to) receivers.now.receivers) }
{
    receivers.each_once();
    match to {
        Some(to) => addressed(receivers, signal, to),
        None => first_of(wanted, receivers, signal),
    }
}

// The instance that a signal is sent to, if it waits for the signal.
fn addressed(receivers: &Receivers, signal: u32, to: u32) -> Option<u32>
    ensures { result ≡ option_map receiver_of (waits_itself receivers.now.receivers signal to) }
{
    let receiver = receivers.get(to)?;
    if number_for(receiver.things.as_slice(), signal).is_some() {
        Some(receiver.who)
    } else {
        None
    }
}

// Who came first of those that wait for a signal that is sent to nobody in particular.
fn first_of(wanted: &[Option<u32>], receivers: &Receivers, signal: u32) -> Option<u32>
    requires { signal < receivers.now.places }
    ensures { result ≡ option_map waiter_of (find (takes_any wanted.now signal receivers.now.receivers) (receivers_at signal receivers.now.receivers)) }
{
    let waiters = receivers.at(signal);
    for place in 0..waiters.len() {
        let who = waiters.at(place).who;
        if may_be_received(wanted, signal, None, who, receivers.process_of(who)) {
            return Some(who);
        }
    }
    None
}

// Which signal is received: the one at a place of the queue of this signal.
#[derive(Clone, Copy)]
pub struct Chosen {
    pub signal: u32,
    pub place: usize,
}

// Where the first of the pending signals of a name stands that a process may receive.
fn first_for(
    wanted: &[Option<u32>],
    pending: &SignalQueues,
    who: u32,
    process: u32,
    signal: u32,
) -> Option<usize>
    ensures some { IfSome result (IsFirst (may_take wanted.now who process) (queue_of pending.now.queues signal)) }
    ensures none { IfNone result (find (may_take wanted.now who process) (queue_of pending.now.queues signal) ≡ None) }
{
    for place in 0..pending.count(signal) {
        let other = pending.at(signal, place);
        if may_be_received(wanted, other.signal, other.to, who, process) {
            return Some(place);
        }
    }
    None
}

fn rank_first(
    wanted: &[Option<u32>],
    pending: &SignalQueues,
    who: u32,
    process: u32,
    signal: u32,
) -> Option<Rank>
    ensures { result ≡ rank_for wanted.now pending.now.queues who process signal }
{
    match first_for(wanted, pending, who, process, signal) {
        Some(place) => Some(rank(&pending.at(signal, place).value)),
        None => None,
    }
}

// The listed signal whose first is the best of all that the process may receive.
fn best_listed(
    wanted: &[Option<u32>],
    pending: &SignalQueues,
    who: u32,
    process: u32,
    signals: &[Alternative],
) -> Option<Best>
    ensures some { IfSome result (IsBest (λ a. rank_for wanted.now pending.now.queues who process a.thing) signals.now) }
    ensures none { IfNone result (NoneRanked (λ a. rank_for wanted.now pending.now.queues who process a.thing) signals.now) }
{
    let mut found = None;
    for place in 0..signals.len() {
        found = better(
            found,
            place,
            rank_first(wanted, pending, who, process, signals[place].thing),
        );
    }
    found
}

fn choose(
    wanted: &[Option<u32>],
    pending: &SignalQueues,
    who: u32,
    process: u32,
    signals: &[Alternative],
) -> Option<Chosen>
    ensures some { IfSome result (IsChosen wanted.now pending.now who process signals.now) }
    ensures none { IfNone result (NonePends wanted.now (pending_in pending.now) who process signals.now) }
{
    pending.in_order();
    match best_listed(wanted, pending, who, process, signals) {
        Some(best) => {
            let signal = signals[best.place].thing;
            match first_for(wanted, pending, who, process, signal) {
                Some(place) => Some(Chosen { signal, place }),
                None => None,
            }
        }
        None => None,
    }
}
