// Buffers, with the values in them, and those that wait to send to them and to receive from them (Z.200, chapter on
// concurrent execution).
ghost use Rattle.std.specs.Prelude.{◌≡◌, ℕ, ◌+◌, ◌<◌, ◌≤◌, ◌++◌, ◌∷◌, [], None, Some, IfOk, IfSome, IfNone, OnOk, IsTrue, IsFalse, true, false, length, replicate, slice_get, slice_index_or};
ghost use Rattle.std.specs.Option.{option_and_then};
ghost use Rattle.kernel_base.specs.Facts.{NameThings};
ghost use Rattle.kernel_lists.specs.Once.{AreOnce, entry_of};
ghost use Rattle.wait_queues.specs.Waiting.{AreInOrder, waiter_of};
ghost use Rattle.buffers_signals.specs.Arrivals.{no_priority, priority_of, receivers_at, receives_at, senders_at, sends_at, waits_at};
ghost use Rattle.value_queues.specs.Queues.{values_in};
ghost use Rattle.buffers_signals.specs.Lists.{sender_of, receiver_of, lists};
ghost use Rattle.buffers_signals.specs.Buffers.{IsSend, IsReceive, WaitsOnNothing, Sends, SendsValue, Receives, ReceivesFrom, takes_more};
ghost use Rattle.world_model.specs.Allowed.{is_below};
ghost use Rattle.buffers_signals.specs.Ranks.{IsSource, IsFrontAt, IsOfferAt};
ghost use Rattle.buffers_signals.specs.Steps.{GotFrom};

use crate::receiving::{Source, best_front, is_without_values};
use crate::taking::{answer_with, refill};
use crate::waiting::{Receivers, Senders};
use crate::{Held, Received, Receiver, Sent};
use chill_base::{Item, Lengths, Memory};
use kernel_base::{Alternative, Alternatives, Facts, Request};
use std::alloc::Global;
use std::marker::Model;
use value_queues::ValueQueues;
use wait_queues::Waiters;
use world_model::{StoredValue, number_at, number_for};

/// The buffers of a program.
#[derive(Drop)]
pub struct Buffers {
    lengths: Lengths,
    stored: ValueQueues,
    senders: Senders,
    receivers: Receivers,
    last: u32,
}

impl Model for Buffers {
    ghost use Rattle.std.specs.Prelude.{min};
    ghost use Rattle.buffers_signals.specs.Buffers.{AreKept, SeenBuffers};

    ghost Value = { SeenBuffers };

    ghost view = { λ b. record {
      lengths = b.lengths;
      stored = b.stored.values;
      senders = b.senders.senders;
      receivers = b.receivers.receivers;
      last = b.last;
      spare = min b.stored.room (min b.senders.room b.receivers.room);
    } };

    ghost invariant = { λ b. AreKept b.lengths b.stored.values b.senders b.receivers b.last };
}

impl Buffers {
    /// The buffers of the facts, all of them empty.
    pub fn new(alloc: Global, facts: &Facts) -> Result<Buffers, Memory>
        ensures lengths { IfOk result (λ b. b.lengths ≡ facts.now.buffers) }
        ensures stored { IfOk result (λ b. b.stored ≡ replicate (length facts.now.buffers) []) }
        ensures nobody { IfOk result (λ b. (b.senders ≡ []) × (b.receivers ≡ [])) }
        ensures last { IfOk result (λ b. b.last ≡ 0) }
    {
        Ok(Buffers {
            lengths: facts.buffers.copy()?,
            stored: ValueQueues::new(alloc, facts.buffers.len())?,
            senders: Senders::new(alloc, facts.buffers.len())?,
            receivers: Receivers::new(alloc, facts.buffers.len())?,
            last: 0,
        })
    }

    /// Makes room for `n` changes.
    pub fn reserve(&mut self, n: u32) -> Result<(), Memory>
        ensures room { OnOk result (n ≤ self.new.spare) }
        ensures lengths { self.new.lengths ≡ self.old.lengths }
        ensures stored { self.new.stored ≡ self.old.stored }
        ensures senders { self.new.senders ≡ self.old.senders }
        ensures receivers { self.new.receivers ≡ self.old.receivers }
        ensures last { self.new.last ≡ self.old.last }
        ensures spare { self.old.spare ≤ self.new.spare }
    {
        self.stored.reserve(n as usize)?;
        self.senders.reserve(n as usize)?;
        self.receivers.reserve(n as usize)?;
        Ok(())
    }

    /// No process waits twice to send, and none twice to receive.
    pub fn each_once(&self)
        ensures senders { AreOnce sender_of self.now.senders }
        ensures receivers { AreOnce receiver_of self.now.receivers }
    {
        let _stored = &self.stored;
    }

    /// Those that wait to receive from a buffer, in the order in which a value is handed over.
    pub fn receivers(&self, buffer: u32) -> &Waiters
        requires { buffer < length self.now.lengths }
        ensures is { result.now.waiters ≡ receivers_at buffer self.now.receivers }
        ensures exactly { (who : ℕ) → entry_of waiter_of result.now.waiters who ≡ option_and_then (waits_at receiver_of no_priority receives_at buffer) (entry_of receiver_of self.now.receivers who) }
    {
        self.receivers.at(buffer)
    }

    /// Those that wait to send to a buffer, in the order in which they are chosen.
    pub fn senders(&self, buffer: u32) -> &Waiters
        requires { buffer < length self.now.lengths }
        ensures is { result.now.waiters ≡ senders_at buffer self.now.senders }
        ensures exactly { (who : ℕ) → entry_of waiter_of result.now.waiters who ≡ option_and_then (waits_at sender_of priority_of sends_at buffer) (entry_of sender_of self.now.senders who) }
        ensures order { AreInOrder result.now.waiters }
    {
        self.senders.at(buffer)
    }

    /// Sends a value under this send number, which is behind all earlier ones. It takes no memory.
    pub fn send(&mut self, who: u32, send: u32, request: Request) -> Sent
        requires spare { 0 < self.old.spare }
        requires next { self.old.last < send }
        requires is_send { IsSend self.old request }
        requires nothing { WaitsOnNothing self.old who }
        ensures sends { Sends self.old self.new who send request result }
        ensures last { self.new.last ≤ send }
        ensures lengths { self.new.lengths ≡ self.old.lengths }
        ensures spare { self.old.spare ≤ self.new.spare + 1 }
    {
        match request {
            Request::SendBuffer {
                buffer,
                scalars,
                priority,
            } => self.send_value(
                buffer,
                StoredValue {
                    send,
                    sender: who,
                    scalars,
                    priority,
                },
            ),
            _ => Sent::Delayed,
        }
    }

    fn send_value(&mut self, buffer: u32, value: StoredValue) -> Sent
        requires spare { 0 < self.old.spare }
        requires next { self.old.last < value.send }
        requires there { buffer < length self.old.lengths }
        requires nothing { WaitsOnNothing self.old value.sender }
        ensures sends { SendsValue self.old self.new buffer value result }
        ensures last { self.new.last ≡ value.send }
        ensures lengths { self.new.lengths ≡ self.old.lengths }
        ensures spare { self.old.spare ≤ self.new.spare + 1 }
    {
        self.last = value.send;
        self.receivers.each_once();
        if let Some(to) = self.receivers.first(buffer) {
            let alternative = self.receivers.take(to, buffer);
            return Sent::Handed {
                to,
                answer: answer_with(alternative, value),
            };
        }
        if takes_one_more(self.lengths.as_slice(), &self.stored, buffer) {
            self.stored.put(buffer, value);
            return Sent::Stored;
        }
        self.senders.put(Held { buffer, value });
        Sent::Delayed
    }

    /// Receives a value. It takes no memory.
    pub fn receive(&mut self, who: u32, process: u32, request: Request) -> Received
        requires spare { 0 < self.old.spare }
        requires is_receive { IsReceive self.old request }
        requires nothing { WaitsOnNothing self.old who }
        ensures receives { Receives self.old self.new who process request result }
        ensures last { self.new.last ≡ self.old.last }
        ensures lengths { self.new.lengths ≡ self.old.lengths }
        ensures spare { self.old.spare ≤ self.new.spare + 1 }
    {
        match request {
            Request::ReceiveBuffer { buffers, otherwise } => {
                self.receive_from(who, process, buffers, otherwise)
            }
            _ => Received::Delayed,
        }
    }

    fn receive_from(
        &mut self,
        who: u32,
        process: u32,
        buffers: Alternatives,
        otherwise: bool,
    ) -> Received
        requires spare { 0 < self.old.spare }
        requires there { NameThings (length self.old.lengths) buffers }
        requires nothing { WaitsOnNothing self.old who }
        ensures receives { ReceivesFrom self.old self.new who process buffers otherwise result }
        ensures last { self.new.last ≡ self.old.last }
        ensures lengths { self.new.lengths ≡ self.old.lengths }
        ensures spare { self.old.spare ≤ self.new.spare + 1 }
    {
        match self.source_of(buffers.as_slice()) {
            Source::Stored { place } => self.take_stored(buffers.as_slice(), place),
            Source::Offered { place } => self.take_offered(buffers.as_slice(), place),
            Source::Nowhere => {
                if otherwise {
                    return Received::Otherwise;
                }
                self.receivers.put(Receiver {
                    who,
                    process,
                    things: buffers,
                });
                Received::Delayed
            }
        }
    }

    fn source_of(&self, buffers: &[Alternative]) -> Source
        requires { NameThings (length self.now.lengths) buffers.now }
        ensures { IsSource self.now buffers.now result }
    {
        let lengths = self.lengths.as_slice();
        self.stored.in_order();
        self.senders.each_once();
        match best_front(lengths, buffers, &self.stored, &self.senders) {
            Some(best) => {
                let place = best.place;
                if is_without_values(lengths, buffers[place].thing) {
                    Source::Offered { place }
                } else {
                    Source::Stored { place }
                }
            }
            None => Source::Nowhere,
        }
    }

    fn take_stored(&mut self, buffers: &[Alternative], place: usize) -> Received
        requires front { IsFrontAt self.old buffers.now place }
        requires there { NameThings (length self.old.lengths) buffers.now }
        requires spare { 0 < self.old.spare }
        ensures got { GotFrom self.old self.new buffers.now result }
        ensures last { self.new.last ≡ self.old.last }
        ensures lengths { self.new.lengths ≡ self.old.lengths }
        ensures spare { self.old.spare ≤ self.new.spare + 1 }
    {
        let buffer = buffers[place].thing;
        let value = self.stored.take_first(buffer);
        let alternative = number_for(buffers, buffer).unwrap();
        let refill = refill(
            self.lengths.as_slice(),
            &mut self.stored,
            &mut self.senders,
            buffer,
        );
        Received::Got {
            answer: answer_with(alternative, value),
            refill,
        }
    }

    fn take_offered(&mut self, buffers: &[Alternative], place: usize) -> Received
        requires offer { IsOfferAt self.old buffers.now place }
        requires there { NameThings (length self.old.lengths) buffers.now }
        ensures got { GotFrom self.old self.new buffers.now result }
        ensures last { self.new.last ≡ self.old.last }
        ensures lengths { self.new.lengths ≡ self.old.lengths }
        ensures spare { self.old.spare ≤ self.new.spare }
    {
        let first = self.senders.first(buffers[place].thing).unwrap();
        let taken = self.senders.take(first.who);
        let alternative = number_for(buffers, taken.buffer).unwrap();
        let refill = Some(taken.value.sender);
        Received::Got {
            answer: answer_with(alternative, taken.value),
            refill,
        }
    }
}

// Whether a buffer takes one more value.
fn takes_one_more(lengths: &[Option<u32>], stored: &ValueQueues, buffer: u32) -> bool
    ensures { result ≡ is_below (slice_index_or lengths.now buffer None) (length (values_in stored.now.values buffer)) }
{
    match number_at(lengths, buffer) {
        Some(most) => stored.count(buffer) < most as usize,
        None => true,
    }
}
