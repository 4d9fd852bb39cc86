// The answers that hand a value on, and what a sender that waits stores in its place.
ghost use Rattle.std.specs.Prelude.{◌≡◌, ℕ, ◌+◌, ◌<◌, ◌≤◌, length, false, slice_index_or};
ghost use Rattle.kernel_base.specs.declared.answer.Answer.TheVariants.{Got};
ghost use Rattle.kernel_lists.specs.Once.{AreOnce};
ghost use Rattle.buffers_signals.specs.Lists.{sender_of};
ghost use Rattle.buffers_signals.specs.Ranks.{is_unbuffered};
ghost use Rattle.buffers_signals.specs.Buffers.{Refills, times};
ghost use Rattle.buffers_signals.specs.Steps.{values};

use crate::waiting::Senders;
use kernel_base::Answer;
use value_queues::ValueQueues;
use world_model::{StoredValue, number_at};

/// The answer of a receiver. The value's scalars go along.
pub fn answer_with(alternative: u32, value: StoredValue) -> Answer
    ensures { result ≡ Got alternative value.send value.scalars value.sender }
{
    Answer::Got {
        alternative,
        send: value.send,
        scalars: value.scalars,
        by: value.sender,
    }
}

/// Stores the value of the best of those that wait to send to a buffer that has a length, and names its sender.
pub fn refill(
    lengths: &[Option<u32>],
    stored: &mut ValueQueues,
    senders: &mut Senders,
    buffer: u32,
) -> Option<u32>
    requires buffered { is_unbuffered lengths.now buffer ≡ false }
    requires room { 0 < stored.old.room }
    requires there { buffer < length stored.old.values }
    requires place { buffer < senders.old.places }
    ensures refills { (by : ℕ) → Refills (slice_index_or lengths.now buffer None) (values stored.old.values senders.old.senders) (values stored.new.values senders.new.senders) buffer by result }
    ensures once { AreOnce sender_of senders.new.senders }
    ensures each { length stored.new.values ≡ length stored.old.values }
    ensures times { (send : ℕ) → times send (values stored.new.values senders.new.senders) ≡ times send (values stored.old.values senders.old.senders) }
    ensures places { senders.new.places ≡ senders.old.places }
    ensures stored_room { stored.old.room ≤ stored.new.room + 1 }
    ensures senders_room { senders.old.room ≤ senders.new.room }
{
    senders.each_once();
    number_at(lengths, buffer)?;
    match senders.first(buffer) {
        Some(first) => {
            let offer = senders.take(first.who);
            stored.put(buffer, offer.value);
            Some(first.who)
        }
        None => None,
    }
}
