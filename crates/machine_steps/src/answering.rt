// Which answers a waiting process takes.
ghost use Rattle.std.specs.Prelude.{◌≡◌, map, None, slice_index_or, Some};
ghost use Rattle.kernel_base.specs.declared.answer.Answer.TheVariants.{Value};
ghost use Rattle.machine_steps.specs.Answering.{takes_answer};
ghost use Rattle.machine_steps.specs.Views.{slot_of, state_of};
ghost use Rattle.code_types.specs.Answers.{fills_slot, gives, gives_continue, gives_delay, gives_get, gives_read, gives_receive, gives_send_buffer, gives_send_signal, gives_start, is_done, is_listed, is_some_number, no_slot};
ghost use Rattle.world_model.specs.Lists.{number_for};

use crate::process::{Doing, Process, SlotEntry};
use kernel_base::{Alternative, Answer, Exc, Request};
use machine_frames::numbers::int_or_none;

// The number of the first alternative that lists this thing.
fn first_number(alternatives: &[Alternative], thing: u32) -> Option<u32>
    ensures { result ≡ number_for alternatives.now thing }
{
    for alternative in alternatives {
        if alternative.thing == thing {
            return Some(alternative.number);
        }
    }
    None
}

// Whether the number is that of the first alternative that lists the same thing as this one.
fn is_first(alternatives: &[Alternative], alternative: Alternative, number: u32) -> bool
    ensures { result ≡ is_some_number (number_for alternatives.now alternative.thing) number }
{
    match first_number(alternatives, alternative.thing) {
        Some(first) => first == number,
        None => false,
    }
}

// Whether the number is that of the first alternative of something that is listed.
fn lists(alternatives: &[Alternative], number: u32) -> bool
    ensures { result ≡ is_listed alternatives.now number }
{
    for alternative in alternatives {
        if is_first(alternatives, *alternative, number) {
            return true;
        }
    }
    false
}

// Whether the answer can come for a receive.
fn comes_to_receive(things: &[Alternative], otherwise: bool, answer: &Answer) -> bool
    ensures { result ≡ gives_receive things.now otherwise answer.now }
{
    match answer {
        Answer::Got {
            alternative,
            send,
            scalars: _,
            by,
        } => lists(things, *alternative) && 1 <= *send && 1 <= *by,
        Answer::Otherwise => otherwise,
        Answer::Value(_)
        | Answer::Done
        | Answer::Woken { .. }
        | Answer::Instance(_)
        | Answer::Fail(_)
        | Answer::Chose(_)
        | Answer::Handed(_)
        | Answer::Stored => false,
    }
}

// Whether the answer is Done.
fn is_done_answer(answer: &Answer) -> bool
    ensures { result ≡ is_done answer.now }
{
    match answer {
        Answer::Done => true,
        Answer::Value(_)
        | Answer::Woken { .. }
        | Answer::Got { .. }
        | Answer::Otherwise
        | Answer::Instance(_)
        | Answer::Fail(_)
        | Answer::Chose(_)
        | Answer::Handed(_)
        | Answer::Stored => false,
    }
}

// Whether the answer can come for a read of so many scalars.
fn comes_to_read(count: u32, answer: &Answer) -> bool
    ensures { result ≡ gives_read count answer.now }
{
    match answer {
        Answer::Value(scalars) => scalars.len() == count as usize,
        Answer::Done
        | Answer::Woken { .. }
        | Answer::Got { .. }
        | Answer::Otherwise
        | Answer::Instance(_)
        | Answer::Fail(_)
        | Answer::Chose(_)
        | Answer::Handed(_)
        | Answer::Stored => false,
    }
}

// Whether the answer can come for a delay.
fn comes_to_delay(events: &[Alternative], answer: &Answer) -> bool
    ensures { result ≡ gives_delay events.now answer.now }
{
    match answer {
        Answer::Fail(Exc::Delayfail) => true,
        Answer::Woken { alternative, by } => lists(events, *alternative) && 1 <= *by,
        Answer::Value(_)
        | Answer::Done
        | Answer::Got { .. }
        | Answer::Otherwise
        | Answer::Instance(_)
        | Answer::Fail(_)
        | Answer::Chose(_)
        | Answer::Handed(_)
        | Answer::Stored => false,
    }
}

// Whether the answer can come for a CONTINUE.
fn comes_to_continue(answer: &Answer) -> bool
    ensures { result ≡ gives_continue answer.now }
{
    match answer {
        Answer::Chose(None) => true,
        Answer::Chose(Some(process)) => 1 <= *process,
        Answer::Value(_)
        | Answer::Done
        | Answer::Woken { .. }
        | Answer::Got { .. }
        | Answer::Otherwise
        | Answer::Instance(_)
        | Answer::Fail(_)
        | Answer::Handed(_)
        | Answer::Stored => false,
    }
}

// Whether the answer can come for a send to a buffer.
fn comes_to_send_buffer(answer: &Answer) -> bool
    ensures { result ≡ gives_send_buffer answer.now }
{
    match answer {
        Answer::Handed(process) => 1 <= *process,
        Answer::Stored => true,
        Answer::Value(_)
        | Answer::Done
        | Answer::Woken { .. }
        | Answer::Got { .. }
        | Answer::Otherwise
        | Answer::Instance(_)
        | Answer::Fail(_)
        | Answer::Chose(_) => false,
    }
}

// Whether the answer can come for a start.
fn comes_to_start(answer: &Answer) -> bool
    ensures { result ≡ gives_start answer.now }
{
    match answer {
        Answer::Fail(Exc::Spacefail) => true,
        Answer::Instance(instance) => 2 <= *instance,
        Answer::Value(_)
        | Answer::Done
        | Answer::Woken { .. }
        | Answer::Got { .. }
        | Answer::Otherwise
        | Answer::Fail(_)
        | Answer::Chose(_)
        | Answer::Handed(_)
        | Answer::Stored => false,
    }
}

// Whether the answer can come for a signal that is sent to an instance.
fn comes_to_send_to(instance: u32, answer: &Answer) -> bool
    ensures { result ≡ gives_send_signal (Some instance) answer.now }
{
    match answer {
        Answer::Fail(Exc::Empty) => instance == 0,
        Answer::Fail(Exc::Extinct) => instance != 0,
        Answer::Handed(process) => instance != 0 && *process == instance,
        Answer::Stored => instance != 0,
        Answer::Value(_)
        | Answer::Done
        | Answer::Woken { .. }
        | Answer::Got { .. }
        | Answer::Otherwise
        | Answer::Instance(_)
        | Answer::Fail(_)
        | Answer::Chose(_) => false,
    }
}

// Whether the answer can come for a signal that is sent to whoever may receive it.
fn comes_to_send_to_any(answer: &Answer) -> bool
    ensures { result ≡ gives_send_signal None answer.now }
{
    match answer {
        Answer::Handed(process) => 1 <= *process,
        Answer::Stored => true,
        Answer::Value(_)
        | Answer::Done
        | Answer::Woken { .. }
        | Answer::Got { .. }
        | Answer::Otherwise
        | Answer::Instance(_)
        | Answer::Fail(_)
        | Answer::Chose(_) => false,
    }
}

// Whether the scalars are one value of INT.
fn is_one_int(scalars: &[i64]) -> bool
    ensures { result ≡ gives_get (Value scalars.now) }
{
    match scalars {
        [number] => int_or_none(*number).is_some(),
        _ => false,
    }
}

// Whether the answer can come for a number of the input.
fn comes_to_get(answer: &Answer) -> bool
    ensures { result ≡ gives_get answer.now }
{
    match answer {
        Answer::Value(scalars) => is_one_int(scalars.as_slice()),
        Answer::Fail(Exc::Empty) => true,
        Answer::Fail(Exc::Rangefail) => true,
        Answer::Done
        | Answer::Woken { .. }
        | Answer::Got { .. }
        | Answer::Otherwise
        | Answer::Instance(_)
        | Answer::Fail(_)
        | Answer::Chose(_)
        | Answer::Handed(_)
        | Answer::Stored => false,
    }
}

// How many scalars the slot of an alternative takes.
fn slot_count(slots: &[SlotEntry], alternative: u32) -> usize
    ensures { result ≡ (slice_index_or (map slot_of slots.now) alternative no_slot).count }
{
    if (alternative as usize) < slots.len() {
        slots[alternative as usize].count
    } else {
        0
    }
}

// Whether as many scalars come as the slot of their alternative takes.
fn fills(slots: &[SlotEntry], answer: &Answer) -> bool
    ensures { result ≡ fills_slot (map slot_of slots.now) answer.now }
{
    match answer {
        Answer::Got {
            alternative,
            send: _,
            scalars,
            by: _,
        } => scalars.len() == slot_count(slots, *alternative),
        Answer::Value(_)
        | Answer::Done
        | Answer::Woken { .. }
        | Answer::Otherwise
        | Answer::Instance(_)
        | Answer::Fail(_)
        | Answer::Chose(_)
        | Answer::Handed(_)
        | Answer::Stored => true,
    }
}

/// Whether the answer can come for the request.
pub fn can_come(request: &Request, answer: &Answer) -> bool
    ensures { result ≡ gives request.now answer.now }
{
    match request {
        Request::Read { place } => comes_to_read(place.count, answer),
        Request::Delay { events, .. } => comes_to_delay(events.as_slice(), answer),
        Request::Continue { .. } => comes_to_continue(answer),
        Request::SendBuffer { .. } => comes_to_send_buffer(answer),
        Request::ReceiveBuffer { buffers, otherwise } => {
            comes_to_receive(buffers.as_slice(), *otherwise, answer)
        }
        Request::SendSignal { to: Some(to), .. } => comes_to_send_to(*to, answer),
        Request::SendSignal { to: None, .. } => comes_to_send_to_any(answer),
        Request::ReceiveSignal { signals, otherwise } => {
            comes_to_receive(signals.as_slice(), *otherwise, answer)
        }
        Request::Start { .. } => comes_to_start(answer),
        Request::Get => comes_to_get(answer),
        Request::Write { .. }
        | Request::Enter { .. }
        | Request::Leave { .. }
        | Request::Put { .. }
        | Request::End { .. } => is_done_answer(answer),
    }
}

impl Process {
    /// Whether a request waits for which the answer can come, and the answer has as many scalars as the waiting instruction
    /// takes.
    pub fn can_answer(&self, answer: &Answer) -> bool
        ensures { result ≡ takes_answer (state_of self.now).mode answer.now }
    {
        match &self.doing {
            Doing::Asking { request, slots } => can_come(request, answer) && fills(slots, answer),
            Doing::Running | Doing::Called | Doing::Raising(_) | Doing::Ended => false,
        }
    }
}
