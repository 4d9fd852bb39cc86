// Requests, guessed from their fields.
ghost use Rattle.std.specs.Prelude.{◌≡◌};
ghost use Rattle.journal_text.specs.Reading as reading;
ghost use Rattle.journal_text.specs.declared.kinds.RequestKind.TheVariants as asked;

use crate::fields_read::{read_flag, read_how, read_number, read_optional, read_place, read_word};
use crate::kinds::{RequestKind, request_kind};
use crate::lists_read::{read_alternatives, read_bytes, read_scalars};
use crate::unread::Unread;
use kernel_base::Request;
use std::alloc::Global;

#[tactic(auto, unfolding(crate::specs::Reading::operands_at))]
fn read(bytes: &[u8]) -> Result<(Request, &[u8]), Unread>
    ensures { reading.Gives (λ x. (x.0, x.1.now)) result (reading.operands_at asked.Read bytes.now) }
{
    let (place, rest) = read_place(bytes)?;
    Ok((Request::Read { place }, rest))
}

#[tactic(auto, unfolding(crate::specs::Reading::operands_at))]
fn write(alloc: Global, bytes: &[u8]) -> Result<(Request, &[u8]), Unread>
    ensures { reading.Gives (λ x. (x.0, x.1.now)) result (reading.operands_at asked.Write bytes.now) }
{
    let (place, rest) = read_place(bytes)?;
    let (scalars, rest) = read_scalars(alloc, rest)?;
    Ok((Request::Write { place, scalars }, rest))
}

#[tactic(auto, unfolding(crate::specs::Reading::operands_at))]
fn enter(bytes: &[u8]) -> Result<(Request, &[u8]), Unread>
    ensures { reading.Gives (λ x. (x.0, x.1.now)) result (reading.operands_at asked.Enter bytes.now) }
{
    let (region, rest) = read_number(bytes)?;
    Ok((Request::Enter { region }, rest))
}

#[tactic(auto, unfolding(crate::specs::Reading::operands_at))]
fn leave(bytes: &[u8]) -> Result<(Request, &[u8]), Unread>
    ensures { reading.Gives (λ x. (x.0, x.1.now)) result (reading.operands_at asked.Leave bytes.now) }
{
    let (region, rest) = read_number(bytes)?;
    Ok((Request::Leave { region }, rest))
}

#[tactic(auto, unfolding(crate::specs::Reading::operands_at))]
fn delay(alloc: Global, bytes: &[u8]) -> Result<(Request, &[u8]), Unread>
    ensures { reading.Gives (λ x. (x.0, x.1.now)) result (reading.operands_at asked.Delay bytes.now) }
{
    let (events, rest) = read_alternatives(alloc, bytes)?;
    let (priority, rest) = read_number(rest)?;
    Ok((Request::Delay { events, priority }, rest))
}

#[tactic(auto, unfolding(crate::specs::Reading::operands_at))]
fn continue_(bytes: &[u8]) -> Result<(Request, &[u8]), Unread>
    ensures { reading.Gives (λ x. (x.0, x.1.now)) result (reading.operands_at asked.Continue bytes.now) }
{
    let (event, rest) = read_number(bytes)?;
    Ok((Request::Continue { event }, rest))
}

#[tactic(auto, unfolding(crate::specs::Reading::operands_at))]
fn send_buffer(alloc: Global, bytes: &[u8]) -> Result<(Request, &[u8]), Unread>
    ensures { reading.Gives (λ x. (x.0, x.1.now)) result (reading.operands_at asked.SendBuffer bytes.now) }
{
    let (buffer, rest) = read_number(bytes)?;
    let (scalars, rest) = read_scalars(alloc, rest)?;
    let (priority, rest) = read_number(rest)?;
    Ok((
        Request::SendBuffer {
            buffer,
            scalars,
            priority,
        },
        rest,
    ))
}

#[tactic(auto, unfolding(crate::specs::Reading::operands_at))]
fn receive_buffer(alloc: Global, bytes: &[u8]) -> Result<(Request, &[u8]), Unread>
    ensures { reading.Gives (λ x. (x.0, x.1.now)) result (reading.operands_at asked.ReceiveBuffer bytes.now) }
{
    let (buffers, rest) = read_alternatives(alloc, bytes)?;
    let (otherwise, rest) = read_flag(rest)?;
    Ok((Request::ReceiveBuffer { buffers, otherwise }, rest))
}

#[tactic(auto, unfolding(crate::specs::Reading::operands_at))]
fn send_signal(alloc: Global, bytes: &[u8]) -> Result<(Request, &[u8]), Unread>
    ensures { reading.Gives (λ x. (x.0, x.1.now)) result (reading.operands_at asked.SendSignal bytes.now) }
{
    let (signal, rest) = read_number(bytes)?;
    let (scalars, rest) = read_scalars(alloc, rest)?;
    let (to, rest) = read_optional(rest)?;
    let (priority, rest) = read_number(rest)?;
    Ok((
        Request::SendSignal {
            signal,
            scalars,
            to,
            priority,
        },
        rest,
    ))
}

#[tactic(auto, unfolding(crate::specs::Reading::operands_at))]
fn receive_signal(alloc: Global, bytes: &[u8]) -> Result<(Request, &[u8]), Unread>
    ensures { reading.Gives (λ x. (x.0, x.1.now)) result (reading.operands_at asked.ReceiveSignal bytes.now) }
{
    let (signals, rest) = read_alternatives(alloc, bytes)?;
    let (otherwise, rest) = read_flag(rest)?;
    Ok((Request::ReceiveSignal { signals, otherwise }, rest))
}

#[tactic(auto, unfolding(crate::specs::Reading::operands_at))]
fn start(alloc: Global, bytes: &[u8]) -> Result<(Request, &[u8]), Unread>
    ensures { reading.Gives (λ x. (x.0, x.1.now)) result (reading.operands_at asked.Start bytes.now) }
{
    let (process, rest) = read_number(bytes)?;
    let (scalars, rest) = read_scalars(alloc, rest)?;
    Ok((Request::Start { process, scalars }, rest))
}

#[tactic(auto, unfolding(crate::specs::Reading::operands_at))]
fn put(alloc: Global, bytes: &[u8]) -> Result<(Request, &[u8]), Unread>
    ensures { reading.Gives (λ x. (x.0, x.1.now)) result (reading.operands_at asked.Put bytes.now) }
{
    let (put, rest) = read_bytes(alloc, bytes)?;
    Ok((Request::Put { bytes: put }, rest))
}

#[tactic(auto, unfolding(crate::specs::Reading::operands_at))]
fn end(bytes: &[u8]) -> Result<(Request, &[u8]), Unread>
    ensures { reading.Gives (λ x. (x.0, x.1.now)) result (reading.operands_at asked.End bytes.now) }
{
    let (how, rest) = read_how(bytes)?;
    Ok((Request::End { how }, rest))
}

// What a request of this kind asks.
#[tactic(auto, unfolding(crate::specs::Reading::operands_at))]
fn read_operands(alloc: Global, kind: RequestKind, bytes: &[u8]) -> Result<(Request, &[u8]), Unread>
    ensures { reading.Gives (λ x. (x.0, x.1.now)) result (reading.operands_at kind bytes.now) }
{
    match kind {
        RequestKind::Read => read(bytes),
        RequestKind::Write => write(alloc, bytes),
        RequestKind::Enter => enter(bytes),
        RequestKind::Leave => leave(bytes),
        RequestKind::Delay => delay(alloc, bytes),
        RequestKind::Continue => continue_(bytes),
        RequestKind::SendBuffer => send_buffer(alloc, bytes),
        RequestKind::ReceiveBuffer => receive_buffer(alloc, bytes),
        RequestKind::SendSignal => send_signal(alloc, bytes),
        RequestKind::ReceiveSignal => receive_signal(alloc, bytes),
        RequestKind::Start => start(alloc, bytes),
        RequestKind::Put => put(alloc, bytes),
        RequestKind::Get => Ok((Request::Get, bytes)),
        RequestKind::End => end(bytes),
    }
}

#[tactic(auto, unfolding(crate::specs::Reading::request_at))]
pub(crate) fn read_request(alloc: Global, bytes: &[u8]) -> Result<(Request, &[u8]), Unread>
    ensures { reading.Gives (λ x. (x.0, x.1.now)) result (reading.request_at bytes.now) }
{
    let (word, rest) = read_word(bytes)?;
    match request_kind(word) {
        Some(kind) => read_operands(alloc, kind, rest),
        None => Err(Unread::NoEvent),
    }
}
