// A journal written as text.
ghost use Rattle.std.specs.Prelude.{◌≡◌, ◌++◌, IfOk, OnOk};
ghost use Rattle.std.specs.List.{flat_map};
ghost use Rattle.journal_text.specs.Journal as texts;

use crate::fields_written::{
    push_alternatives, push_bytes, push_exception, push_flag, push_how, push_number, push_optional,
    push_place, push_scalars,
};
use chill_base::{Memory, Text};
use kernel_base::{Answer, Event, Request};
use std::alloc::Global;

/// The text of a journal: the line `chill journal 1`, a line for each event, and the line `end` (our own choice).
pub fn write_journal(alloc: Global, events: &[Event]) -> Result<Text, Memory>
    ensures { IfOk result (λ text. text ≡ texts.journal_text events.now) }
{
    let mut text = Vec::new(alloc);
    text.extend_from_slice(b"chill journal 1\n")?;
    push_events(&mut text, events)?;
    text.extend_from_slice(b"end\n")?;
    Ok(Text::from_vec(text))
}

fn push_events(text: &mut Vec<u8>, events: &[Event]) -> Result<(), Memory>
    ensures { OnOk result (text.new.items ≡ text.old.items ++ flat_map texts.event_line events.now) }
{
    for event in events {
        push_event(text, event)?;
        text.push(b'\n')?;
    }
    Ok(())
}

pub(crate) fn push_event(text: &mut Vec<u8>, event: &Event) -> Result<(), Memory>
    ensures { OnOk result (text.new.items ≡ text.old.items ++ texts.event_text event.now) }
{
    text.extend_from_slice(event_name(event))?;
    push_details(text, event)
}

fn event_name(event: &Event) -> &'static [u8]
    ensures { result.now ≡ texts.event_name event.now }
{
    match event {
        Event::Did { .. } => b"did",
        Event::Waits { .. } => b"waits",
        Event::Goes { .. } => b"goes",
        Event::Runs { .. } => b"runs",
    }
}

fn push_details(text: &mut Vec<u8>, event: &Event) -> Result<(), Memory>
    ensures { OnOk result (text.new.items ≡ text.old.items ++ texts.details_text event.now) }
{
    match event {
        Event::Did {
            who,
            ticks,
            request,
            answer,
            refill,
        } => {
            push_number(text, *who)?;
            push_number(text, *ticks)?;
            push_request(text, request)?;
            push_answer(text, answer)?;
            push_optional(text, *refill)
        }
        Event::Waits {
            who,
            ticks,
            request,
        } => {
            push_number(text, *who)?;
            push_number(text, *ticks)?;
            push_request(text, request)
        }
        Event::Goes { who, answer } => {
            push_number(text, *who)?;
            push_answer(text, answer)
        }
        Event::Runs { who, ticks } => {
            push_number(text, *who)?;
            push_number(text, *ticks)
        }
    }
}

fn push_request(text: &mut Vec<u8>, request: &Request) -> Result<(), Memory>
    ensures { OnOk result (text.new.items ≡ text.old.items ++ texts.request_text request.now) }
{
    text.extend_from_slice(request_name(request))?;
    push_operands(text, request)
}

fn request_name(request: &Request) -> &'static [u8]
    ensures { result.now ≡ texts.request_name request.now }
{
    match request {
        Request::Read { .. } => b" read",
        Request::Write { .. } => b" write",
        Request::Enter { .. } => b" enter",
        Request::Leave { .. } => b" leave",
        Request::Delay { .. } => b" delay",
        Request::Continue { .. } => b" continue",
        Request::SendBuffer { .. } => b" sendb",
        Request::ReceiveBuffer { .. } => b" recvb",
        Request::SendSignal { .. } => b" sends",
        Request::ReceiveSignal { .. } => b" recvs",
        Request::Start { .. } => b" start",
        Request::Put { .. } => b" put",
        Request::Get => b" get",
        Request::End { .. } => b" end",
    }
}

fn push_operands(text: &mut Vec<u8>, request: &Request) -> Result<(), Memory>
    ensures { OnOk result (text.new.items ≡ text.old.items ++ texts.operands_text request.now) }
{
    match request {
        Request::Read { place } => push_place(text, *place),
        Request::Write { place, scalars } => {
            push_place(text, *place)?;
            push_scalars(text, scalars.as_slice())
        }
        Request::Enter { region } | Request::Leave { region } => push_number(text, *region),
        Request::Delay { events, priority } => {
            push_alternatives(text, events.as_slice())?;
            push_number(text, *priority)
        }
        Request::Continue { event } => push_number(text, *event),
        Request::SendBuffer {
            buffer,
            scalars,
            priority,
        } => {
            push_number(text, *buffer)?;
            push_scalars(text, scalars.as_slice())?;
            push_number(text, *priority)
        }
        Request::ReceiveBuffer { buffers, otherwise } => {
            push_alternatives(text, buffers.as_slice())?;
            push_flag(text, *otherwise)
        }
        Request::SendSignal {
            signal,
            scalars,
            to,
            priority,
        } => {
            push_number(text, *signal)?;
            push_scalars(text, scalars.as_slice())?;
            push_optional(text, *to)?;
            push_number(text, *priority)
        }
        Request::ReceiveSignal { signals, otherwise } => {
            push_alternatives(text, signals.as_slice())?;
            push_flag(text, *otherwise)
        }
        Request::Start { process, scalars } => {
            push_number(text, *process)?;
            push_scalars(text, scalars.as_slice())
        }
        Request::Put { bytes } => push_bytes(text, bytes.as_slice()),
        Request::Get => Ok(()),
        Request::End { how } => push_how(text, *how),
    }
}

fn push_answer(text: &mut Vec<u8>, answer: &Answer) -> Result<(), Memory>
    ensures { OnOk result (text.new.items ≡ text.old.items ++ texts.answer_text answer.now) }
{
    text.extend_from_slice(answer_name(answer))?;
    push_told(text, answer)
}

fn answer_name(answer: &Answer) -> &'static [u8]
    ensures { result.now ≡ texts.answer_name answer.now }
{
    match answer {
        Answer::Value(_) => b" value",
        Answer::Done => b" done",
        Answer::Woken { .. } => b" woken",
        Answer::Got { .. } => b" got",
        Answer::Otherwise => b" otherwise",
        Answer::Instance(_) => b" instance",
        Answer::Fail(_) => b" fail",
        Answer::Chose(_) => b" chose",
        Answer::Handed(_) => b" handed",
        Answer::Stored => b" stored",
    }
}

// What an answer tells.
fn push_told(text: &mut Vec<u8>, answer: &Answer) -> Result<(), Memory>
    ensures { OnOk result (text.new.items ≡ text.old.items ++ texts.told_text answer.now) }
{
    match answer {
        Answer::Value(scalars) => push_scalars(text, scalars.as_slice()),
        Answer::Woken { alternative, by } => {
            push_number(text, *alternative)?;
            push_number(text, *by)
        }
        Answer::Got {
            alternative,
            send,
            scalars,
            by,
        } => {
            push_number(text, *alternative)?;
            push_number(text, *send)?;
            push_scalars(text, scalars.as_slice())?;
            push_number(text, *by)
        }
        Answer::Instance(instance) | Answer::Handed(instance) => push_number(text, *instance),
        Answer::Fail(exception) => push_exception(text, *exception),
        Answer::Chose(chosen) => push_optional(text, *chosen),
        Answer::Done | Answer::Otherwise | Answer::Stored => Ok(()),
    }
}
