// A text read as a journal. The event of a line is guessed from its fields, and the line is compared with what is written
// of it: so what is read has that one text.
ghost use Rattle.std.specs.Prelude.{◌≡◌, ◌++◌, ◌<◌, ◌+◌, ◌^◌, IfSome, IfNone, OnOk, length};
ghost use Rattle.journal_text.specs.Journal as texts;
ghost use Rattle.journal_text.specs.Lines as lines;

use crate::JournalRefusal;
use crate::events_read::guess_event;
use crate::unread::Unread;
use crate::writing::push_event;
use chill_base::Memory;
use kernel_base::{Event, Events};
use std::alloc::Global;
use world_check::event_in_range;

// What stands behind a line.
fn behind<'a>(line: &[u8], bytes: &'a [u8]) -> Option<&'a [u8]>
    ensures some { IfSome result (λ rest. bytes.now ≡ line.now ++ rest.now) }
    ensures none { IfNone result (lines.IsNoLine line.now bytes.now) }
{
    if bytes.len() < line.len() {
        return None;
    }
    let (front, rest) = bytes.split_at(line.len());
    if front == line { Some(rest) } else { None }
}

fn write_line(line: &mut Vec<u8>, event: &Event) -> Result<(), Memory>
    ensures { OnOk result (line.new.items ≡ texts.event_line event.now) }
{
    line.clear();
    push_event(line, event)?;
    line.push(b'\n')?;
    Ok(())
}

// The event of the first line, and the lines behind it. What it is to be is written to `line`.
fn read_line<'a>(
    alloc: Global,
    line: &mut Vec<u8>,
    bytes: &'a [u8],
) -> Result<(Event, &'a [u8]), Unread>
    requires few_bytes { length bytes.now < 2 ^ 32 }
    ensures { lines.IsLineRead bytes.now result }
{
    let (event, _) = guess_event(alloc, bytes)?;
    write_line(line, &event)?;
    if !event_in_range(&event) {
        return Err(Unread::NoEvent);
    }
    match behind(line, bytes) {
        Some(rest) => Ok((event, rest)),
        None => Err(Unread::NoEvent),
    }
}

// The line that can't stand there, behind so many events and perhaps the last line.
fn bad_line(count: usize, rest: &[u8]) -> u32
    requires { count + 3 < 2 ^ 32 }
    ensures { lines.IsBehind count rest.now result }
{
    match behind(b"end\n", rest) {
        Some(_) => count as u32 + 3,
        None => count as u32 + 2,
    }
}

// The events of the lines behind the first one.
fn read_lines(alloc: Global, bytes: &[u8]) -> Result<Events, JournalRefusal>
    requires few_bytes { length bytes.now + 16 < 2 ^ 32 }
    ensures { lines.AreLinesRead bytes.now result }
{
    let mut events = Vec::new(alloc);
    let mut line = Vec::new(alloc);
    let mut rest = bytes;
    'lines: while rest != b"end\n".as_slice() {
        match read_line(alloc, &mut line, rest) {
            Ok((event, behind)) => {
                events.push(event)?;
                rest = behind;
            }
            Err(Unread::NoEvent) => {
                let line = bad_line(events.len(), rest);
                return Err(JournalRefusal::BadLine { line });
            }
            Err(Unread::Memory) => return Err(JournalRefusal::Memory),
        }
    }
    Ok(Events::from_vec(events))
}

/// The events whose text it is, or the first line that can't stand there (our own choice).
pub fn read_journal(alloc: Global, text: &[u8]) -> Result<Events, JournalRefusal>
    requires few_bytes { length text.now < 2 ^ 32 }
    ensures { lines.IsRead text.now result }
{
    match behind(b"chill journal 1\n", text) {
        Some(rest) => read_lines(alloc, rest),
        None => Err(JournalRefusal::BadLine { line: 1 }),
    }
}

/// Two journals that have one text are one.
pub fn one_journal_law()
    ensures { lines.OneJournalLaw }
{}
