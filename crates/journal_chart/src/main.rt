//! The program that draws a journal: it reads the text of one, and writes a message sequence chart of its events, from one number
//! to another, as SVG.
//!
//! It stands on `journal_text`, which reads the text, and on `chart`, which draws. It is none of the words of `chill`.
#![tactic(auto)]

mod fault;
mod words;

use chart::{MOST_EVENTS, Names, draw};
use chill_base::Text;
use fault::{Fault, line_of, status_of};
use journal_text::{JournalRefusal, read_journal};
use std::alloc::Global;
use std::fs;
use std::io::Write;
use std::process::ExitCode;
use std::rt::{Env, Files};
use words::{Wanted, wanted_of};

// A journal has at most this many bytes.
const MAX_JOURNAL: usize = 1_073_741_824;

fn main(rt: HostRuntime) -> ExitCode {
    let (mut out, mut err) = (rt.stdout(), rt.stderr());
    let alloc = rt.alloc();
    match chart_of(&rt) {
        Ok(picture) => match out.write_all(picture.as_slice()) {
            Ok(()) => ExitCode::from(0),
            Err(_) => ExitCode::from(5),
        },
        Err(fault) => {
            if let Ok(line) = line_of(alloc, &fault) {
                let _told = err.write_all(&line);
            }
            ExitCode::from(status_of(&fault))
        }
    }
}

// The picture that the words ask for.
fn chart_of<R: Env + Files + AllocGlobal>(rt: &R) -> Result<Text, Fault> {
    let alloc = rt.alloc();
    let Some(wanted) = wanted_of(rt)? else {
        return Err(Fault::Usage);
    };
    match fs::read(rt, wanted.journal.as_str()) {
        Ok(bytes) => picture_of(alloc, &bytes, &wanted),
        Err(_) => Err(Fault::Unread),
    }
}

// The picture of a part of a journal with this text.
fn picture_of(alloc: Global, bytes: &[u8], wanted: &Wanted) -> Result<Text, Fault> {
    if bytes.len() > MAX_JOURNAL {
        return Err(Fault::TooLong);
    }
    match read_journal(alloc, bytes) {
        Ok(events) => {
            let events = events.as_slice();
            let from = wanted.from.min(events.len());
            let to = match wanted.to {
                Some(to) => to.saturating_add(1).min(events.len()),
                None => events.len(),
            };
            let count = to.saturating_sub(from);
            if count > MOST_EVENTS {
                return Err(Fault::TooMany(count));
            }
            Ok(draw(alloc, &Names::new(alloc), events, from, to)?)
        }
        Err(JournalRefusal::BadLine { line }) => Err(Fault::BadLine(line)),
        Err(JournalRefusal::Memory) => Err(Fault::Memory),
    }
}
