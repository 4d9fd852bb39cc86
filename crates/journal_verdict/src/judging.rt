// A journal's text is read, and its events are held against a code.
ghost use Rattle.std.specs.Prelude.{◌<◌, ◌^◌, IfOk, length};
ghost use Rattle.kernel_base.specs.Facts.{IsSound};
ghost use Rattle.journal_verdict.specs.Judgements.{IsEventsJudgement, IsJudgement};

use chill_base::Memory;
use code_guard::Guarded;
use journal_text::{JournalRefusal, read_journal};
use kernel_base::{Event, Facts};
use run_checker::{CheckRefusal, Verdict, check_run};
use std::alloc::Global;
use world_check::sound_facts_law;

/// What a text is to a code, as a journal.
#[derive(Drop)]
pub enum Judgement {
    /// It is no journal: this line, counted from 1, can't stand there.
    BadLine { line: u32 },
    /// Its events have more units than are held against a code.
    TooLong,
    /// It has events, and this is what they are to the code.
    Judged(Verdict),
}

/// What a text is to a code and facts, as a journal.
pub fn judge_text(
    alloc: Global,
    guarded: &Guarded,
    facts: &Facts,
    text: &[u8],
) -> Result<Judgement, Memory>
    requires sound { IsSound facts.now }
    requires few_bytes { length text.now < 2 ^ 32 }
    ensures { IfOk result (IsJudgement guarded.now facts.now text.now) }
{
    match read_journal(alloc, text) {
        Ok(events) => judge_events(alloc, guarded, facts, events.as_slice()),
        Err(JournalRefusal::BadLine { line }) => Ok(Judgement::BadLine { line }),
        Err(JournalRefusal::Memory) => Err(Memory),
    }
}

// What events are to a code and facts.
fn judge_events(
    alloc: Global,
    guarded: &Guarded,
    facts: &Facts,
    events: &[Event],
) -> Result<Judgement, Memory>
    requires sound { IsSound facts.now }
    ensures { IfOk result (IsEventsJudgement guarded.now facts.now events.now) }
{
    sound_facts_law();
    match check_run(alloc, guarded, facts, events) {
        Ok(verdict) => Ok(Judgement::Judged(verdict)),
        Err(CheckRefusal::TooLong) => Ok(Judgement::TooLong),
        Err(CheckRefusal::Memory) => Err(Memory),
    }
}
