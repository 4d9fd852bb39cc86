// The status of a plan, and what is to be written with it.
ghost use Rattle.std.specs.Prelude.{◌≡◌, [], IfOk};
ghost use Rattle.chill_top.specs.Plan as plans;
ghost use Rattle.chill_top.specs.Runs as runs;
ghost use Rattle.journal_verdict.specs.Lines as verdicts;
ghost use Rattle.run_texts.specs.Report.{report_of};

use crate::plan::{Plan, Ran};
use chill_base::{Memory, Text};
use journal_text::write_journal;
use journal_verdict::{Judgement, err_of, out_of};
use kernel_base::{Event, How, Over, Request};
use list_texts::{code_text, layout_text};
use listing::diagnostics_text;
use run_texts::{output_text, report_text};
use serial_run::Driven;
use std::alloc::Global;
use text_to_code::Built;

// The line for words that are no command.
const USAGE: &str =
    "usage: chill run FILE [--workers N] [--units N] [--watch] | check FILE | list FILE | format FILE | make N | record FILE [--workers N] [--units N] | replay FILE JOURNAL [--units N]\n";

// The line for an input that is too long.
const TOO_LONG: &str = "input longer than 1048576 bytes\n";

// The line for a journal that is too long.
const JOURNAL_TOO_LONG: &str = "journal longer than 1073741824 bytes\n";

/// What is to be written.
#[derive(Drop)]
pub(crate) struct Texts {
    pub out: Text,
    pub err: Text,
}

/// The status of a plan, where all that it says is written.
pub(crate) fn status_of(plan: &Plan) -> u8
    ensures { result ≡ plans.status_of plan.now }
{
    match plan {
        Plan::Usage => 2,
        Plan::Refused(_) => 3,
        Plan::Accepted | Plan::Listed(_) | Plan::Formatted(_) => 0,
        Plan::InputTooLong => 9,
        Plan::Ran(ran) => status_of_run(&ran.driven),
        Plan::JournalTooLong => 10,
        Plan::Judged(judgement) => journal_verdict::status_of(judgement),
    }
}

fn status_of_run(driven: &Driven) -> u8
    ensures { result ≡ runs.status_of_run driven.now.over driven.now.events }
{
    match driven.over {
        Over::AllEnded => {
            if is_some_raised(driven.events.as_slice()) {
                1
            } else {
                0
            }
        }
        Over::Still => 6,
        Over::Spent => 7,
    }
}

// Whether some process ended with an exception.
fn is_some_raised(events: &[Event]) -> bool
    ensures { result ≡ runs.is_some_raised events.now }
{
    for event in events {
        if is_raised(event) {
            return true;
        }
    }
    false
}

fn is_raised(event: &Event) -> bool
    ensures { result ≡ runs.is_raised event.now }
{
    match event {
        Event::Did {
            request: Request::End {
                how: How::Raised(_),
            },
            ..
        } => true,
        _ => false,
    }
}

/// What a plan writes: of a run its output, or its journal.
pub(crate) fn texts_of(alloc: Global, journal: bool, plan: &Plan) -> Result<Texts, Memory>
    ensures out { IfOk result (λ texts. texts.out ≡ plans.out_of journal plan.now) }
    ensures err { IfOk result (λ texts. texts.err ≡ plans.err_of plan.now) }
{
    match plan {
        Plan::Usage => Ok(report(alloc, copy_of(alloc, USAGE.as_bytes())?)),
        Plan::Refused(told) => Ok(report(alloc, diagnostics_text(alloc, told)?)),
        Plan::Accepted => Ok(report(alloc, Text::new(alloc))),
        Plan::Listed(built) => Ok(output(alloc, listing(alloc, built)?)),
        Plan::Formatted(canonical) => Ok(output(alloc, copy_of(alloc, canonical.as_slice())?)),
        Plan::InputTooLong => Ok(report(alloc, copy_of(alloc, TOO_LONG.as_bytes())?)),
        Plan::Ran(ran) => texts_of_run(alloc, journal, ran),
        Plan::JournalTooLong => Ok(report(alloc, copy_of(alloc, JOURNAL_TOO_LONG.as_bytes())?)),
        Plan::Judged(judgement) => texts_of_judgement(alloc, judgement),
    }
}

fn texts_of_judgement(alloc: Global, judgement: &Judgement) -> Result<Texts, Memory>
    ensures out { IfOk result (λ texts. texts.out ≡ verdicts.out_of judgement.now) }
    ensures err { IfOk result (λ texts. texts.err ≡ verdicts.err_of judgement.now) }
{
    let out = out_of(alloc, judgement)?;
    let err = err_of(alloc, judgement)?;
    Ok(Texts { out, err })
}

fn copy_of(alloc: Global, bytes: &[u8]) -> Result<Text, Memory>
    ensures { IfOk result (λ copy. copy ≡ bytes.now) }
{
    Ok(Text::from_vec(bytes.to_vec(alloc)?))
}

// The layout of a program, and its code.
fn listing(alloc: Global, built: &Built) -> Result<Text, Memory>
    ensures { IfOk result (λ text. text ≡ plans.listing_of built.now) }
{
    let mut text = layout_text(alloc, built.program.checked())?;
    let code = code_text(alloc, built.code.code())?;
    text.room().extend_from_slice(code.as_slice())?;
    Ok(text)
}

// An output without a report.
fn output(alloc: Global, out: Text) -> Texts
    ensures { (result.out ≡ out) × (result.err ≡ []) }
{
    Texts {
        out,
        err: Text::new(alloc),
    }
}

// A report without output.
fn report(alloc: Global, err: Text) -> Texts
    ensures { (result.out ≡ []) × (result.err ≡ err) }
{
    Texts {
        out: Text::new(alloc),
        err,
    }
}

// What is written of events: their output, or their text.
fn written(alloc: Global, journal: bool, events: &[Event]) -> Result<Text, Memory>
    ensures { IfOk result (λ text. text ≡ plans.written_of journal events.now) }
{
    if journal {
        write_journal(alloc, events)
    } else {
        output_text(alloc, events)
    }
}

fn texts_of_run(alloc: Global, journal: bool, ran: &Ran) -> Result<Texts, Memory>
    ensures out { IfOk result (λ texts. texts.out
        ≡ plans.written_of journal ran.now.driven.value.events) }
    ensures err { IfOk result (λ texts. texts.err
        ≡ report_of ran.now.built.value.program.checked.value ran.now.driven.value.events
        ran.now.driven.value.over) }
{
    let driven = &ran.driven;
    let events = driven.events.as_slice();
    let out = written(alloc, journal, events)?;
    let err = report_text(alloc, ran.built.program.checked(), events, driven.over)?;
    Ok(Texts { out, err })
}
