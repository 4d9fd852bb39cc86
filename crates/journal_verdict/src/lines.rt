// The line that is written of a journal's text, and the status.
ghost use Rattle.std.specs.Prelude.{◌≡◌, ◌++◌, IfOk, OnOk};
ghost use Rattle.std.specs.Fmt.{decimal};
ghost use Rattle.journal_verdict.specs.Lines as lines;

use crate::Judgement;
use chill_base::{Memory, Text};
use kernel_base::Over;
use run_checker::Verdict;
use std::alloc::Global;

/// The status of a judgement, where all that it says is written.
pub fn status_of(judgement: &Judgement) -> u8
    ensures { result ≡ lines.status_of judgement.now }
{
    match judgement {
        Judgement::BadLine { .. } | Judgement::TooLong => 10,
        Judgement::Judged(Verdict::Yes { .. }) => 0,
        Judgement::Judged(Verdict::No { .. }) => 11,
    }
}

/// What is written to out: of a run how many events it has, and how it is over.
pub fn out_of(alloc: Global, judgement: &Judgement) -> Result<Text, Memory>
    ensures { IfOk result (λ text. text ≡ lines.out_of judgement.now) }
{
    let mut text = Vec::new(alloc);
    match judgement {
        Judgement::Judged(Verdict::Yes { count, over }) => push_run(
            alloc, &mut text, *count, *over,
        )?,
        Judgement::Judged(Verdict::No { .. }) | Judgement::BadLine { .. } | Judgement::TooLong => {}
    }
    Ok(Text::from_vec(text))
}

/// What is written to err: why the text is no run, or isn't decided.
pub fn err_of(alloc: Global, judgement: &Judgement) -> Result<Text, Memory>
    ensures { IfOk result (λ text. text ≡ lines.err_of judgement.now) }
{
    let mut text = Vec::new(alloc);
    match judgement {
        Judgement::BadLine { line } => push_bad_line(alloc, &mut text, *line)?,
        Judgement::TooLong => text.extend_from_slice(b"journal of more than 20000000 units\n")?,
        Judgement::Judged(Verdict::Yes { .. }) => {}
        Judgement::Judged(Verdict::No { at }) => push_not_allowed(alloc, &mut text, *at)?,
    }
    Ok(Text::from_vec(text))
}

fn push_run(alloc: Global, text: &mut Vec<u8>, count: u32, over: Option<Over>) -> Result<(), Memory>
    ensures { OnOk result (text.new.items ≡ text.old.items ++ lines.run_line count over) }
{
    text.extend_from_slice(b"a run of ")?;
    push_number(alloc, text, count)?;
    text.extend_from_slice(b" events: ")?;
    text.extend_from_slice(word_of(over))?;
    text.push(b'\n')?;
    Ok(())
}

fn push_bad_line(alloc: Global, text: &mut Vec<u8>, line: u32) -> Result<(), Memory>
    ensures { OnOk result (text.new.items ≡ text.old.items ++ lines.bad_line_line line) }
{
    text.extend_from_slice(b"journal line ")?;
    push_number(alloc, text, line)?;
    text.extend_from_slice(b": no event\n")?;
    Ok(())
}

fn push_not_allowed(alloc: Global, text: &mut Vec<u8>, place: u32) -> Result<(), Memory>
    ensures { OnOk result (text.new.items ≡ text.old.items ++ lines.not_allowed_line place) }
{
    text.extend_from_slice(b"event ")?;
    push_number(alloc, text, place)?;
    text.extend_from_slice(b" is not allowed\n")?;
    Ok(())
}

fn push_number(alloc: Global, text: &mut Vec<u8>, number: u32) -> Result<(), Memory>
    ensures { OnOk result (text.new.items ≡ text.old.items ++ decimal number) }
{
    let number = format!(in alloc; "{number}")?;
    text.extend_from_slice(number.as_bytes())?;
    Ok(())
}

// The word for how a run is over.
fn word_of(over: Option<Over>) -> &'static [u8]
    ensures { result.now ≡ lines.word_of over }
{
    match over {
        None => b"open",
        Some(Over::AllEnded) => b"ended",
        Some(Over::Still) => b"stuck",
        Some(Over::Spent) => b"spent",
    }
}
