// Words are read: a decision that is the definition, and what clap finds in the words.
ghost use Rattle.std.specs.Prelude.{◌≡◌, ◌≢◌, ◌↔◌, None, Some, Err, IfOk, IsTrue, map, string_bytes};
ghost use Rattle.word_reader.specs.Said.{command_of, said};

use crate::WordRefusal;
use crate::app::{app, wording};
use crate::command::Command;
use crate::deciding::{Wording, decide};
use std::alloc::Global;

/// The command that the words mean, or `Usage` exactly where they mean none.
pub fn read_words(alloc: Global, words: &[String]) -> Result<Command, WordRefusal>
    ensures ok { IfOk result (λ c. said (map string_bytes words.now) ≡ Some c) }
    ensures usage { (result ≡ Err WordRefusal.Usage) ↔ (said (map string_bytes words.now) ≡ None) }
{
    match decide(words) {
        Some(decided) => accepted(alloc, words, decided),
        None => Err(WordRefusal::Usage),
    }
}

// What clap finds in words that are a command. It finds the same as was decided wherever it has memory, which tests show:
// anything else is told as want of memory.
fn accepted<'a>(
    alloc: Global,
    words: &'a [String],
    decided: Wording<'_>,
) -> Result<Command, WordRefusal>
    ensures ok { IfOk result (λ c. c ≡ command_of decided.entry) }
    ensures err { result ≢ Err WordRefusal.Usage }
{
    let Ok(app) = app(alloc) else {
        return Err(WordRefusal::Memory);
    };
    let Ok(matches) = app.try_get_matches_from(words) else {
        return Err(WordRefusal::Memory);
    };
    match wording(&matches) {
        Some(found) if is_same(found, decided) => match found.command(alloc) {
            Ok(command) => Ok(command),
            Err(_) => Err(WordRefusal::Memory),
        },
        _ => Err(WordRefusal::Memory),
    }
}

fn is_same(one: Wording<'_>, other: Wording<'_>) -> bool
    ensures { IsTrue result → command_of one.entry ≡ command_of other.entry }
{
    match (one, other) {
        (
            Wording::Run {
                file,
                workers,
                units,
                watch,
            },
            Wording::Run {
                file: f,
                workers: w,
                units: u,
                watch: o,
            },
        ) => file == f && workers == w && units == u && watch == o,
        (Wording::Check { file }, Wording::Check { file: f }) => file == f,
        (Wording::List { file }, Wording::List { file: f }) => file == f,
        (Wording::Format { file }, Wording::Format { file: f }) => file == f,
        (Wording::Make { subscribers }, Wording::Make { subscribers: s }) => subscribers == s,
        (
            Wording::Record {
                file,
                workers,
                units,
            },
            Wording::Record {
                file: f,
                workers: w,
                units: u,
            },
        ) => file == f && workers == w && units == u,
        (
            Wording::Replay {
                file,
                journal,
                units,
            },
            Wording::Replay {
                file: f,
                journal: j,
                units: u,
            },
        ) => file == f && journal == j && units == u,
        _ => false,
    }
}
