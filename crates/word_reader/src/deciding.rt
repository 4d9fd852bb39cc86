// Which command words are: by the first word, and by what the others say (our own choice).
ghost use Rattle.std.specs.Prelude.{◌≡◌, IfOk, option_map, option_and_then, map, string_bytes};
ghost use Rattle.word_reader.specs.Reading as manners;
ghost use Rattle.word_reader.specs.Reading.{read_by, word_at as text_at};
ghost use Rattle.word_reader.specs.declared.command.Command.TheVariants as variants;
ghost use Rattle.word_reader.specs.Said.{IsSaid, command_of, run_of, record_of, replay_of, said};
ghost use Rattle.word_reader.specs.Said.{file_of, check_of, list_of, format_of, made_of};

use crate::command::{Command, FileName};
use crate::number::number;
use crate::reading::{plain_manner, record_manner, replay_manner, run_manner, walk};
use std::alloc::{AllocError, Global};

/// A command whose file is named by one of the words.
#[derive(Clone, Copy)]
pub enum Wording<'a> {
    Run {
        file: &'a str,
        workers: u32,
        units: u64,
        watch: bool,
    },
    Check {
        file: &'a str,
    },
    List {
        file: &'a str,
    },
    Format {
        file: &'a str,
    },
    Make {
        subscribers: u32,
    },
    Record {
        file: &'a str,
        workers: u32,
        units: u64,
    },
    Replay {
        file: &'a str,
        journal: &'a str,
        units: u64,
    },
}

impl Wording<'_> {
    /// The command, with a copy of its file's name.
    pub fn command(self, alloc: Global) -> Result<Command, AllocError>
        ensures { IfOk result (λ c. c ≡ command_of self.entry) }
    {
        match self {
            Wording::Run {
                file,
                workers,
                units,
                watch,
            } => Ok(Command::Run {
                file: FileName::new(alloc, file)?,
                workers,
                units,
                watch,
            }),
            Wording::Check { file } => Ok(Command::Check {
                file: FileName::new(alloc, file)?,
            }),
            Wording::List { file } => Ok(Command::List {
                file: FileName::new(alloc, file)?,
            }),
            Wording::Format { file } => Ok(Command::Format {
                file: FileName::new(alloc, file)?,
            }),
            Wording::Make { subscribers } => Ok(Command::Make { subscribers }),
            Wording::Record {
                file,
                workers,
                units,
            } => recorded(alloc, file, workers, units),
            Wording::Replay {
                file,
                journal,
                units,
            } => replayed(alloc, file, journal, units),
        }
    }
}

fn recorded(alloc: Global, file: &str, workers: u32, units: u64) -> Result<Command, AllocError>
    ensures { IfOk result (λ c. c ≡ variants.Record file.now workers units) }
{
    Ok(Command::Record {
        file: FileName::new(alloc, file)?,
        workers,
        units,
    })
}

fn replayed(alloc: Global, file: &str, journal: &str, units: u64) -> Result<Command, AllocError>
    ensures { IfOk result (λ c. c ≡ variants.Replay file.now journal.now units) }
{
    Ok(Command::Replay {
        file: FileName::new(alloc, file)?,
        journal: FileName::new(alloc, journal)?,
        units,
    })
}

/// The command that the words mean.
pub fn decide(words: &[String]) -> Option<Wording<'_>>
    ensures { option_map command_of result ≡ said (map string_bytes words.entry.now) }
{
    match words {
        [] => None,
        [verb, rest @ ..] => {
            let verb = verb.as_str();
            if verb == "run" {
                run(rest)
            } else if verb == "check" {
                check(rest)
            } else if verb == "list" {
                list(rest)
            } else if verb == "format" {
                format(rest)
            } else if verb == "make" {
                make(rest)
            } else if verb == "record" {
                record(rest)
            } else if verb == "replay" {
                replay(rest)
            } else {
                None
            }
        }
    }
}

fn word_at(words: &[String], i: usize) -> &str
    ensures { result.now ≡ text_at words.entry.now i }
{
    match words.get(i) {
        Some(word) => word.as_str(),
        None => "",
    }
}

fn run(words: &[String]) -> Option<Wording<'_>>
    ensures { IsSaid result run_of (read_by manners.run_manner words.entry.now) }
{
    let reading = walk(run_manner(), words)?;
    let place = reading.place?;
    Some(Wording::Run {
        file: word_at(words, place),
        workers: reading.workers.unwrap_or(4),
        units: reading.units.unwrap_or(1_000_000) as u64,
        watch: reading.watch,
    })
}

fn record(words: &[String]) -> Option<Wording<'_>>
    ensures { IsSaid result record_of (read_by manners.record_manner words.entry.now) }
{
    let reading = walk(record_manner(), words)?;
    let place = reading.place?;
    Some(Wording::Record {
        file: word_at(words, place),
        workers: reading.workers.unwrap_or(4),
        units: reading.units.unwrap_or(1_000_000) as u64,
    })
}

fn replay(words: &[String]) -> Option<Wording<'_>>
    ensures { IsSaid result replay_of (read_by manners.replay_manner words.entry.now) }
{
    let reading = walk(replay_manner(), words)?;
    let place = reading.place?;
    let second = reading.second?;
    Some(Wording::Replay {
        file: word_at(words, place),
        journal: word_at(words, second),
        units: reading.units.unwrap_or(1_000_000) as u64,
    })
}

// The one word of a command without options.
fn only_word(words: &[String]) -> Option<&str>
    ensures { option_map (λ word. word.now) result
        ≡ option_and_then file_of (read_by manners.plain_manner words.entry.now) }
{
    let reading = walk(plain_manner(), words)?;
    let place = reading.place?;
    Some(word_at(words, place))
}

fn check(words: &[String]) -> Option<Wording<'_>>
    ensures { IsSaid result check_of (read_by manners.plain_manner words.entry.now) }
{
    let file = only_word(words)?;
    Some(Wording::Check { file })
}

fn list(words: &[String]) -> Option<Wording<'_>>
    ensures { IsSaid result list_of (read_by manners.plain_manner words.entry.now) }
{
    let file = only_word(words)?;
    Some(Wording::List { file })
}

fn format(words: &[String]) -> Option<Wording<'_>>
    ensures { IsSaid result format_of (read_by manners.plain_manner words.entry.now) }
{
    let file = only_word(words)?;
    Some(Wording::Format { file })
}

fn make(words: &[String]) -> Option<Wording<'_>>
    ensures { IsSaid result made_of (read_by manners.plain_manner words.entry.now) }
{
    let word = only_word(words)?;
    let subscribers = number(1, 200, word.as_bytes())?;
    Some(Wording::Make { subscribers })
}
