// The command that `clap` reads words by, and what stands in its matches.
use crate::deciding::Wording;
use crate::number::number;
use clap::{Arg, ArgAction, ArgMatches, Command};
use std::alloc::{AllocError, Global};

/// All commands with their words.
pub fn app<'a>(alloc: Global) -> Result<Command<'a>, AllocError> {
    let app = Command::new(alloc, "chill")
        .no_binary_name(true)
        .disable_help_flag(true)
        .disable_help_subcommand(true)
        .disable_version_flag(true);
    app.subcommand(run(alloc)?)?
        .subcommand(one(alloc, "check", "file")?)?
        .subcommand(one(alloc, "list", "file")?)?
        .subcommand(one(alloc, "format", "file")?)?
        .subcommand(one(alloc, "make", "number")?)?
        .subcommand(record(alloc)?)?
        .subcommand(replay(alloc)?)
}

fn run<'a>(alloc: Global) -> Result<Command<'a>, AllocError> {
    let workers = Arg::new(alloc, "workers").long("workers");
    let units = Arg::new(alloc, "units").long("units");
    let watch = Arg::new(alloc, "watch")
        .long("watch")
        .action(ArgAction::SetTrue);
    one(alloc, "run", "file")?
        .arg(workers)?
        .arg(units)?
        .arg(watch)
}

fn record<'a>(alloc: Global) -> Result<Command<'a>, AllocError> {
    let workers = Arg::new(alloc, "workers").long("workers");
    let units = Arg::new(alloc, "units").long("units");
    one(alloc, "record", "file")?.arg(workers)?.arg(units)
}

fn replay<'a>(alloc: Global) -> Result<Command<'a>, AllocError> {
    let journal = Arg::new(alloc, "journal").required(true);
    let units = Arg::new(alloc, "units").long("units");
    one(alloc, "replay", "file")?.arg(journal)?.arg(units)
}

// A command with one word.
fn one<'a>(alloc: Global, name: &'a str, word: &'a str) -> Result<Command<'a>, AllocError> {
    let place = Arg::new(alloc, word).required(true);
    Command::new(alloc, name).arg(place)
}

/// The command that the matches tell.
pub fn wording<'a>(matches: &ArgMatches<'a>) -> Option<Wording<'a>> {
    let (name, found) = matches.subcommand()?;
    match name {
        "run" => Some(Wording::Run {
            file: found.get_str("file")?,
            workers: option(found, "workers", 4, 16)?,
            units: option(found, "units", 1_000_000, 10_000_000)? as u64,
            watch: found.get_flag("watch"),
        }),
        "check" => Some(Wording::Check {
            file: found.get_str("file")?,
        }),
        "list" => Some(Wording::List {
            file: found.get_str("file")?,
        }),
        "format" => Some(Wording::Format {
            file: found.get_str("file")?,
        }),
        "record" => Some(Wording::Record {
            file: found.get_str("file")?,
            workers: option(found, "workers", 4, 16)?,
            units: option(found, "units", 1_000_000, 10_000_000)? as u64,
        }),
        "replay" => Some(Wording::Replay {
            file: found.get_str("file")?,
            journal: found.get_str("journal")?,
            units: option(found, "units", 1_000_000, 10_000_000)? as u64,
        }),
        _ => Some(Wording::Make {
            subscribers: number(1, 200, found.get_str("number")?.as_bytes())?,
        }),
    }
}

// The number of an option, which stands for itself where the words don't say it.
fn option(found: &ArgMatches<'_>, id: &str, unsaid: u32, most: u32) -> Option<u32> {
    match found.get_str(id) {
        Some(text) => number(1, most, text.as_bytes()),
        None => Some(unsaid),
    }
}
