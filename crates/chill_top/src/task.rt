// What is done with the text of a command.
ghost use Rattle.std.specs.Prelude.{◌≡◌, ◌≤◌, IfSome};
ghost use Rattle.chill_top.specs.Commands as commands;

use word_reader::Command;

/// What is done with a text.
#[derive(Clone, Copy)]
pub(crate) enum Task {
    /// Its canonical text is written, for which a tree is enough.
    Format,
    /// Its code is built.
    Build(Purpose),
}

/// What the code of a text is built for.
#[derive(Clone, Copy)]
pub(crate) enum Purpose {
    /// It is run, or a journal is held against it, with a budget.
    Run { units: u64 },
    Check,
    List,
}

// The budget of `make`, and how many workers it has.
const MADE_UNITS: u64 = 1_000_000;

const MADE_WORKERS: u32 = 4;

// A run has at most this many workers.
const MAX_WORKERS: u32 = 16;

/// What is done with the text of a command.
pub(crate) fn task_of(command: &Command) -> Task
    ensures { result ≡ commands.task_of command.now }
{
    match command {
        Command::Run { units, .. }
        | Command::Record { units, .. }
        | Command::Replay { units, .. } => Task::Build(Purpose::Run { units: *units }),
        Command::Check { .. } => Task::Build(Purpose::Check),
        Command::List { .. } => Task::Build(Purpose::List),
        Command::Format { .. } => Task::Format,
        Command::Make { .. } => Task::Build(Purpose::Run { units: MADE_UNITS }),
    }
}

/// What of a run is written and shown.
#[derive(Clone, Copy)]
pub(crate) struct Showing {
    /// The watchers are shown the journal.
    pub watch: bool,
    /// The journal's text is written in place of the output.
    pub journal: bool,
}

/// What of its run a command writes and shows.
pub(crate) fn showing_of(command: &Command) -> Showing
    ensures { result ≡ commands.showing_of command.now }
{
    match command {
        Command::Run { watch, .. } => Showing {
            watch: *watch,
            journal: false,
        },
        Command::Record { .. } => Showing {
            watch: false,
            journal: true,
        },
        Command::Check { .. }
        | Command::List { .. }
        | Command::Format { .. }
        | Command::Make { .. }
        | Command::Replay { .. } => Showing {
            watch: false,
            journal: false,
        },
    }
}

/// How many workers do the runs of a command, where they are several.
pub(crate) fn workers_of(command: &Command) -> Option<u32>
    ensures { IfSome result (λ count. (2 ≤ count) × (count ≤ 16)) }
{
    let count = match command {
        Command::Run { workers, .. } | Command::Record { workers, .. } => *workers,
        Command::Make { .. } => MADE_WORKERS,
        Command::Check { .. }
        | Command::List { .. }
        | Command::Format { .. }
        | Command::Replay { .. } => 1,
    };
    if 1 < count && count <= MAX_WORKERS {
        Some(count)
    } else {
        None
    }
}
