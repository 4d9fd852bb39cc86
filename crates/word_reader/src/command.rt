// The commands of the program (our own choice).
ghost use Rattle.std.specs.Prelude.{◌≡◌, IfOk};

use std::alloc::{AllocError, Global};
use std::marker::Model;

/// The name of a file, seen as its bytes.
#[derive(Drop)]
pub struct FileName {
    name: String,
}

impl Model for FileName {
    ghost use Rattle.std.specs.Prelude.{List, ℕ, string_bytes};

    ghost Value = { List ℕ };

    ghost view = { λ f. string_bytes f.name };
}

impl FileName {
    /// The file of a name.
    pub fn new(alloc: Global, name: &str) -> Result<FileName, AllocError>
        ensures { IfOk result (λ f. f ≡ name.now) }
    {
        Ok(FileName {
            name: String::from_str(alloc, name)?,
        })
    }

    /// The name as a word.
    pub fn as_str(&self) -> &str
        ensures { result.now ≡ self.now }
    {
        self.name.as_str()
    }
}

/// What the program is to do.
#[derive(Drop)]
pub enum Command {
    /// Runs a program with 1 to 16 workers and a budget of 1 to 10,000,000 units, and shows its
    /// journal to the watchers.
    Run {
        file: FileName,
        workers: u32,
        units: u64,
        watch: bool,
    },
    /// Tells the rules that a program breaks.
    Check {
        file: FileName,
    },
    /// Writes the layout and the code of a program.
    List {
        file: FileName,
    },
    /// Writes the canonical text of a program.
    Format {
        file: FileName,
    },
    /// Runs an exchange of 1 to 200 subscribers.
    Make {
        subscribers: u32,
    },
    /// Runs a program as `Run` does, and writes its journal.
    Record {
        file: FileName,
        workers: u32,
        units: u64,
    },
    /// Tells whether a journal is a run of a program, with a budget of 1 to 10,000,000 units.
    Replay {
        file: FileName,
        journal: FileName,
        units: u64,
    },
}
