// The text of a command.
ghost use Rattle.std.specs.Prelude.{◌≡◌, ℕ, List, None, OnOk, IfOk, IsErrOf};
ghost use Rattle.exchange_text.specs.Exchange.{exchange_text};
ghost use Rattle.chill_top.specs.Causes.{IsReadFault};
ghost use Rattle.chill_top.specs.Commands.{file_of};
ghost use Rattle.chill_top.specs.Reading.{IsRead};

use crate::read::{ReadRefusal, read_file};
use chill_base::Memory;
use exchange_text::make_text;
use outside_ports::Library;
use std::alloc::Global;
use word_reader::Command;

// A text has at most 262,144 bytes, and a longer one is read as far as one byte past them.
const MAX_READ: usize = 262_145;

/// What is read of the text of a command: of the file that it names, or of the text that it makes, for which no library is
/// asked.
pub(crate) fn read_source<L: Library>(
    alloc: Global,
    command: &Command,
    library: &mut L,
) -> Result<Vec<u8>, ReadRefusal>
    ensures read { IfOk result (λ read. IsRead command.now (L.contents library.old) read.items) }
    ensures kept { OnOk result ((n : List ℕ) → L.faults library.new n ≡ L.faults library.old n) }
    ensures same { (n : List ℕ) → L.contents library.new n ≡ L.contents library.old n }
    ensures fault { IsErrOf result ReadRefusal.Fault
        → IsReadFault command.now (L.faults library.old) (L.faults library.new) }
    ensures no_file { file_of command.now ≡ None → library.new ≡ library.old }
{
    match command {
        Command::Run { file, .. }
        | Command::Check { file }
        | Command::List { file }
        | Command::Format { file }
        | Command::Record { file, .. }
        | Command::Replay { file, .. } => read_file(alloc, library, file.as_str(), MAX_READ),
        Command::Make { subscribers } => Ok(made(alloc, *subscribers)?),
    }
}

fn made(alloc: Global, subscribers: u32) -> Result<Vec<u8>, Memory>
    ensures { IfOk result (λ text. text.items ≡ exchange_text subscribers) }
{
    Ok(make_text(alloc, subscribers)?.into_vec())
}
