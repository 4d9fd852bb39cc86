// Bytes behind a text.
ghost use Rattle.std.specs.Prelude.{◌≡◌, ◌++◌, OnOk, OnErr};

use chill_base::{Memory, Text};

// Appends bytes. After want of memory the text is as before.
pub(crate) fn append(text: &mut Text, bytes: &[u8]) -> Result<(), Memory>
    ensures ok { OnOk result (text.new ≡ text.old ++ bytes.now) }
    ensures err { OnErr result (text.new ≡ text.old) }
{
    text.room().extend_from_slice(bytes)?;
    Ok(())
}
