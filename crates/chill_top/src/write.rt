// A text is written by as many puts as it takes.
ghost use Rattle.std.specs.Prelude.{◌≡◌, OnOk, OnErr};
ghost use Rattle.std.specs.Io.KnownBytes.{Appends};
ghost use Rattle.outside_ports.specs.Faults.{Rose};
ghost use Rattle.chill_top.specs.Causes.{AppendsFront};

use outside_ports::{PortFault, Sink};

/// Writes the whole text, or a proper front of it where the sink fails.
pub(crate) fn write_all<S: Sink>(sink: &mut S, text: &[u8]) -> Result<(), PortFault>
    ensures ok { OnOk result (Appends (S.taken sink.old) (S.taken sink.new) text.now) }
    ensures front { OnErr result (AppendsFront (S.taken sink.old) (S.taken sink.new) text.now) }
    ensures stays { OnOk result (S.faults sink.new ≡ S.faults sink.old) }
    ensures fault { OnErr result (Rose (S.faults sink.old) (S.faults sink.new)) }
{
    let mut done = 0;
    'puts: while done < text.len() {
        done += sink.put(&text[done..])?;
    }
    Ok(())
}
