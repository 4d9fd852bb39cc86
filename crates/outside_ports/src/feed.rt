// A feed of bytes, which are taken in pieces.
ghost use Rattle.std.specs.Prelude.{ℕ, List};
ghost use Rattle.std.specs.declared.option.Option.{Option};
ghost use Rattle.std.specs.Io.{ReadsAtMost};
ghost use Rattle.outside_ports.specs.Faults.{HasCause};
ghost use Rattle.outside_ports.specs.Feed.{Hands};

use crate::PortFault;

/// What gives bytes.
pub trait Feed {
    /// The bytes that are left, where they are told.
    ghost bytes: { Self → Option (List ℕ) };

    /// How often a take has failed.
    ghost faults: { Self → ℕ };

    /// Takes a front of the bytes that are left, as many as it likes of those that fit. It takes none only at their end,
    /// into no room, or at a fault.
    fn take(&mut self, into: &mut [u8]) -> Result<usize, PortFault>
        ensures bound { ReadsAtMost result into.new }
        ensures hands { Hands (bytes self.old) (bytes self.new) result into.new }
        ensures cause { HasCause (faults self.old) (faults self.new) result };
}
