// A sink of bytes, which are written in pieces.
ghost use Rattle.std.specs.Prelude.{ℕ, List};
ghost use Rattle.std.specs.declared.option.Option.{Option};
ghost use Rattle.outside_ports.specs.Faults.{HasCause};
ghost use Rattle.outside_ports.specs.Sink.{Takes};

use crate::PortFault;

/// What takes bytes.
pub trait Sink {
    /// The bytes taken so far, where they are told.
    ghost taken: { Self → Option (List ℕ) };

    /// How often a put has failed.
    ghost faults: { Self → ℕ };

    /// Takes a front of the piece, at least a byte of one that isn't empty, and answers how many bytes it took.
    /// A put that fails takes none.
    fn put(&mut self, piece: &[u8]) -> Result<usize, PortFault>
        ensures takes { Takes (taken self.old) (taken self.new) result piece.now }
        ensures cause { HasCause (faults self.old) (faults self.new) result };
}
