// A library of files, which are read in pieces.
ghost use Rattle.std.specs.Prelude.{◌≡◌, ◌≤◌, ℕ, List, OnOk, length};
ghost use Rattle.std.specs.Io.{ReadsAtMost};
ghost use Rattle.outside_ports.specs.Faults.{HasCause};
ghost use Rattle.outside_ports.specs.Library.{Contents, Gives};

/// A reading or a writing failed. The port has counted it.
#[derive(Clone, Copy, Debug, PartialEq, Eq)]
pub struct PortFault;

/// Files by their names.
pub trait Library {
    /// What is told of a file, by its name: its bytes, that there is none, or nothing.
    ghost contents: { Self → List ℕ → Contents };

    /// How often the reading of a file has failed, by its name.
    ghost faults: { Self → List ℕ → ℕ };

    /// Reads those bytes of a file that stand from `at` on, as many as it likes of those that fit. It gives none
    /// only at the file's end, or into no room. A missing file is a fault.
    fn read(&mut self, name: &str, at: u64, into: &mut [u8]) -> Result<usize, PortFault>
        ensures bound { ReadsAtMost result into.new }
        ensures gives { Gives (contents self.old name.now) at result into.new }
        ensures same { (n : List ℕ) → contents self.new n ≡ contents self.old n }
        ensures later { (n : List ℕ) → faults self.old n ≤ faults self.new n }
        ensures stays { (n : List ℕ) → OnOk result (faults self.new n ≡ faults self.old n) }
        ensures cause { HasCause (faults self.old name.now) (faults self.new name.now) result };
}
