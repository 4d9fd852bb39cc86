// A file is read in pieces.
ghost use Rattle.std.specs.Prelude.{◌≡◌, ◌+◌, ◌<◌, ◌≤◌, ℕ, List, length, OnOk, IfOk, IfSome, IsErrOf};
ghost use Rattle.std.specs.Bool.{OnTrue, OnFalse};
ghost use Rattle.outside_ports.specs.Faults.{Rose};
ghost use Rattle.chill_top.specs.Commands.{IsTextOf};
ghost use Rattle.chill_top.specs.Reading.{IsFront, IsReadingUpTo};
ghost use Rattle.chill_top.specs.declared.read.ReadRefusal.TheVariants.{Fault, Memory as no_memory};

use chill_base::Memory;
use outside_ports::{Library, PortFault};
use std::alloc::{AllocError, Global};

// A file is read in pieces of at most this many bytes.
const PIECE: usize = 65_536;

/// Why a file wasn't read.
#[derive(Clone, Copy, Debug, PartialEq, Eq)]
pub(crate) enum ReadRefusal {
    Fault,
    Memory,
}

impl From<PortFault> for ReadRefusal {
    ghost from_gives = { λ _ e. e ≡ Fault };

    fn from(_: PortFault) -> Self {
        ReadRefusal::Fault
    }
}

impl From<AllocError> for ReadRefusal {
    ghost from_gives = { λ _ e. e ≡ no_memory };

    fn from(_: AllocError) -> Self {
        ReadRefusal::Memory
    }
}

impl From<Memory> for ReadRefusal {
    ghost from_gives = { λ _ e. e ≡ no_memory };

    fn from(_: Memory) -> Self {
        ReadRefusal::Memory
    }
}

/// Reads a file to its end, or as far as so many bytes.
pub(crate) fn read_file<L: Library>(
    alloc: Global,
    library: &mut L,
    name: &str,
    most: usize,
) -> Result<Vec<u8>, ReadRefusal>
    requires some { 0 < most }
    ensures same { (n : List ℕ) → L.contents library.new n ≡ L.contents library.old n }
    ensures kept { OnOk result ((n : List ℕ) → L.faults library.new n ≡ L.faults library.old n) }
    ensures text { IfOk result (λ read. (text : List ℕ)
        × IsTextOf (L.contents library.old name.now) text
        × IsReadingUpTo most text read.items) }
    ensures fault { IsErrOf result ReadRefusal.Fault
        → Rose (L.faults library.old name.now) (L.faults library.new name.now) }
{
    let mut text = Vec::new(alloc);
    let mut piece = buffer(alloc, PIECE)?;
    'pieces: while text.len() < most {
        let room = (most - text.len()).min(PIECE);
        if !read_piece(library, name, &mut piece[..room], &mut text)? {
            return Ok(text);
        }
    }
    Ok(text)
}

/// A buffer of so many bytes.
pub(crate) fn buffer(alloc: Global, size: usize) -> Result<Vec<u8>, Memory>
    ensures { IfOk result (λ buffer. length buffer.items ≡ size) }
{
    Ok(vec![in alloc; 0u8; size]?)
}

// Reads one piece behind a front of a file, and says whether there was more.
fn read_piece<L: Library>(
    library: &mut L,
    name: &str,
    piece: &mut [u8],
    text: &mut Vec<u8>,
) -> Result<bool, ReadRefusal>
    requires room { 0 < length piece.old }
    requires front { IsFront (L.contents library.old name.now) text.old.items }
    ensures front { OnOk result (IsFront (L.contents library.new name.now) text.new.items) }
    ensures more { IfOk result (λ more.
        OnTrue more (length text.old.items < length text.new.items)) }
    ensures fits { OnOk result (length text.new.items ≤ length text.old.items + length piece.old) }
    ensures end { IfOk result (λ more.
        OnFalse more (IsTextOf (L.contents library.old name.now) text.new.items)) }
    ensures kept { IfOk result (λ more. OnFalse more (text.new.items ≡ text.old.items)) }
    ensures same { (n : List ℕ) → L.contents library.new n ≡ L.contents library.old n }
    ensures stays { OnOk result ((n : List ℕ) → L.faults library.new n ≡ L.faults library.old n) }
    ensures fault { IsErrOf result ReadRefusal.Fault
        → Rose (L.faults library.old name.now) (L.faults library.new name.now) }
{
    let count = library.read(name, text.len() as u64, piece)?;
    if count == 0 {
        return Ok(false);
    }
    text.extend_from_slice(&piece[..count])?;
    Ok(true)
}
