// The input of a program is read in pieces.
ghost use Rattle.std.specs.Prelude.{◌≡◌, ◌+◌, ◌<◌, ◌≤◌, ℕ, List, length, OnOk, IfOk, IsErrOf};
ghost use Rattle.std.specs.declared.option.Option.{Option};
ghost use Rattle.std.specs.Bool.{OnTrue, OnFalse};
ghost use Rattle.outside_ports.specs.Faults.{Rose};
ghost use Rattle.chill_top.specs.Reading.{IsInputRead, IsTaken, IsWholeInput};

use crate::read::{ReadRefusal, buffer};
use outside_ports::Feed;
use std::alloc::Global;

/// An input has at most this many bytes.
pub(crate) const MAX_INPUT: usize = 1_048_576;

// A longer input is read this far.
const MAX_READ: usize = MAX_INPUT + 1;

// The input is read in pieces of at most this many bytes.
const PIECE: usize = 65_536;

/// Reads the input to its end, or as far as one byte past the longest.
pub(crate) fn read_input<I: Feed>(alloc: Global, feed: &mut I) -> Result<Vec<u8>, ReadRefusal>
    ensures input { IfOk result (λ read. IsInputRead (I.bytes feed.old) read.items) }
    ensures stays { OnOk result (I.faults feed.new ≡ I.faults feed.old) }
    ensures fault { IsErrOf result ReadRefusal.Fault
        → Rose (I.faults feed.old) (I.faults feed.new) }
{
    let mut input = Vec::new(alloc);
    let mut piece = buffer(alloc, PIECE)?;
    'pieces: while input.len() < MAX_READ {
        let most = (MAX_READ - input.len()).min(PIECE);
        if !take_piece(feed, &mut piece[..most], &mut input)? {
            return Ok(input);
        }
    }
    Ok(input)
}

// Takes one piece behind what was read of an input, and says whether there was more.
fn take_piece<I: Feed>(
    feed: &mut I,
    piece: &mut [u8],
    input: &mut Vec<u8>,
) -> Result<bool, ReadRefusal>
    requires room { 0 < length piece.old }
    ensures taken { OnOk result ((told : Option (List ℕ))
        → IsTaken told (I.bytes feed.old) input.old.items
        → IsTaken told (I.bytes feed.new) input.new.items) }
    ensures more { IfOk result (λ more.
        OnTrue more (length input.old.items < length input.new.items)) }
    ensures fits { OnOk result
        (length input.new.items ≤ length input.old.items + length piece.old) }
    ensures end { IfOk result (λ more. OnFalse more ((told : Option (List ℕ))
        → IsTaken told (I.bytes feed.old) input.old.items
        → IsWholeInput told input.new.items)) }
    ensures kept { IfOk result (λ more. OnFalse more (input.new.items ≡ input.old.items)) }
    ensures stays { OnOk result (I.faults feed.new ≡ I.faults feed.old) }
    ensures fault { IsErrOf result ReadRefusal.Fault
        → Rose (I.faults feed.old) (I.faults feed.new) }
{
    let count = feed.take(piece)?;
    if count == 0 {
        return Ok(false);
    }
    input.extend_from_slice(&piece[..count])?;
    Ok(true)
}
