// Joined behind each other, of which one is done: behind each of them control goes on behind all.
ghost use Rattle.std.specs.Prelude.{◌≡◌, ℕ, OnOk};
ghost use Rattle.code_scheme.specs.Pieces.{capped};
ghost use Rattle.code_scheme.specs.StatementGoing.{leave_size};
ghost use Rattle.stmt_gen.specs.Joining.{size_before};
ghost use Rattle.expr_gen.specs.Putting.{Keeps};
ghost use Rattle.stmt_gen.specs.Puts.{IsJoined, IsNextPlace, PutsLeaving};

use code_types::Instr;
use expr_gen::{Draft, PartRefusal};

/// How many instructions parts have together, and how many of the last ones go on and have nothing behind them so far. A part
/// jumps over what stands behind it, so it has a jump only where something does.
#[derive(Clone, Copy)]
pub struct Joined {
    pub size: u32,
    waiting: u32,
}

impl Joined {
    /// No part.
    pub fn none() -> Joined
        ensures { (rest : ℕ) → size_before result rest ≡ rest }
    {
        Joined {
            size: 0,
            waiting: 0,
        }
    }

    /// One part more, of so many instructions without its jump.
    pub fn then(self, size: u32, goes_on: bool) -> Joined
        ensures { IsJoined self size goes_on result }
    {
        let before = if size == 0 {
            self
        } else {
            Joined {
                size: self.size.saturating_add(self.waiting).saturating_add(size),
                waiting: 0,
            }
        };
        Joined {
            size: before.size,
            waiting: before.waiting.saturating_add(u32::from(goes_on)),
        }
    }
}

/// How many instructions lead over so many, where control comes: a jump, or none where there is nothing to lead over.
pub fn leaving_size(goes_on: bool, rest: u32) -> u32
    ensures { (n : ℕ) → rest ≡ capped n → result ≡ leave_size goes_on n }
{
    if goes_on && rest != 0 { 1 } else { 0 }
}

/// Goes behind the parts, where control comes from here and that place is a later one.
pub fn put_leaving(goes_on: bool, behind: u32, draft: &mut Draft) -> Result<(), PartRefusal>
    ensures puts { OnOk result (PutsLeaving goes_on behind draft.old draft.new) }
    ensures keeps { Keeps draft.old.code draft.new.code }
{
    if goes_on && draft.place() != behind {
        draft.put(Instr::Jump(behind))
    } else {
        Ok(())
    }
}

/// The place behind a part of so many instructions and its jump, where all parts end at another place.
pub fn next_place(size: u32, goes_on: bool, behind: u32, draft: &Draft) -> u32
    ensures { IsNextPlace size goes_on behind draft.now result }
{
    let end = draft.place_behind(size);
    end.saturating_add(leaving_size(goes_on, behind.saturating_sub(end)))
}
