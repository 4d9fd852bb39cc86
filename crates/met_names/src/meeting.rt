// Where processes meet.
ghost use Rattle.std.specs.Prelude.{◌≡◌};
ghost use Rattle.modes.specs.ModeTree.{mode_tree};
ghost use Rattle.met_names.specs.Facts.{met_in};

use modes::Mode;

/// What a name stands for that processes meet at, or another location, at which they don't.
#[derive(Clone, Copy, PartialEq, Eq)]
pub enum Meeting {
    Event,
    Buffer,
    Signal,
    Other,
}

/// What processes meet at in a location of the mode. Names and READ are looked through.
#[tactic(auto, using(modes::proofs::ModeViews::mode_built))]
pub fn met_in(mode: &Mode) -> Meeting
    ensures { result ≡ met_in (mode_tree mode.now) }
{
    match mode {
        Mode::Event { .. } => Meeting::Event,
        Mode::Buffer { .. } => Meeting::Buffer,
        Mode::Read { of } | Mode::Named { of, .. } => met_in(of),
        Mode::Int
        | Mode::Bool
        | Mode::Char
        | Mode::Instance
        | Mode::Set { .. }
        | Mode::Range { .. }
        | Mode::Powerset { .. }
        | Mode::Chars { .. }
        | Mode::Array { .. }
        | Mode::Struct { .. } => Meeting::Other,
    }
}
