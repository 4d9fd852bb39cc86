// The layout of a mode.
ghost use Rattle.std.specs.Prelude.{◌≡◌, IfOk, IfErr};
ghost use Rattle.modes.specs.ModeTree.{mode_tree};
ghost use Rattle.layout_map.specs.Outcome.{outcome_of, spots, Refuses};

use crate::lay::lay;
use crate::numbered::first_impossible;
use crate::overlap::{Shared, first_overlap};
use chill_base::{Layout, List};
use modes::Mode;
use std::alloc::Global;

/// Why a mode has no layout. Fields, and arrays with STEP, are numbered together over the whole mode in the order of the
/// text from 0.
#[derive(Clone, Copy, Debug, PartialEq, Eq)]
pub enum LayoutRefusal {
    /// Two fields share a bit.
    Overlap { first: u32, second: u32 },
    /// The field has a place that is impossible.
    Impossible { field: u32 },
    Memory,
}

/// Where the scalars of the mode lie, in their order. Impossible goes before Overlap; among several the lowest field is told,
/// or the lowest second one with its lowest first. A mode is laid out whatever it is; an event or a buffer has no scalars.
pub fn layout(alloc: Global, mode: &Mode) -> Result<Layout, LayoutRefusal>
    ensures laid { IfOk result (λ layout. outcome_of (mode_tree mode.now) ≡ spots layout) }
    ensures refused { IfErr result (λ refusal. Refuses refusal (outcome_of (mode_tree mode.now))) }
{
    if let Err(field) = first_impossible(mode, 0) {
        return Err(LayoutRefusal::Impossible { field });
    }
    if let Err(Shared { first, second }) = first_overlap(mode, 0) {
        return Err(LayoutRefusal::Overlap { first, second });
    }
    let mut layout = List::new(alloc);
    match lay(mode, false, 0, &mut layout) {
        Ok(_) => Ok(layout),
        Err(_) => Err(LayoutRefusal::Memory),
    }
}
