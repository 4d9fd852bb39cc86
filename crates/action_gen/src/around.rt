// Where statements stand: in which body, among which labels, and which scratch locals are free.
ghost use Rattle.std.specs.Prelude.{◌≡◌, ◌+◌, [], ◌∷◌, ◌++◌, vec_items, IfOk};

use chill_base::Memory;
use expr_gen::{PartRefusal, Site, uncapped};
use std::alloc::Global;

/// Where statements stand.
#[derive(Clone, Copy)]
pub struct Around<'a, 'b> {
    pub site: Site<'a>,
    /// The first free scratch local.
    pub free: u32,
    /// The places behind the labelled statements around, the innermost one's last.
    pub exits: &'b [u32],
}

impl<'a, 'b> Around<'a, 'b> {
    /// The same place, with the first so many scratch locals taken.
    pub fn taking(&self, count: u32) -> Result<Around<'a, 'b>, PartRefusal>
        ensures { IfOk result (λ it. it ≡ record self.now { free = self.now.free + count }) }
    {
        Ok(Around {
            site: self.site,
            free: uncapped(self.free.saturating_add(count))?,
            exits: self.exits,
        })
    }
}

/// The places behind the labelled statements around, and that behind one within them.
pub fn with_exit(alloc: Global, exits: &[u32], behind: u32) -> Result<Vec<u32>, Memory>
    ensures { IfOk result (λ all. vec_items all ≡ exits.now ++ behind ∷ []) }
{
    let mut all = Vec::with_capacity(alloc, exits.len())?;
    for exit in exits {
        all.push(*exit)?;
    }
    all.push(behind)?;
    Ok(all)
}
