// Which nodes of groups depend on themselves.
ghost use Rattle.std.specs.Prelude.{◌≡◌, ℕ, ◌+◌, ◌<◌, ◌^◌, ◌↔◌, false, IfOk, length, slice_index_or};
ghost use Rattle.cycles.specs.Depends.{Depends, IsSet};
ghost use Rattle.cycles.specs.Groups.{edges_of};
ghost use Rattle.cycles.specs.Stars.{LieBelow};
ghost use Rattle.cycles.specs.Testing.{depends_on};

use crate::group::Group;
use crate::on_graph::on_cycles;
use crate::stars::{bound, star_edges};
use chill_base::Memory;
use std::alloc::Global;

// The marks of nodes that all lie below `base`.
fn selves_below(alloc: Global, base: u32, groups: &[Group]) -> Result<Vec<bool>, Memory>
    requires low { LieBelow base groups.now }
    requires fits { base + length groups.now < 2 ^ 32 }
    ensures { IfOk result (λ marks. (v : ℕ) → IsSet marks.items v ↔ Depends (edges_of groups.now) v v) }
{
    let edges = star_edges(alloc, base, groups)?;
    let mut marks = on_cycles(alloc, base + groups.len() as u32, &edges)?;
    marks.truncate(base as usize);
    Ok(marks)
}

/// For each node up to the last that is marked, whether it depends on itself; any other doesn't.
pub fn selves(alloc: Global, groups: &[Group]) -> Result<Vec<bool>, Memory>
    ensures exact { IfOk result (λ marks. (v : ℕ) → IsSet marks.items v ↔ Depends (edges_of groups.now) v v) }
    ensures tested { IfOk result (λ marks. (v : ℕ) → slice_index_or marks.items v false ≡ depends_on (edges_of groups.now) v v) }
{
    match bound(groups) {
        Some(base) if groups.len() <= (u32::MAX - base) as usize => {
            selves_below(alloc, base, groups)
        }
        _ => Err(Memory),
    }
}
