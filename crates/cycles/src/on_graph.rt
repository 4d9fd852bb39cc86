// Which nodes depend on themselves.
ghost use Rattle.std.specs.Prelude.{◌≡◌, ℕ, ◌<◌, ◌↔◌, IfOk, false, slice_index_or};
ghost use Rattle.std.specs.List.Sorted.{IsNonDecreasingBy, IsPermutation};
ghost use Rattle.std.specs.Vec.{vec_len};
ghost use Rattle.cycles.specs.declared.edge.Edge.{Edge};
ghost use Rattle.cycles.specs.Depends.{Depends, EndsBelow, IsSet};
ghost use Rattle.cycles.specs.Marks.{mark};

use crate::Edge;
use crate::closure::depended;
use crate::marks::{Mark, mark_of, shows_cycles};
use crate::search::found_marks;
use chill_base::Memory;
use std::alloc::Global;

/// For each node below `count`, whether it depends on itself. It takes time in proportion to the nodes and edges,
/// unless the search finds marks that don't pass the check; then it follows edges from each node.
pub fn on_cycles(alloc: Global, count: u32, edges: &[Edge]) -> Result<Vec<bool>, Memory>
    requires { EndsBelow count edges.now }
    ensures len { IfOk result (λ cyclic. vec_len cyclic ≡ count) }
    ensures exact { IfOk result (λ cyclic. (v : ℕ) → v < count → IsSet cyclic.items v ↔ Depends edges.now v v) }
{
    let marks = found_marks(alloc, count, edges)?;
    if shows_cycles(count, &marks, edges) {
        told_by_marks(alloc, count, &marks)
    } else {
        told_by_following(alloc, count, edges)
    }
}

// What the marks tell of each node.
fn told_by_marks(alloc: Global, count: u32, marks: &[Mark]) -> Result<Vec<bool>, Memory>
    ensures len { IfOk result (λ cyclic. vec_len cyclic ≡ count) }
    ensures exact { IfOk result (λ cyclic. (v : ℕ) → v < count → slice_index_or cyclic.items v false ≡ (mark marks.now v).cyclic) }
{
    let mut cyclic = Vec::with_capacity(alloc, count as usize)?;
    for node in 0..count {
        cyclic.push(mark_of(marks, node).cyclic)?;
    }
    Ok(cyclic)
}

/// What following edges from each node tells, of the nodes below `count`. It takes time in proportion to the nodes times
/// the nodes and edges.
pub fn told_by_following(alloc: Global, count: u32, edges: &[Edge]) -> Result<Vec<bool>, Memory>
    requires { EndsBelow count edges.now }
    ensures len { IfOk result (λ cyclic. vec_len cyclic ≡ count) }
    ensures exact { IfOk result (λ cyclic. (v : ℕ) → v < count → IsSet cyclic.items v ↔ Depends edges.now v v) }
{
    let sorted = by_source(alloc, edges)?;
    told_in_order(alloc, count, &sorted)
}

// The edges in the order of the nodes that they lead from.
fn by_source(alloc: Global, edges: &[Edge]) -> Result<Vec<Edge>, Memory>
    ensures sorted { IfOk result (λ sorted. IsNonDecreasingBy (λ (e : Edge). e.from) sorted.items) }
    ensures same { IfOk result (λ sorted. IsPermutation edges.now sorted.items) }
{
    let mut sorted = edges.to_vec(alloc)?;
    sorted.sort_unstable_by_key(|edge| edge.from);
    Ok(sorted)
}

// What following edges from each node tells, where the edges are in the order of the nodes that they lead from.
fn told_in_order(alloc: Global, count: u32, edges: &[Edge]) -> Result<Vec<bool>, Memory>
    requires sorted { IsNonDecreasingBy (λ (e : Edge). e.from) edges.now }
    requires ends { EndsBelow count edges.now }
    ensures len { IfOk result (λ cyclic. vec_len cyclic ≡ count) }
    ensures exact { IfOk result (λ cyclic. (v : ℕ) → v < count → IsSet cyclic.items v ↔ Depends edges.now v v) }
{
    let mut cyclic = Vec::with_capacity(alloc, count as usize)?;
    for node in 0..count {
        let reached = depended(alloc, count, edges, node)?;
        cyclic.push(reached[node as usize])?;
    }
    Ok(cyclic)
}
