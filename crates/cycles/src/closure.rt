// All that one node depends on, found by following edges until no node waits.
ghost use Rattle.std.specs.Prelude.{◌≡◌, ℕ, ◌<◌, ◌↔◌, ◌⊎◌, IfOk, OnOk, length, All, Contains};
ghost use Rattle.std.specs.List.Sorted.{IsNonDecreasingBy};
ghost use Rattle.std.specs.Vec.{vec_len};
ghost use Rattle.cycles.specs.declared.edge.Edge.{Edge};
ghost use Rattle.cycles.specs.Depends.{Depends, EndsBelow, IsSet};
ghost use Rattle.cycles.specs.Following.{OnlyDepended, IsSource, IsFollowed, Grown};

use crate::Edge;
use chill_base::Memory;
use std::alloc::Global;

/// For each node below `count`, whether `start` depends on it. The edges stand in the order of the nodes that they
/// lead from.
pub fn depended(alloc: Global, count: u32, edges: &[Edge], start: u32) -> Result<Vec<bool>, Memory>
    requires sorted { IsNonDecreasingBy (λ (e : Edge). e.from) edges.now }
    requires ends { EndsBelow count edges.now }
    ensures len { IfOk result (λ reached. vec_len reached ≡ count) }
    ensures exact { IfOk result (λ reached. (v : ℕ) → IsSet reached.items v ↔ Depends edges.now start v) }
{
    let mut closure = Closure {
        reached: vec![in alloc; false; count as usize]?,
        waiting: vec![in alloc; start]?,
    };
    'nodes: while let Some(node) = closure.waiting.pop() {
        closure.follow(edges, node)?;
    }
    let Closure { reached, .. } = closure;
    Ok(reached)
}

// Which nodes have been reached, and those of them out of which edges are still to be followed.
#[derive(Drop)]
struct Closure {
    reached: Vec<bool>,
    waiting: Vec<u32>,
}

impl Closure {
    // Follows the edges out of a node.
    fn follow(&mut self, edges: &[Edge], node: u32) -> Result<(), Memory>
        requires sorted { IsNonDecreasingBy (λ (e : Edge). e.from) edges.now }
        requires ends { EndsBelow (vec_len self.old.reached) edges.now }
        ensures grown { OnOk result (Grown self.old.reached.items self.new.reached.items self.old.waiting.items self.new.waiting.items) }
        ensures followed { OnOk result (IsFollowed edges.now self.new.reached.items node) }
        ensures sound { OnOk result ((start : ℕ) → OnlyDepended edges.now start self.old.reached.items → IsSource start self.old.reached.items node → OnlyDepended edges.now start self.new.reached.items) }
    {
        for edge in edges_out_of(edges, node) {
            self.reach(edge.to)?;
        }
        Ok(())
    }

    // Notes that a node has been reached. If it hadn't been before, it waits for its edges to be followed.
    fn reach(&mut self, node: u32) -> Result<(), Memory>
        requires { node < vec_len self.old.reached }
        ensures grown { OnOk result (Grown self.old.reached.items self.new.reached.items self.old.waiting.items self.new.waiting.items) }
        ensures only { OnOk result ((v : ℕ) → IsSet self.new.reached.items v → IsSet self.old.reached.items v ⊎ (v ≡ node)) }
        ensures set { OnOk result (IsSet self.new.reached.items node) }
    {
        if !self.reached[node as usize] {
            self.reached[node as usize] = true;
            self.waiting.push(node)?;
        }
        Ok(())
    }
}

// The edges out of a node.
fn edges_out_of(edges: &[Edge], node: u32) -> &[Edge]
    requires { IsNonDecreasingBy (λ (e : Edge). e.from) edges.now }
    ensures from { All (λ e. Contains edges.now e × (e.from ≡ node)) result.now }
    ensures each { (e : Edge) → Contains edges.now e → e.from ≡ node → Contains result.now e }
{
    let begin = edges.partition_point(|edge| edge.from < node);
    let behind = &edges[begin..];
    let count = behind.partition_point(|edge| edge.from <= node);
    &behind[..count]
}
