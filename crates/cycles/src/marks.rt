// Marks on nodes, and a check in linear time that they tell exactly what depends on itself.
ghost use Rattle.std.specs.Prelude.{◌≡◌, ℕ, ◌<◌, ◌↔◌, IsTrue, true, length, All};
ghost use Rattle.cycles.specs.Depends.{Depends};
ghost use Rattle.cycles.specs.Marks.{unmarked, mark, distance, EdgePasses, HasRootOf, LeadsOut, LeadsIn, NodePasses};

use crate::Edge;

/// What a search found out of a node.
#[derive(Clone, Copy)]
pub struct Mark {
    /// The number of its strongly connected component. Edges lead to no higher one.
    pub component: u32,
    /// The node of its component that was found first.
    pub root: u32,
    /// Whether the node depends on itself.
    pub cyclic: bool,
    /// When the node was found, counted from 1. Not yet: 0.
    pub order: u32,
    /// The earliest `order` of a node that it was seen to reach.
    pub lowest: u32,
    /// The place of the edge over which it was found.
    pub in_edge: usize,
    /// The place of the edge over which it reaches `lowest`.
    pub out_edge: usize,
}

/// The mark of a node of which nothing is known.
pub fn no_mark() -> Mark
    ensures { result ≡ unmarked }
{
    Mark {
        component: 0,
        root: 0,
        cyclic: false,
        order: 0,
        lowest: 0,
        in_edge: 0,
        out_edge: 0,
    }
}

/// The mark of a node.
pub fn mark_of(marks: &[Mark], node: u32) -> Mark
    ensures { result ≡ mark marks.now node }
{
    match marks.get(node as usize) {
        Some(mark) => *mark,
        None => no_mark(),
    }
}

/// Whether the marks are those of `count` nodes and show exactly what depends on itself.
/// Where the answer is no, nothing is known.
pub fn shows_cycles(count: u32, marks: &[Mark], edges: &[Edge]) -> bool
    ensures { IsTrue result → (v : ℕ) → (mark marks.now v).cyclic ≡ true ↔ Depends edges.now v v }
{
    if marks.len() != count as usize || !edges_pass(marks, edges) {
        return false;
    }
    nodes_pass(count, marks, edges)
}

fn edges_pass(marks: &[Mark], edges: &[Edge]) -> bool
    ensures { IsTrue result → All (EdgePasses marks.now) edges.now }
{
    for edge in edges {
        if !edge_passes(marks, *edge) {
            return false;
        }
    }
    true
}

fn edge_passes(marks: &[Mark], edge: Edge) -> bool
    ensures { IsTrue result → EdgePasses marks.now edge }
{
    let from = mark_of(marks, edge.from);
    let to = mark_of(marks, edge.to);
    to.component < from.component || (to.component == from.component && from.cyclic)
}

fn nodes_pass(count: u32, marks: &[Mark], edges: &[Edge]) -> bool
    ensures { IsTrue result → (v : ℕ) → v < count → NodePasses edges.now marks.now v }
{
    for node in 0..count {
        if !node_passes(marks, edges, node) {
            return false;
        }
    }
    true
}

fn node_passes(marks: &[Mark], edges: &[Edge], node: u32) -> bool
    ensures { IsTrue result → NodePasses edges.now marks.now node }
{
    let mark = mark_of(marks, node);
    if !mark.cyclic {
        return true;
    }
    if !leads_out(marks, edges, node, mark) {
        return false;
    }
    leads_in(marks, edges, node, mark)
}

fn leads_out(marks: &[Mark], edges: &[Edge], node: u32, mark: Mark) -> bool
    ensures { IsTrue result → LeadsOut edges.now marks.now node mark }
{
    let Some(edge) = edges.get(mark.out_edge) else {
        return false;
    };
    let next = mark_of(marks, edge.to);
    edge.from == node
        && has_root_of(mark, next)
        && (node == mark.root || edge.to == mark.root || distance_of(next) < distance_of(mark))
}

fn leads_in(marks: &[Mark], edges: &[Edge], node: u32, mark: Mark) -> bool
    ensures { IsTrue result → LeadsIn edges.now marks.now node mark }
{
    if node == mark.root {
        return true;
    }
    let Some(edge) = edges.get(mark.in_edge) else {
        return false;
    };
    let before = mark_of(marks, edge.from);
    edge.to == node && has_root_of(mark, before) && before.order < mark.order
}

fn has_root_of(mark: Mark, other: Mark) -> bool
    ensures { IsTrue result → HasRootOf mark other }
{
    other.root == mark.root && other.cyclic
}

fn distance_of(mark: Mark) -> u64
    ensures { result ≡ distance mark }
{
    mark.lowest as u64 * 4_294_967_296 + (u32::MAX - mark.order) as u64
}
