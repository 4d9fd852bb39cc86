// Nodes in an order in which each stands behind those that it needs.
ghost use Rattle.std.specs.Prelude.{◌≡◌, ◌<◌, ◌⊎◌, ℕ, [], IfOk, OnOk, MatchOption, length};
ghost use Rattle.std.specs.List.{All, Contains};
ghost use Rattle.graph_order.specs.Needs.{needs_of, NeedsBefore, EachOnce, HasCircle, AreInside};
ghost use Rattle.graph_order.specs.Placing.{Stepped, Rounded, AreSorted, AreStuck, AddedOne, AreAdded};

use crate::placed::Placed;
use crate::search::searched;
use chill_base::{List, Memory, Numbers};
use std::alloc::Global;

// The nodes that a node needs.
fn needs_of(needs: &[Numbers], node: u32) -> &[u32]
    ensures { result.now ≡ needs_of needs.now node }
{
    match needs.get(node as usize) {
        None => &[],
        Some(own) => own.as_slice(),
    }
}

// The first of some nodes that hasn't been put.
fn missing(placed: &Placed, nodes: &[u32]) -> Option<u32>
    ensures { MatchOption result (All (Contains placed.now.order) nodes.now) (λ e. Contains nodes.now e × (¬ Contains placed.now.order e)) }
{
    for node in nodes {
        if !placed.has(*node) {
            return Some(*node);
        }
    }
    None
}

// Puts a node where all that it needs has been put.
fn step(
    needs: &[Numbers],
    node: u32,
    placed: &mut Placed,
    later: &mut Numbers,
) -> Result<(), Memory>
    requires { node < placed.old.count }
    ensures { OnOk result (Stepped needs.now placed.old placed.new later.old later.new node) }
{
    if placed.has(node) {
        return Ok(());
    }
    match missing(placed, needs_of(needs, node)) {
        None => placed.put(node)?,
        Some(_) => later.push(node)?,
    }
    Ok(())
}

// Puts those of some nodes that can be put, one after the other.
fn round(
    needs: &[Numbers],
    nodes: &[u32],
    placed: &mut Placed,
    later: &mut Numbers,
) -> Result<(), Memory>
    requires below { All (λ d. d < placed.old.count) nodes.now }
    requires none { later.old ≡ [] }
    ensures { OnOk result (Rounded needs.now placed.old placed.new nodes.now later.new) }
{
    for node in nodes {
        step(needs, *node, placed, later)?;
    }
    Ok(())
}

// Puts nodes until no more can be put, and answers those that can't.
fn rounds(
    alloc: Global,
    needs: &[Numbers],
    mut waiting: Numbers,
    placed: &mut Placed,
) -> Result<Numbers, Memory>
    requires { AreSorted needs.now placed.old waiting }
    ensures { IfOk result (AreStuck needs.now placed.new) }
{
    loop {
        let mut later = List::new(alloc);
        round(needs, waiting.as_slice(), placed, &mut later)?;
        if later.len() == waiting.len() {
            return Ok(later);
        }
        waiting = later;
    }
}

// Puts a node whatever it needs.
fn put_one(node: u32, placed: &mut Placed) -> Result<(), Memory>
    requires { node < placed.old.count }
    ensures { OnOk result (AddedOne placed.old placed.new node) }
{
    if placed.has(node) {
        return Ok(());
    }
    placed.put(node)?;
    Ok(())
}

// Puts nodes whatever they need.
fn put_rest(nodes: &[u32], placed: &mut Placed) -> Result<(), Memory>
    requires { All (λ d. d < placed.old.count) nodes.now }
    ensures { OnOk result (AreAdded placed.old placed.new nodes.now) }
{
    for node in nodes {
        put_one(*node, placed)?;
    }
    Ok(())
}

// The nodes that are tried first, and then all of them.
fn tried(alloc: Global, count: u32, first: &[u32]) -> Result<Numbers, Memory>
    ensures below { IfOk result (All (λ d. d < count)) }
    ensures each { IfOk result (λ nodes. (d : ℕ) → d < count → Contains nodes d) }
{
    let mut nodes = List::new(alloc);
    'first_tried: for node in first {
        if *node < count {
            nodes.push(*node)?;
        }
    }
    'all_tried: for node in 0..count {
        nodes.push(node)?;
    }
    Ok(nodes)
}

/// All nodes of a graph, each once: each behind those that it needs, if no nodes need one another in a circle. It answers
/// `Memory` also where no `u32` numbers all nodes.
pub fn ordered(alloc: Global, needs: &[Numbers]) -> Result<Numbers, Memory>
    ensures once { IfOk result (EachOnce []) }
    ensures all { IfOk result (λ order. (d : ℕ) → d < length needs.now → Contains order d) }
    ensures earlier { AreInside needs.now → IfOk result (λ order. NeedsBefore needs.now [] order ⊎ HasCircle needs.now) }
{
    let Ok(count) = u32::try_from(needs.len()) else {
        return Err(Memory);
    };
    let found = searched(alloc, needs)?;
    let nodes = tried(alloc, count, found.as_slice())?;
    let mut placed = Placed::new(alloc, needs.len())?;
    let rest = rounds(alloc, needs, nodes, &mut placed)?;
    put_rest(rest.as_slice(), &mut placed)?;
    Ok(placed.into_order())
}
