// Edges through a node of each group's own.
ghost use Rattle.std.specs.Prelude.{◌≡◌, ℕ, ◌+◌, ◌<◌, ◌≤◌, ◌^◌, ◌++◌, [], IfOk, OnOk, IfSome, All, length, map};
ghost use Rattle.cycles.specs.Groups.{edge};
ghost use Rattle.cycles.specs.Stars.{LieBelow, star, stars};

use crate::Edge;
use crate::group::Group;
use chill_base::Memory;
use std::alloc::Global;

// The greatest of some numbers and of one more.
fn greatest(numbers: &[u32], least: u32) -> u32
    ensures least { least ≤ result }
    ensures all { All (λ n. n ≤ result) numbers.now }
{
    let mut greatest = least;
    for number in numbers {
        if *number > greatest {
            greatest = *number;
        }
    }
    greatest
}

/// A number above all nodes of the groups, where one of 32 bits is.
pub fn bound(groups: &[Group]) -> Option<u32>
    ensures { IfSome result (λ bound. LieBelow bound groups.now) }
{
    let mut last = 0;
    for group in groups {
        last = greatest(group.from.as_slice(), last);
        last = greatest(group.to.as_slice(), last);
    }
    match last {
        u32::MAX => None,
        _ => Some(last + 1),
    }
}

// Puts an edge from each node to a group's own one behind others.
fn push_into(edges: &mut Vec<Edge>, nodes: &[u32], middle: u32) -> Result<(), Memory>
    ensures { OnOk result (edges.new.items ≡ edges.old.items ++ map (λ v. edge v middle) nodes.now) }
{
    for node in nodes {
        edges.push(Edge {
            from: *node,
            to: middle,
        })?;
    }
    Ok(())
}

// Puts an edge from a group's own node to each node behind others.
fn push_out(edges: &mut Vec<Edge>, middle: u32, nodes: &[u32]) -> Result<(), Memory>
    ensures { OnOk result (edges.new.items ≡ edges.old.items ++ map (edge middle) nodes.now) }
{
    for node in nodes {
        edges.push(Edge {
            from: middle,
            to: *node,
        })?;
    }
    Ok(())
}

// Puts the edges of one group behind others.
fn push_star(edges: &mut Vec<Edge>, middle: u32, group: &Group) -> Result<(), Memory>
    ensures { OnOk result (edges.new.items ≡ edges.old.items ++ star middle group.now) }
{
    push_into(edges, group.from.as_slice(), middle)?;
    push_out(edges, middle, group.to.as_slice())?;
    Ok(())
}

/// The edges of groups, whose own nodes are numbered from `base` on.
pub fn star_edges(alloc: Global, base: u32, groups: &[Group]) -> Result<Vec<Edge>, Memory>
    requires { base + length groups.now < 2 ^ 32 }
    ensures { IfOk result (λ edges. edges.items ≡ stars base groups.now) }
{
    let mut edges = Vec::new(alloc);
    let mut middle = base;
    for group in groups {
        push_star(&mut edges, middle, group)?;
        middle += 1;
    }
    Ok(edges)
}
