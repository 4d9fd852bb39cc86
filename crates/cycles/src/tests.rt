// Answers that were worked out by hand, and that the marks of the search pass the check, on which the time rests.
use crate::marks::shows_cycles;
use crate::on_graph::told_by_following;
use crate::search::found_marks;
use crate::{Edge, Group, on_cycles, selves};
use chill_base::{Memory, Numbers};
use std::alloc::Global;
use std::test::Fail;

// A node between two cycles.
const BETWEEN: [Edge; 6] = [
    Edge { from: 4, to: 3 },
    Edge { from: 0, to: 1 },
    Edge { from: 1, to: 0 },
    Edge { from: 3, to: 4 },
    Edge { from: 1, to: 2 },
    Edge { from: 2, to: 3 },
];

#[test]
fn a_node_between_two_cycles(rt: HostRuntime) -> Result<(), Fail> {
    let wanted = [true, true, false, true, true, false];
    let told = on_cycles(rt.alloc(), 6, &BETWEEN)?;
    assert_eq!(rt; told.as_slice(), wanted.as_slice());
    let followed = told_by_following(rt.alloc(), 6, &BETWEEN)?;
    assert_eq!(rt; followed.as_slice(), wanted.as_slice());
    Ok(())
}

// All graphs of four nodes: bit 4 i + j of the number is the edge from i to j.
#[test]
fn marks_of_small_graphs_pass(rt: HostRuntime) -> Result<(), Fail> {
    for graph in 0..65536u32 {
        let mut edges = Vec::new(rt.alloc());
        for bit in 0..16u32 {
            if (graph >> bit) & 1 == 1 {
                edges.push(Edge {
                    from: bit / 4,
                    to: bit % 4,
                })?;
            }
        }
        let marks = found_marks(rt.alloc(), 4, &edges)?;
        assert!(rt; shows_cycles(4, &marks, &edges));
    }
    Ok(())
}

// A path of a hundred thousand nodes with an edge back from each tenth, and edges over the whole graph.
#[test]
fn marks_of_a_large_graph_pass(rt: HostRuntime) -> Result<(), Fail> {
    let count = 100_000;
    let mut edges = Vec::new(rt.alloc());
    for node in 1..count {
        edges.push(Edge {
            from: node - 1,
            to: node,
        })?;
        edges.push(Edge {
            from: node,
            to: match node % 10 {
                0 => node - 3,
                _ => (node / 7 * 13 + 5) % count,
            },
        })?;
    }
    let marks = found_marks(rt.alloc(), count, &edges)?;
    assert!(rt; shows_cycles(count, &marks, &edges));
    Ok(())
}

fn group(alloc: Global, from: &[u32], to: &[u32]) -> Result<Group, Memory> {
    Ok(Group {
        from: Numbers::from_vec(from.to_vec(alloc)?),
        to: Numbers::from_vec(to.to_vec(alloc)?),
    })
}

// 0 and 1 depend on 2 and 3, and 2 on 1; 4 depends on itself, and 5 on 4.
#[test]
fn what_is_on_a_cycle_of_groups_is_flagged(rt: HostRuntime) -> Result<(), Fail> {
    let groups = [
        group(rt.alloc(), &[0, 1], &[2, 3])?,
        group(rt.alloc(), &[2], &[1])?,
        group(rt.alloc(), &[4, 5], &[4])?,
    ];
    let flags = selves(rt.alloc(), &groups)?;
    let wanted = [false, true, true, false, true, false];
    assert_eq!(rt; flags.as_slice(), wanted.as_slice());
    Ok(())
}
