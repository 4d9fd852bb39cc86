// Edges of a graph.

/// One node depends on another. Nodes are numbers from 0.
#[derive(Clone, Copy)]
pub struct Edge {
    pub from: u32,
    pub to: u32,
}
