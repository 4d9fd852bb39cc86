// Tarjan's search for strongly connected components, without recursion. Nothing is proved of the marks that it
// makes but that making them is safe and ends: a check tells whether they are right.
use crate::Edge;
use crate::marks::{Mark, mark_of, no_mark};
use chill_base::Memory;
use std::alloc::Global;

/// Marks for each node below `count`. It takes time in proportion to the nodes and edges.
pub fn found_marks(alloc: Global, count: u32, edges: &[Edge]) -> Result<Vec<Mark>, Memory> {
    let mut search = Search::new(alloc, count, edges)?;
    for node in 0..count {
        if mark_of(&search.marks, node).order == 0 {
            search.explore(node)?;
        }
    }
    let Search { marks, .. } = search;
    Ok(marks)
}

#[derive(Drop)]
struct Search<'a> {
    edges: &'a [Edge],
    // For each node the edge out of it that is followed next.
    waiting: Vec<Option<usize>>,
    // For each edge the one that is followed after it.
    after: Vec<Option<usize>>,
    marks: Vec<Mark>,
    // The nodes from where the search began to where it is.
    path: Vec<u32>,
    // The nodes that were found and whose component isn't known yet. Their marks have component 0.
    open: Vec<u32>,
    found: u32,
    components: u32,
}

impl<'a> Search<'a> {
    fn new(alloc: Global, count: u32, edges: &'a [Edge]) -> Result<Self, Memory> {
        let mut waiting = vec![in alloc; None; count as usize]?;
        let mut after = Vec::with_capacity(alloc, edges.len())?;
        for (place, edge) in edges.iter().enumerate() {
            let earlier = match waiting.get_mut(edge.from as usize) {
                Some(first) => first.replace(place),
                None => None,
            };
            after.push(earlier)?;
        }
        Ok(Search {
            edges,
            waiting,
            after,
            marks: vec![in alloc; no_mark(); count as usize]?,
            path: Vec::new(alloc),
            open: Vec::new(alloc),
            found: 0,
            components: 0,
        })
    }

    // Finds all that a node leads to. Each step follows an edge or leaves a node, so the bound is never reached.
    fn explore(&mut self, start: u32) -> Result<(), Memory> {
        self.find(start, 0)?;
        for _ in 0..self.edges.len().saturating_add(self.marks.len()) {
            let Some(node) = self.path.last() else {
                break;
            };
            let node = *node;
            match self.next_edge(node) {
                Some(place) => self.follow(node, place)?,
                None => self.leave(node),
            }
        }
        Ok(())
    }

    // A node was found over an edge.
    fn find(&mut self, node: u32, in_edge: usize) -> Result<(), Memory> {
        self.found = self.found.saturating_add(1);
        if let Some(mark) = self.marks.get_mut(node as usize) {
            mark.order = self.found;
            mark.lowest = self.found;
            mark.in_edge = in_edge;
        }
        self.path.push(node)?;
        self.open.push(node)?;
        Ok(())
    }

    // The place of the next edge out of a node that isn't followed yet.
    fn next_edge(&mut self, node: u32) -> Option<usize> {
        let waiting = self.waiting.get_mut(node as usize)?;
        let place = (*waiting)?;
        *waiting = match self.after.get(place) {
            Some(next) => *next,
            None => None,
        };
        Some(place)
    }

    fn follow(&mut self, node: u32, place: usize) -> Result<(), Memory> {
        let Some(edge) = self.edges.get(place) else {
            return Ok(());
        };
        let target = mark_of(&self.marks, edge.to);
        if target.order == 0 {
            return self.find(edge.to, place);
        }
        if target.component == 0 {
            self.lower(node, target.order, place);
        }
        Ok(())
    }

    // Over an edge the node reaches what was found as number `order` and is still open.
    fn lower(&mut self, node: u32, order: u32, place: usize) {
        if let Some(mark) = self.marks.get_mut(node as usize) {
            if order <= mark.lowest {
                mark.lowest = order;
                mark.out_edge = place;
                mark.cyclic = true;
            }
        }
    }

    // All edges of the node at the path's end are followed.
    fn leave(&mut self, node: u32) {
        let _ = self.path.pop();
        let mark = mark_of(&self.marks, node);
        if mark.lowest == mark.order {
            self.close(node);
        } else if let Some(before) = self.path.last() {
            let before = *before;
            self.lower(before, mark.lowest, mark.in_edge);
        }
    }

    // The open nodes from the root on are one component.
    fn close(&mut self, root: u32) {
        self.components = self.components.saturating_add(1);
        'nodes: while let Some(node) = self.open.pop() {
            if let Some(mark) = self.marks.get_mut(node as usize) {
                mark.component = self.components;
                mark.root = root;
            }
            if node == root {
                break;
            }
        }
    }
}
