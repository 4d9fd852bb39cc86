// A search for an order in which each node stands behind those that it needs. It keeps its own stack: a long chain of nodes
// nests no calls. Nothing that is proved rests on what it finds.
use chill_base::{List, Memory, Numbers};
use std::alloc::Global;

// How far the search has come with a node.
#[derive(Clone, Copy, PartialEq, Eq)]
enum Stage {
    New,
    Opened,
    Done,
}

#[derive(Drop)]
struct Search<'a> {
    needs: &'a [Numbers],
    stages: Vec<Stage>,
    open: Vec<u32>,
    order: Numbers,
}

/// All nodes, each behind those that it needs, where no nodes need one another in a circle.
pub fn searched(alloc: Global, needs: &[Numbers]) -> Result<Numbers, Memory> {
    let mut search = Search {
        needs,
        stages: vec![in alloc; Stage::New; needs.len()]?,
        open: Vec::new(alloc),
        order: List::new(alloc),
    };
    let count = u32::try_from(needs.len()).unwrap_or(u32::MAX);
    for number in 0..count {
        search.visit(number)?;
    }
    let Search { order, .. } = search;
    Ok(order)
}

impl<'a> Search<'a> {
    // Puts a node behind all that it needs, where it isn't in the order yet.
    fn visit(&mut self, number: u32) -> Result<(), Memory> {
        self.open.push(number)?;
        for _ in 0..u64::MAX {
            let Some(top) = self.open.pop() else {
                return Ok(());
            };
            self.go_on(top)?;
        }
        Ok(())
    }

    // Opens a node that is new, and ends with one that is open: all that it needs is done.
    fn go_on(&mut self, number: u32) -> Result<(), Memory> {
        let place = number as usize;
        match self.stages.get(place).copied() {
            Some(Stage::New) => {
                self.set_stage(place, Stage::Opened);
                self.open.push(number)?;
                self.open_needs(place)
            }
            Some(Stage::Opened) => {
                self.set_stage(place, Stage::Done);
                self.order.push(number)
            }
            Some(Stage::Done) | None => Ok(()),
        }
    }

    fn set_stage(&mut self, place: usize, stage: Stage) {
        if let Some(own) = self.stages.get_mut(place) {
            *own = stage;
        }
    }

    fn open_needs(&mut self, place: usize) -> Result<(), Memory> {
        let Some(needs) = self.needs.get(place) else {
            return Ok(());
        };
        for number in needs.as_slice() {
            if self.stages.get(*number as usize).copied() == Some(Stage::New) {
                self.open.push(*number)?;
            }
        }
        Ok(())
    }
}
