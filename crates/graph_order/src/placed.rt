// The nodes that have been put in order.
ghost use Rattle.std.specs.Prelude.{◌≡◌, ◌<◌, ◌↔◌, [], IsTrue, IfOk, OnOk, length};
ghost use Rattle.std.specs.List.{Contains};
ghost use Rattle.graph_order.specs.Needs.{EachOnce};
ghost use Rattle.graph_order.specs.Placing.{with_node};

use chill_base::{List, Memory, Numbers};
use std::alloc::Global;
use std::marker::Model;

/// The nodes that have been put in order, each once.
#[derive(Drop)]
pub struct Placed {
    flags: Vec<bool>,
    order: Numbers,
}

impl Model for Placed {
    ghost use Rattle.std.specs.Vec.{vec_len};
    ghost use Rattle.graph_order.specs.Placing.{Places, IsPlaced};

    ghost Value = { Places };

    ghost view = { λ p. record { count = vec_len p.flags; order = p.order } };

    ghost invariant = { λ p. IsPlaced p.flags.items (vec_len p.flags) p.order };
}

impl Placed {
    /// None of so many nodes.
    #[tactic(auto, using(crate::proofs::Flags::none_placed))]
    pub fn new(alloc: Global, count: usize) -> Result<Placed, Memory>
        ensures { IfOk result (λ p. p ≡ record { count = count; order = [] }) }
    {
        let flags = vec![in alloc; false; count]?;
        Ok(Placed {
            flags,
            order: List::new(alloc),
        })
    }

    /// Whether a node has been put.
    pub fn has(&self, node: u32) -> bool
        ensures { IsTrue result ↔ Contains self.now.order node }
    {
        match self.flags.get(node as usize) {
            None => false,
            Some(flag) => *flag,
        }
    }

    /// Puts a node behind the others.
    pub fn put(&mut self, node: u32) -> Result<(), Memory>
        requires below { node < self.old.count }
        requires new { ¬ Contains self.old.order node }
        ensures { OnOk result (self.new ≡ with_node self.old node) }
    {
        self.order.push(node)?;
        self.flags[node as usize] = true;
        Ok(())
    }

    /// All of them, in the order in which they were put.
    pub fn into_order(self) -> Numbers
        ensures order { result ≡ self.order }
        ensures once { EachOnce [] result }
    {
        let Placed { order, .. } = self;
        order
    }
}
