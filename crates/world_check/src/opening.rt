// The world in which a run begins.
ghost use Rattle.std.specs.Prelude.{◌≡◌, ◌↔◌, IfOk, IsTrue, All, map, replicate, None, []};
ghost use Rattle.kernel_base.specs.Value as values;
ghost use Rattle.world_model.specs.World as worlds;
ghost use Rattle.world_check.specs.Opening.{HasFewMembersEach};

use crate::flat::{has_few_members, scalars_of};
use chill_base::{Item, List, Memory, Scalars};
use kernel_base::{Facts, How, Value};
use std::alloc::Global;
use world_model::{Phase, World};

fn store(alloc: Global, store: &[Value]) -> Result<List<Scalars>, Memory>
    requires { All HasFewMembersEach store.now }
    ensures { IfOk result (λ all. all ≡ map values.scalars_of store.now) }
{
    let mut all = Vec::new(alloc);
    for value in store {
        all.push(scalars_of(alloc, value)?)?;
    }
    Ok(List::from_vec(all))
}

fn free_regions(alloc: Global, count: u32) -> Result<List<Option<u32>>, Memory>
    ensures { IfOk result (λ all. all ≡ replicate count None) }
{
    let mut all = Vec::new(alloc);
    for _ in 0..count {
        all.push(None)?;
    }
    Ok(List::from_vec(all))
}

fn empty_lists<T: Drop>(alloc: Global, count: usize) -> Result<List<List<T>>, Memory>
    ensures { IfOk result (λ all. all ≡ replicate count []) }
{
    let mut all = Vec::new(alloc);
    for _ in 0..count {
        all.push(List::new(alloc))?;
    }
    Ok(List::from_vec(all))
}

/// Whether no powerset of the store has more members than its member mode has values, as those of sound facts.
pub fn have_few_members(facts: &Facts) -> bool
    ensures { IsTrue result ↔ All HasFewMembersEach facts.now.store }
{
    for value in facts.store.as_slice() {
        if !has_few_members(value) {
            return false;
        }
    }
    true
}

/// The world before the first event: instance 1 is active on process 0, and nothing is held, stored, pending or put.
pub fn opening_world(alloc: Global, facts: &Facts) -> Result<World, Memory>
    requires { All HasFewMembersEach facts.now.store }
    ensures { IfOk result (λ world. world ≡ worlds.opening facts.now) }
{
    Ok(World {
        processes: List::from_vec(vec![in alloc; 0, 0]?),
        arguments: empty_lists(alloc, 2)?,
        phases: List::from_vec(vec![in alloc; Phase::Ended { how: How::Normal }, Phase::Active]?),
        held: empty_lists(alloc, 2)?,
        occupants: free_regions(alloc, facts.regions)?,
        store: store(alloc, facts.store.as_slice())?,
        stored: empty_lists(alloc, facts.buffers.len())?,
        pending: List::new(alloc),
        input: facts.input.copy()?,
        output: List::new(alloc),
        sends: 0,
    })
}
