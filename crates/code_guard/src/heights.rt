// The heights of the stack, found in one pass.
ghost use Rattle.std.specs.Prelude.{◌≡◌, ◌↔◌, ◌+◌, ◌^◌, ◌<◌, ◌≤◌, IsTrue, IsFalse, IfOk, IfSome, MatchOption, length, slice_get, Some, All};
ghost use Rattle.code_types.specs.Places.{height_after, is_last, jump_of};
ghost use Rattle.code_types.specs.Agreement.{BodiesRise, Everywhere, HandlesInOneBody};
ghost use Rattle.code_guard.specs.Owners.{IsOwned};
ghost use Rattle.code_guard.specs.Fitting.{FitsInstr};
ghost use Rattle.code_guard.specs.Heights.{AllHoldOperands, AreOnly, HasNoHeights, HoldsOperands, IsHeightAt, IsKnown, IsTold, IsUntold, told_by};

use crate::effects::{ends_there, finds_of, jump_from, pops_of, pushes_of};
use chill_base::Memory;
use code_types::{Code, Instr};
use std::alloc::Global;

// Nothing is known of so many places.
fn untold(alloc: Global, count: usize) -> Result<Vec<Option<u64>>, Memory>
    ensures { IfOk result (λ known. IsUntold count known.items) }
{
    let mut known = Vec::with_capacity(alloc, count)?;
    'places: for _ in 0..count {
        known.push(None)?;
    }
    Ok(known)
}

// Notes that each body begins with height 0.
fn tell_beginnings(code: &Code, known: &mut [Option<u64>])
    requires rise { BodiesRise code.now }
    requires known { IsKnown code.now (IsTold code.now 0 0 0) known.old }
    ensures { IsKnown code.now (IsTold code.now (length code.now.bodies) 0 0) known.new }
{
    for body in 0..code.bodies.len() {
        let first = code.bodies.at(body).first as usize;
        known[first] = Some(0);
    }
}

// Notes the heights of the handlers' targets.
fn tell_targets(code: &Code, known: &mut [Option<u64>])
    requires rise { BodiesRise code.now }
    requires handlers { All (HandlesInOneBody code.now) code.now.handlers }
    requires known { IsKnown code.now (IsTold code.now (length code.now.bodies) 0 0) known.old }
    ensures { IsKnown code.now (IsTold code.now (length code.now.bodies) (length code.now.handlers) 0) known.new }
{
    for i in 0..code.handlers.len() {
        let handler = code.handlers.at(i);
        known[handler.target as usize] = Some(handler.height as u64);
    }
}

// Notes the height that an instruction leaves to the later places to which it leads.
fn tell(known: &mut [Option<u64>], place: usize, instr: Instr, height: u64)
    requires on { IsFalse (is_last instr) → place + 1 < length known.old }
    requires jump { IfSome (jump_of instr) (λ to. to < length known.old) }
    ensures { known.new ≡ told_by place instr height known.old }
{
    if !ends_there(instr) {
        known[place + 1] = Some(height);
    }
    if let Some(to) = jump_from(instr) {
        if place < to as usize {
            known[to as usize] = Some(height);
        }
    }
}

// The height that is known at a place, else 0.
fn height_at(known: &[Option<u64>], place: usize) -> u64
    requires { place < length known.now }
    ensures { IsHeightAt known.now place result }
{
    match known[place] {
        Some(height) => height,
        None => 0,
    }
}

// Whether an instruction finds its operands, and the height isn't above the body's greatest.
fn holds_operands(code: &Code, body: usize, instr: Instr, height: u64) -> bool
    requires { body < length code.now.bodies }
    ensures holds { IsTrue result ↔ HoldsOperands code.now body instr height }
    ensures few { IsTrue result → height < 2 ^ 32 }
{
    let greatest = code.bodies.at(body).height;
    finds_of(code, body, instr) <= height && height <= greatest as u64
}

/// The height that an instruction leaves.
pub fn height_behind(code: &Code, body: usize, instr: Instr, height: u64) -> u64
    requires { height < 2 ^ 32 }
    ensures { result ≡ height_after code.now body instr height }
{
    height.saturating_sub(pops_of(code, body, instr)) + pushes_of(code, instr)
}

// The heights of all places, where the bodies' beginnings and the handlers' targets are told.
fn heights_from(
    alloc: Global,
    code: &Code,
    owners: &[usize],
    known: &mut [Option<u64>],
) -> Result<Option<Vec<u32>>, Memory>
    requires rise { BodiesRise code.now }
    requires owned { IsOwned code.now owners.now }
    requires fit { Everywhere code.now (λ body row place instr. FitsInstr code.now body place instr) }
    requires known { IsKnown code.now (IsTold code.now (length code.now.bodies) (length code.now.handlers) 0) known.old }
    ensures { IfOk result (λ found. MatchOption found (HasNoHeights code.now) (λ heights. AreOnly code.now (length owners.now) heights.items × AllHoldOperands code.now owners.now (length owners.now) heights.items)) }
{
    let mut heights = Vec::with_capacity(alloc, owners.len())?;
    for place in 0..owners.len() {
        let instr = *code.instrs.at(place);
        let body = owners[place];
        let height = height_at(known, place);
        if !holds_operands(code, body, instr, height) {
            return Ok(None);
        }
        heights.push(height as u32)?;
        let behind = height_behind(code, body, instr, height);
        tell(known, place, instr, behind);
    }
    Ok(Some(heights))
}

/// The only heights that the code may have, where each instruction finds its operands; none where the code has no heights.
pub fn heights_of(alloc: Global, code: &Code, owners: &[usize]) -> Result<Option<Vec<u32>>, Memory>
    requires rise { BodiesRise code.now }
    requires owned { IsOwned code.now owners.now }
    requires fit { Everywhere code.now (λ body row place instr. FitsInstr code.now body place instr) }
    requires handlers { All (HandlesInOneBody code.now) code.now.handlers }
    ensures { IfOk result (λ found. MatchOption found (HasNoHeights code.now) (λ heights. AreOnly code.now (length owners.now) heights.items × AllHoldOperands code.now owners.now (length owners.now) heights.items)) }
{
    let mut known = untold(alloc, code.instrs.len())?;
    tell_beginnings(code, &mut known);
    tell_targets(code, &mut known);
    heights_from(alloc, code, owners, &mut known)
}
