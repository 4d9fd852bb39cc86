// What heights that were found have to meet besides.
ghost use Rattle.std.specs.Prelude.{◌≡◌, ◌↔◌, ◌+◌, ◌^◌, ◌<◌, ◌≤◌, IsTrue, length, slice_get, Some, All};
ghost use Rattle.code_types.specs.Agreement.{BodiesRise, Everywhere, HandlesInOneBody, HasHeight};
ghost use Rattle.code_guard.specs.Owners.{IsOwned};
ghost use Rattle.code_guard.specs.Heights.{KeepsHeight, Leaves, LeavesAt, MeetRest};

use crate::effects::{ends_there, jump_from, pops_of};
use crate::heights::height_behind;
use code_types::{Code, Handler, Instr};

fn is_height(heights: &[u32], place: usize, height: u64) -> bool
    ensures { IsTrue result ↔ HasHeight heights.now place height }
{
    place < heights.len() && heights[place] as u64 == height
}

// Whether the places to which an instruction leads have what it leaves.
fn leaves(heights: &[u32], place: usize, instr: Instr, height: u64, behind: u64) -> bool
    requires { place < length heights.now }
    ensures { IsTrue result ↔ Leaves heights.now place instr height behind }
{
    let count = heights.len();
    let on = ends_there(instr) || (place + 1 < count && is_height(heights, place + 1, behind));
    let jump = match jump_from(instr) {
        Some(to) => place >= to as usize || is_height(heights, to as usize, behind),
        None => true,
    };
    let again = match instr {
        Instr::Again(to) => is_height(heights, to as usize, height),
        _ => true,
    };
    on && jump && again
}

fn leaves_at(code: &Code, heights: &[u32], body: usize, place: usize, instr: Instr) -> bool
    requires { place < length heights.now }
    ensures { IsTrue result ↔ LeavesAt code.now heights.now body place instr }
{
    let height = heights[place] as u64;
    leaves(
        heights,
        place,
        instr,
        height,
        height_behind(code, body, instr, height),
    )
}

fn all_leave(code: &Code, owners: &[usize], heights: &[u32]) -> bool
    requires rise { BodiesRise code.now }
    requires owned { IsOwned code.now owners.now }
    requires count { length heights.now ≡ length owners.now }
    ensures { IsTrue result ↔ Everywhere code.now (λ body row place instr. LeavesAt code.now heights.now body place instr) }
{
    for place in 0..owners.len() {
        if !leaves_at(code, heights, owners[place], place, *code.instrs.at(place)) {
            return false;
        }
    }
    true
}

fn all_begin(code: &Code, heights: &[u32]) -> bool
    ensures { IsTrue result ↔ All (λ row. HasHeight heights.now row.first 0) code.now.bodies }
{
    code.bodies
        .as_slice()
        .iter()
        .all(|row| is_height(heights, row.first as usize, 0))
}

fn all_targets(code: &Code, heights: &[u32]) -> bool
    ensures { IsTrue result ↔ All (λ handler. HasHeight heights.now handler.target handler.height) code.now.handlers }
{
    code.handlers.as_slice().iter().all(|handler| {
        is_height(heights, handler.target as usize, handler.height as u64)
    })
}

fn keeps_height(
    code: &Code,
    heights: &[u32],
    handler: &Handler,
    body: usize,
    place: usize,
    instr: Instr,
) -> bool
    requires { place < length heights.now }
    ensures { IsTrue result ↔ KeepsHeight code.now heights.now handler.now body place instr }
{
    (place as u64) < handler.from as u64
        || place as u64 >= handler.until as u64
        || handler.height as u64 + pops_of(code, body, instr) <= heights[place] as u64
}

fn keep_in_range(code: &Code, owners: &[usize], heights: &[u32], handler: &Handler) -> bool
    requires rise { BodiesRise code.now }
    requires owned { IsOwned code.now owners.now }
    requires count { length heights.now ≡ length owners.now }
    ensures { IsTrue result ↔ Everywhere code.now (λ body row place instr. KeepsHeight code.now heights.now handler.now body place instr) }
{
    let end = (handler.until as usize).min(owners.len());
    for place in handler.from as usize..end {
        let instr = *code.instrs.at(place);
        if !keeps_height(code, heights, handler, owners[place], place, instr) {
            return false;
        }
    }
    true
}

fn all_keep(code: &Code, owners: &[usize], heights: &[u32]) -> bool
    requires rise { BodiesRise code.now }
    requires owned { IsOwned code.now owners.now }
    requires count { length heights.now ≡ length owners.now }
    ensures { IsTrue result ↔ All (λ handler. Everywhere code.now (λ body row place instr. KeepsHeight code.now heights.now handler body place instr)) code.now.handlers }
{
    for i in 0..code.handlers.len() {
        if !keep_in_range(code, owners, heights, code.handlers.at(i)) {
            return false;
        }
    }
    true
}

/// Whether bodies begin with 0, each instruction leaves the heights that stand where it leads, and handlers have theirs.
pub fn meet_rest(code: &Code, owners: &[usize], heights: &[u32]) -> bool
    requires rise { BodiesRise code.now }
    requires owned { IsOwned code.now owners.now }
    requires count { length heights.now ≡ length owners.now }
    ensures { IsTrue result ↔ MeetRest code.now heights.now }
{
    if !all_begin(code, heights) {
        return false;
    }
    if !all_targets(code, heights) {
        return false;
    }
    if !all_leave(code, owners, heights) {
        return false;
    }
    all_keep(code, owners, heights)
}
