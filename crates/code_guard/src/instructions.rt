// What is asked of each instruction and each handler, whatever the heights.
ghost use Rattle.std.specs.Prelude.{◌≡◌, ◌↔◌, ◌<◌, ◌≤◌, IsTrue, length, slice_get, Some, All};
ghost use Rattle.code_types.specs.Agreement.{BodiesRise, Everywhere, HandlesInOneBody, IsNamed, LeadsForward};
ghost use Rattle.code_guard.specs.Owners.{IsOwned, Owns};
ghost use Rattle.code_guard.specs.Fitting.{FitsInstr, IsOrdered};

use crate::bodies::end_of_body;
use crate::effects::{ends_there, jump_from};
use code_types::{BodyRow, Code, Handler, Instr};

/// Whether a body or a local that the instruction names is there, and a part lies in the numbers that it is a part of.
fn is_named(code: &Code, row: &BodyRow, instr: Instr) -> bool
    ensures { IsTrue result ↔ IsNamed code.now row.now instr }
{
    match instr {
        Instr::Local(first, count)
        | Instr::SetLocal(first, count)
        | Instr::LocalAt(first, count)
        | Instr::SetLocalAt(first, count) => first as u64 + count as u64 <= row.locals as u64,
        Instr::Part(first, count, of) => first as u64 + count as u64 <= of as u64,
        Instr::Call(body) | Instr::Start(body, _) => (body as usize) < code.bodies.len(),
        _ => true,
    }
}

/// Whether Jump and Unless lead to a later place.
fn leads_forward(place: usize, instr: Instr) -> bool
    ensures { IsTrue result ↔ LeadsForward place instr }
{
    match instr {
        Instr::Jump(to) | Instr::Unless(to) => place < to as usize,
        _ => true,
    }
}

fn fits_instr(code: &Code, body: usize, place: usize, instr: Instr) -> bool
    requires { Owns code.now body place }
    ensures { IsTrue result ↔ FitsInstr code.now body place instr }
{
    let row = code.bodies.at(body);
    let end = end_of_body(code, body);
    let stays = match jump_from(instr) {
        Some(to) => row.first <= to && (to as usize) < end,
        None => true,
    };
    let ends = place + 1 != end || ends_there(instr);
    is_named(code, row, instr) && stays && leads_forward(place, instr) && ends
}

/// Whether each instruction names what is there, stays in its body, and the last of a body doesn't go on.
pub fn instructions_fit(code: &Code, owners: &[usize]) -> bool
    requires rise { BodiesRise code.now }
    requires owned { IsOwned code.now owners.now }
    ensures { IsTrue result ↔ Everywhere code.now (λ body row place instr. FitsInstr code.now body place instr) }
{
    for place in 0..owners.len() {
        if !fits_instr(code, owners[place], place, *code.instrs.at(place)) {
            return false;
        }
    }
    true
}

// Whether a body's first instruction, the handler's range and its target follow each other.
fn is_ordered(first: u32, handler: &Handler) -> bool
    ensures { IsTrue result ↔ IsOrdered first handler.now }
{
    first <= handler.from && handler.from <= handler.until && handler.until <= handler.target
}

// Whether the handler's range and target lie in one body, the target behind the range.
fn handles_in_one_body(code: &Code, owners: &[usize], handler: &Handler) -> bool
    requires rise { BodiesRise code.now }
    requires owned { IsOwned code.now owners.now }
    ensures { IsTrue result ↔ HandlesInOneBody code.now handler.now }
{
    if handler.target as usize >= owners.len() {
        return false;
    }
    let body = owners[handler.target as usize];
    is_ordered(code.bodies.at(body).first, handler)
}

/// Whether each handler's range and target lie in one body, the target behind the range.
pub fn handlers_fit(code: &Code, owners: &[usize]) -> bool
    requires rise { BodiesRise code.now }
    requires owned { IsOwned code.now owners.now }
    ensures { IsTrue result ↔ All (HandlesInOneBody code.now) code.now.handlers }
{
    for i in 0..code.handlers.len() {
        if !handles_in_one_body(code, owners, code.handlers.at(i)) {
            return false;
        }
    }
    true
}
