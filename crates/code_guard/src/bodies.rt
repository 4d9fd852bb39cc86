// The bodies of a code: their order, and to which of them a place belongs.
ghost use Rattle.std.specs.Prelude.{◌≡◌, ◌↔◌, ◌<◌, ◌≤◌, IsTrue, IfOk, length, slice_get, Some, All};
ghost use Rattle.code_types.specs.Agreement.{BodiesRise, HoldsParams};
ghost use Rattle.code_types.specs.Places.{end_of};
ghost use Rattle.code_guard.specs.Owners.{IsOwned, Owns, ReachesTo, RisesAt};

use chill_base::Memory;
use code_types::Code;
use std::alloc::Global;

// Whether a body's first instruction is in the code, and before the next body's.
fn rises_at(code: &Code, body: usize) -> bool
    requires { body < length code.now.bodies }
    ensures { IsTrue result ↔ RisesAt code.now body }
{
    let first = code.bodies.at(body).first;
    let count = code.bodies.len();
    (first as usize) < code.instrs.len()
        && (body + 1 >= count || first < code.bodies.at(body + 1).first)
}

/// Whether there is a body, and the first instructions rise from 0 and are in the code.
pub fn bodies_rise(code: &Code) -> bool
    ensures { IsTrue result ↔ BodiesRise code.now }
{
    if code.bodies.is_empty() || code.bodies.at(0).first != 0 {
        return false;
    }
    for body in 0..code.bodies.len() {
        if !rises_at(code, body) {
            return false;
        }
    }
    true
}

/// Whether no body has more parameters than locals.
pub fn params_hold(code: &Code) -> bool
    ensures { IsTrue result ↔ All HoldsParams code.now.bodies }
{
    code.bodies
        .as_slice()
        .iter()
        .all(|row| row.params <= row.locals)
}

/// The place behind a body.
pub fn end_of_body(code: &Code, body: usize) -> usize
    requires { body < length code.now.bodies }
    ensures { result ≡ end_of code.now body }
{
    let count = code.bodies.len();
    if body + 1 < count {
        code.bodies.at(body + 1).first as usize
    } else {
        code.instrs.len()
    }
}

// The body to which a place belongs, where the place before it belongs to this one, or none is before it.
fn body_from(code: &Code, body: usize, place: usize) -> usize
    requires rise { BodiesRise code.now }
    requires there { place < length code.now.instrs }
    requires from { ReachesTo code.now body place }
    ensures { Owns code.now result place }
{
    let count = code.bodies.len();
    if body + 1 < count && code.bodies.at(body + 1).first as usize == place {
        body + 1
    } else {
        body
    }
}

/// For each place the body to which it belongs.
pub fn owners_of(alloc: Global, code: &Code) -> Result<Vec<usize>, Memory>
    requires { BodiesRise code.now }
    ensures { IfOk result (λ owners. IsOwned code.now owners.items) }
{
    let mut owners = Vec::with_capacity(alloc, code.instrs.len())?;
    let mut body = 0;
    for place in 0..code.instrs.len() {
        body = body_from(code, body, place);
        owners.push(body)?;
    }
    Ok(owners)
}
