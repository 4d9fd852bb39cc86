// The guard.
ghost use Rattle.std.specs.Prelude.{◌≡◌, ◌↔◌, IsTrue, IfOk, IfErr, All};
ghost use Rattle.code_types.specs.Agreement.{Agrees, BodiesRise, Everywhere, HandlesInOneBody};
ghost use Rattle.code_guard.specs.Owners.{IsOwned};
ghost use Rattle.code_guard.specs.Fitting.{FitsInstr};
ghost use Rattle.code_guard.specs.Heights.{HasHeights};
ghost use Rattle.code_guard.specs.Guarding.{IsRefusal};

use crate::bodies::{bodies_rise, owners_of, params_hold};
use crate::heights::heights_of;
use crate::instructions::{handlers_fit, instructions_fit};
use crate::meeting::meet_rest;
use chill_base::Memory;
use code_types::Code;
use std::alloc::Global;
use std::marker::Model;

/// A code that agrees. Contracts see it as the code.
#[derive(Drop)]
pub struct Guarded {
    code: Code,
}

impl Model for Guarded {
    ghost use Rattle.code_types.specs.declared.code.Code.{Code};
    ghost use Rattle.code_types.specs.Agreement.{Agrees};

    ghost Value = { Code };

    ghost view = { λ g. g.code };

    ghost invariant = { λ g. Agrees g.code };
}

/// Why a code isn't guarded.
#[derive(Drop)]
pub enum GuardRefusal {
    /// The code doesn't agree. It is handed back.
    Disagrees(Code),
    /// There was no memory. The code is given up.
    Memory,
}

impl Guarded {
    /// The code.
    pub fn code(&self) -> &Code
        ensures code { result.now ≡ self.now }
        ensures agrees { Agrees self.now }
    {
        &self.code
    }
}

// Whether the code has heights.
fn has_heights(alloc: Global, code: &Code, owners: &[usize]) -> Result<bool, Memory>
    requires rise { BodiesRise code.now }
    requires owned { IsOwned code.now owners.now }
    requires fit { Everywhere code.now (λ body row place instr. FitsInstr code.now body place instr) }
    requires handlers { All (HandlesInOneBody code.now) code.now.handlers }
    ensures { IfOk result (λ yes. IsTrue yes ↔ HasHeights code.now) }
{
    match heights_of(alloc, code, owners)? {
        Some(heights) => Ok(meet_rest(code, owners, &heights)),
        None => Ok(false),
    }
}

fn agrees(alloc: Global, code: &Code) -> Result<bool, Memory>
    ensures { IfOk result (λ yes. IsTrue yes ↔ Agrees code.now) }
{
    if !bodies_rise(code) {
        return Ok(false);
    }
    if !params_hold(code) {
        return Ok(false);
    }
    let owners = owners_of(alloc, code)?;
    if !instructions_fit(code, &owners) {
        return Ok(false);
    }
    if !handlers_fit(code, &owners) {
        return Ok(false);
    }
    let yes = has_heights(alloc, code, &owners)?;
    Ok(yes)
}

/// Accepts the code exactly where it agrees.
pub fn guard(alloc: Global, code: Code) -> Result<Guarded, GuardRefusal>
    ensures ok { IfOk result (λ guarded. (guarded ≡ code) × Agrees code) }
    ensures refused { IfErr result (IsRefusal code) }
{
    match agrees(alloc, &code) {
        Ok(true) => Ok(Guarded { code }),
        Ok(false) => Err(GuardRefusal::Disagrees(code)),
        Err(_) => Err(GuardRefusal::Memory),
    }
}
