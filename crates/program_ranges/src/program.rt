// Whether the numbers of a program are in range.
ghost use Rattle.std.specs.Prelude.{◌≡◌, ◌↔◌, IsTrue};
ghost use Rattle.program_ranges.specs.ProgramRanges.{AreInRange, is_small, all_small, some_small, is_region, locations_fit, buffers_fit, is_receiver, signals_fit, local_fits, locals_fit, has_region, head_fits, inside_fits, bodies_fit};

use crate::actions::all_exceptions;
use crate::around::is_process;
use crate::statements::{some_handler, statements_hold};
use checked_program::{Body, BufferRow, Checked, LocalRow, LocationRow, SignalRow};
use modes::{Mode, number_of_scalars};
use std::rc::Rc;

/// Whether the numbers of a program are in range: what they name is there, and has as many scalars as is asked of it.
/// It takes no memory.
pub fn are_in_range(program: &Checked) -> bool
    ensures { IsTrue result ↔ AreInRange program.now }
{
    locations_fit(program.locations.as_slice(), program)
        && buffers_fit(program.buffers.as_slice())
        && signals_fit(program.signals.as_slice(), program)
        && program.bodies.len() > 0
        && bodies_fit(program.bodies.as_slice(), program)
}

// Whether a mode has at most 4,096 scalars.
fn is_small(mode: &Rc<Mode>) -> bool
    ensures { result ≡ is_small mode.now }
{
    number_of_scalars(mode) < 4097
}

// The same of each of these modes.
fn all_small(modes: &[Rc<Mode>]) -> bool
    ensures { result ≡ all_small modes.now }
{
    for mode in modes {
        if !is_small(mode) {
            return false;
        }
    }
    true
}

// The same of a mode that may be told.
fn some_small(mode: &Option<Rc<Mode>>) -> bool
    ensures { result ≡ some_small mode.now }
{
    match mode {
        Some(mode) => is_small(mode),
        None => true,
    }
}

// Whether there is a region of this number, where one is told.
fn is_region(region: Option<u32>, program: &Checked) -> bool
    ensures { result ≡ is_region region program.now }
{
    match region {
        Some(region) => region < program.regions,
        None => true,
    }
}

// Whether each shared location fits.
fn locations_fit(locations: &[LocationRow], program: &Checked) -> bool
    ensures { result ≡ locations_fit locations.now program.now }
{
    for location in locations {
        if !(is_small(&location.mode) && is_region(location.region, program)) {
            return false;
        }
    }
    true
}

// Whether the values of each buffer fit.
fn buffers_fit(buffers: &[BufferRow]) -> bool
    ensures { result ≡ buffers_fit buffers.now }
{
    for buffer in buffers {
        if !is_small(&buffer.element) {
            return false;
        }
    }
    true
}

// Whether each signal fits.
fn signals_fit(signals: &[SignalRow], program: &Checked) -> bool
    ensures { result ≡ signals_fit signals.now program.now }
{
    for signal in signals {
        if !(all_small(signal.parts.as_slice()) && is_receiver(signal.process, program)) {
            return false;
        }
    }
    true
}

// Whether there is a process of this number, where one is told.
fn is_receiver(process: Option<u32>, program: &Checked) -> bool
    ensures { result ≡ is_receiver process program.now }
{
    match process {
        Some(process) => match program.bodies.as_slice().get(process as usize) {
            Some(body) => is_process(body.sort),
            None => false,
        },
        None => true,
    }
}

// Whether the locals have as many scalars as their modes, and follow each other.
fn locals_fit(locals: &[LocalRow]) -> bool
    ensures { result ≡ locals_fit 0 locals.now }
{
    let mut first = 0u64;
    for local in locals {
        if !local_fits(local, first) {
            return false;
        }
        first = u64::from(local.first) + u64::from(local.count);
    }
    true
}

// Whether the first scalar of a local is this one, and it has as many as its mode.
fn local_fits(local: &LocalRow, first: u64) -> bool
    ensures { result ≡ local_fits first local.now }
{
    u64::from(local.first) == first
        && (is_small(&local.mode) && number_of_scalars(&local.mode) == local.count)
}

// Whether there is a region, where a procedure is critical.
fn has_region(critical: bool, region: Option<u32>) -> bool
    ensures { result ≡ has_region critical region }
{
    match region {
        Some(_) => true,
        None => !critical,
    }
}

// Whether the head of a body fits.
fn head_fits(body: &Body, program: &Checked) -> bool
    ensures { result ≡ head_fits body.now program.now }
{
    (is_region(body.region, program) && has_region(body.critical, body.region))
        && ((body.parameters.len() <= body.locals.len() && locals_fit(body.locals.as_slice()))
            && (some_small(&body.result) && all_exceptions(body.listed.as_slice(), program)))
}

// Whether the numbers in the statements of a body and in its handler are in range.
fn inside_fits(body: &Body, program: &Checked) -> bool
    ensures { result ≡ inside_fits body.now program.now }
{
    statements_hold(body.statements.as_slice(), true, 0, program, body)
        && some_handler(&body.handler, 0, program, body)
}

// Whether each body fits.
fn bodies_fit(bodies: &[Body], program: &Checked) -> bool
    ensures { result ≡ bodies_fit bodies.now program.now }
{
    for body in bodies {
        if !(head_fits(body, program) && inside_fits(body, program)) {
            return false;
        }
    }
    true
}
