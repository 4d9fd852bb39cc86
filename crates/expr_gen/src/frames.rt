// Where things stand in the frame of a body: its locals, its result, and the scratch locals behind them.
ghost use Rattle.std.specs.Prelude.{◌≡◌, slice_get, if◌then◌else◌, map};
ghost use Rattle.program_trees.specs.ProgramTree.{checked_tree, body_row_tree, local_row_tree};
ghost use Rattle.code_scheme.specs.Pieces.{capped, first_in, rows_of};
ghost use Rattle.code_scheme.specs.StatementSite.{scalars_in, parameter_scalars, declared_scalars, result_scalars, first_free, is_given_back, call_results};

use checked_program::{Body, Checked, LocalRow, Passing};
use modes::number_of_scalars;

/// Where a part of a program stands.
#[derive(Clone, Copy)]
pub struct Site<'a> {
    pub program: &'a Checked,
    pub body: &'a Body,
}

/// The locals of the body of this number; none where there is no such body.
pub fn locals_of(program: &Checked, number: u32) -> &[LocalRow]
    ensures { map local_row_tree result.now ≡ rows_of (slice_get (checked_tree program.now).bodies number) }
{
    match program.bodies.as_slice().get(number as usize) {
        Some(body) => body.locals.as_slice(),
        None => &[],
    }
}

/// The first scalar of the local of this number; 0 where there is no such local.
pub fn first_of_local(body: &Body, number: u32) -> u32
    ensures { result ≡ first_in (slice_get (body_row_tree body.now).locals number) }
{
    match body.locals.as_slice().get(number as usize) {
        Some(local) => local.first,
        None => 0,
    }
}

// How many scalars locals have.
fn scalars_in(locals: &[LocalRow]) -> u32
    ensures { result ≡ capped (scalars_in (map local_row_tree locals.now)) }
{
    let mut scalars = 0u32;
    for local in locals {
        scalars = scalars.saturating_add(local.count);
    }
    scalars
}

/// How many scalars the parameters of a body have, which are its first locals.
pub fn parameter_scalars(body: &Body) -> u32
    ensures { result ≡ capped (parameter_scalars (body_row_tree body.now)) }
{
    let locals = body.locals.as_slice();
    let count = body.parameters.len().min(locals.len());
    scalars_in(&locals[..count])
}

/// How many scalars the locals of a body have that the program declares. The result stands behind them.
pub fn declared_scalars(body: &Body) -> u32
    ensures { result ≡ capped (declared_scalars (body_row_tree body.now)) }
{
    scalars_in(body.locals.as_slice())
}

/// How many scalars the result of a body has; none without RETURNS.
pub fn result_scalars(body: &Body) -> u32
    ensures { result ≡ result_scalars (body_row_tree body.now) }
{
    match &body.result {
        Some(mode) => number_of_scalars(mode),
        None => 0,
    }
}

/// The first scratch local of a body, behind its locals and its result.
pub fn first_free(body: &Body) -> u32
    ensures { result ≡ capped (first_free (body_row_tree body.now)) }
{
    declared_scalars(body).saturating_add(result_scalars(body))
}

/// How many scalars a call of the body gives back: the result, and the OUT and INOUT parameters.
pub fn call_results(body: &Body) -> u32
    ensures { result ≡ capped (call_results (body_row_tree body.now)) }
{
    let parameters = body.parameters.as_slice();
    let locals = body.locals.as_slice();
    let mut scalars = result_scalars(body);
    for i in 0..parameters.len().min(locals.len()) {
        scalars = scalars.saturating_add(scalars_back(parameters[i].passing, &locals[i]));
    }
    scalars
}

// How many scalars a call gives back of a parameter.
fn scalars_back(passing: Passing, local: &LocalRow) -> u32
    ensures { result ≡ (if is_given_back passing then local.now.count else 0) }
{
    match passing {
        Passing::In => 0,
        Passing::Out | Passing::InOut => local.count,
    }
}
