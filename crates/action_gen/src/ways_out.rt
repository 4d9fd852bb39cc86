// The way out of a body: what a call gives back, or the end of a process.
#![tactic(auto, using(expr_gen::proofs::Appending::keeping))]

ghost use Rattle.std.specs.Prelude.{◌≡◌, length, OnOk};
ghost use Rattle.program_trees.specs.ProgramTree.{body_row_tree};
ghost use Rattle.code_scheme.specs.Pieces.{capped};
ghost use Rattle.code_scheme.specs.StatementSite.{is_given_back};
ghost use Rattle.code_scheme.specs.StatementPlain.{entered_by, leave_region, end_of_call, way_out_code};
ghost use Rattle.expr_gen.specs.Putting.{Keeps};
ghost use Rattle.expr_gen.specs.Puts.{PutsAll};
ghost use Rattle.action_gen.specs.Puts.{PutsGivenBack, given_back};
ghost use Rattle.action_gen.specs.WaysOut.{PutsEnd, PutsOwnResult, PutsParameters, PutsWayOut};

use checked_program::{Body, LocalRow, Parameter, Passing, Sort};
use code_types::Instr;
use expr_gen::{Draft, PartRefusal, declared_scalars, result_scalars, uncapped};

/// The region that a call of the body enters.
pub fn critical_region(body: &Body) -> Option<u32>
    ensures { result ≡ entered_by (body_row_tree body.now) }
{
    if body.critical { body.region } else { None }
}

/// Appends the way out of a body: a process ends, a call gives back its result and its OUT and INOUT parameters.
pub fn put_way_out(body: &Body, draft: &mut Draft) -> Result<(), PartRefusal>
    ensures puts { OnOk result (PutsWayOut body.now draft.old draft.new) }
    ensures keeps { Keeps draft.old.code draft.new.code }
{
    match body.sort {
        Sort::Outermost | Sort::Process => draft.put(Instr::Finish),
        Sort::Procedure => put_return(body, draft),
    }
}

// The region is left, and the result and the parameters are given back.
fn put_return(body: &Body, draft: &mut Draft) -> Result<(), PartRefusal>
    ensures puts { OnOk result (PutsEnd body.now draft.old draft.new) }
    ensures keeps { Keeps draft.old.code draft.new.code }
{
    put_leave(critical_region(body), draft)?;
    put_own_result(body, draft)?;
    put_parameters(body.parameters.as_slice(), body.locals.as_slice(), draft)?;
    draft.put(Instr::Return)?;
    Ok(())
}

// A region is left, where there is one.
fn put_leave(region: Option<u32>, draft: &mut Draft) -> Result<(), PartRefusal>
    ensures puts { OnOk result (PutsAll (leave_region region) draft.old draft.new) }
    ensures keeps { Keeps draft.old.code draft.new.code }
{
    match region {
        Some(region) => draft.put(Instr::Leave(region)),
        None => Ok(()),
    }
}

// The result of a body, where it has scalars.
fn put_own_result(body: &Body, draft: &mut Draft) -> Result<(), PartRefusal>
    ensures puts { OnOk result (PutsOwnResult body.now draft.old draft.new) }
    ensures keeps { Keeps draft.old.code draft.new.code }
{
    let first = uncapped(declared_scalars(body))?;
    if result_scalars(body) > 0 {
        draft.put(Instr::Local(first, result_scalars(body)))
    } else {
        Ok(())
    }
}

// The OUT and INOUT parameters, the last one lowest.
fn put_parameters(
    parameters: &[Parameter],
    locals: &[LocalRow],
    draft: &mut Draft,
) -> Result<(), PartRefusal>
    ensures puts { OnOk result (PutsParameters parameters.now locals.now draft.old draft.new) }
    ensures keeps { Keeps draft.old.code draft.new.code }
{
    let count = parameters.len().min(locals.len());
    for _turn in 0..count {
        let i = count - 1 - _turn;
        put_given_back(parameters[i].passing, &locals[i], draft)?;
    }
    Ok(())
}

// A parameter, where a call gives it back.
fn put_given_back(passing: Passing, local: &LocalRow, draft: &mut Draft) -> Result<(), PartRefusal>
    ensures puts { OnOk result (PutsGivenBack passing local.now draft.old draft.new) }
    ensures keeps { Keeps draft.old.code draft.new.code }
{
    if is_given_back(passing) {
        draft.put(Instr::Local(local.first, local.count))
    } else {
        Ok(())
    }
}

// Whether a call gives a parameter back.
fn is_given_back(passing: Passing) -> bool
    ensures { result ≡ is_given_back passing }
{
    match passing {
        Passing::In => false,
        Passing::Out | Passing::InOut => true,
    }
}

/// How many instructions the way out of a body has.
pub fn way_out_size(body: &Body) -> u32
    ensures { result ≡ capped (length (way_out_code (body_row_tree body.now))) }
{
    match body.sort {
        Sort::Outermost | Sort::Process => 1,
        Sort::Procedure => return_size(body),
    }
}

fn return_size(body: &Body) -> u32
    ensures { result ≡ capped (length (end_of_call (body_row_tree body.now))) }
{
    let region = u32::from(critical_region(body).is_some());
    let result = u32::from(result_scalars(body) > 0);
    let parameters = parameters_size(body.parameters.as_slice(), body.locals.as_slice());
    region
        .saturating_add(result)
        .saturating_add(parameters)
        .saturating_add(1)
}

fn parameters_size(parameters: &[Parameter], locals: &[LocalRow]) -> u32
    ensures { result ≡ capped (length (given_back parameters.now locals.now)) }
{
    let mut size = 0u32;
    let count = parameters.len().min(locals.len());
    for i in 0..count {
        if is_given_back(parameters[i].passing) {
            size = size.saturating_add(1);
        }
    }
    size
}
