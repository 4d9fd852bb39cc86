// The bodies of a program.
ghost use Rattle.std.specs.Prelude.{◌≡◌, ◌≤◌, ◌<◌, pos, map, drop, length, Some, None, OnOk};
ghost use Rattle.std.specs.List.{list_all};
ghost use Rattle.modes.specs.ModeTree.{mode_tree};
ghost use Rattle.modes.specs.Scalars.{lowest_of};
ghost use Rattle.program_trees.specs.StatementTree.{statements_of, statement_tree, action_tree};
ghost use Rattle.program_trees.specs.ProgramTree.{body_row_tree, local_row_tree};
ghost use Rattle.code_scheme.specs.Pieces.{are_same};
ghost use Rattle.code_scheme.specs.BodyCode.{lowest_value_code, locals_code, lowest_code, is_set_lowest, sets_lowest, behind_lowest, end_code};
ghost use Rattle.code_scheme.specs.StatementPlain.{entered_by};
ghost use Rattle.expr_gen.specs.Puts.{PutsAll};
ghost use Rattle.action_gen.specs.Putting.{site_tree};
ghost use Rattle.code_gen.specs.Bodies.{AppendsBody, PutsBodies, PutsProgram, PutsGuardedBody, PutsDoing};

use crate::rows::row_of;
use action_gen::{Around, critical_region, put_way_out};
use checked_program::{Action, Body, Checked, LocalRow, Statement};
use chill_base::Scalars;
use code_types::Instr;
use expr_gen::{Draft, PartRefusal, Site, declared_scalars, first_free, put_scalars, uncapped};
use modes::{Mode, add_lowest};
use stmt_gen::{
    go_on, put_again, put_handler, put_items, raised_and_listed, raised_between,
    some_handler_goes_on,
};

/// So many instructions no code has: their places would be all numbers of 32 bits.
const GREATEST_LENGTH: usize = 4_294_967_295;

/// Appends the bodies of a program in the order of their numbers. There is no memory for 4,294,967,295 instructions.
pub fn put_bodies(program: &Checked, draft: &mut Draft) -> Result<(), PartRefusal>
    ensures places { OnOk result (length draft.new.code.instrs < 4294967295) }
    ensures puts { OnOk result (PutsProgram program.now draft.old draft.new) }
{
    put_all(program, program.bodies.as_slice(), draft)?;
    if draft.code.instrs.len() < GREATEST_LENGTH {
        Ok(())
    } else {
        Err(PartRefusal::Memory)
    }
}

// Bodies of a program with their rows, one behind the other.
fn put_all(program: &Checked, bodies: &[Body], draft: &mut Draft) -> Result<(), PartRefusal>
    ensures puts { OnOk result (PutsBodies program.now bodies.now draft.old draft.new) }
{
    for body in bodies {
        put_body(Site { program, body }, draft)?;
    }
    Ok(())
}

// A body and its row.
fn put_body(site: Site, draft: &mut Draft) -> Result<(), PartRefusal>
    ensures puts { OnOk result (AppendsBody (site_tree site.entry) draft.old.code draft.new.code) }
{
    let first = draft.target_behind(0)?;
    put_lowest_values(site.body, draft)?;
    put_inside(site, draft)?;
    let row = row_of(site, first, instrs_from(draft, first))?;
    draft.code.bodies.push(row)?;
    Ok(())
}

// The instructions of a draft from a place on.
fn instrs_from(draft: &Draft, first: u32) -> &[Instr]
    requires { first ≤ length draft.now.code.instrs }
    ensures { result.now ≡ drop first draft.now.code.instrs }
{
    &draft.code.instrs.as_slice()[first as usize..]
}

// The locals behind the parameters and the result get their lowest values.
fn put_lowest_values(body: &Body, draft: &mut Draft) -> Result<(), PartRefusal>
    ensures puts { OnOk result (PutsAll (lowest_code (body_row_tree body.now)) draft.old draft.new) }
{
    let locals = body.locals.as_slice();
    let parameters = body.parameters.len().min(locals.len());
    put_lowest_locals(&locals[parameters..], draft)?;
    match &body.result {
        Some(mode) => {
            let first = uncapped(declared_scalars(body))?;
            put_lowest_value(mode, first, draft)
        }
        None => Ok(()),
    }
}

// These locals get their lowest values.
fn put_lowest_locals(locals: &[LocalRow], draft: &mut Draft) -> Result<(), PartRefusal>
    ensures puts { OnOk result (PutsAll (locals_code (map local_row_tree locals.now)) draft.old draft.new) }
{
    for local in locals {
        put_lowest_value(&local.mode, local.first, draft)?;
    }
    Ok(())
}

// The locals from the first on get the lowest value of a mode. They are 0 already.
fn put_lowest_value(mode: &Mode, first: u32, draft: &mut Draft) -> Result<(), PartRefusal>
    ensures puts { OnOk result (PutsAll (lowest_value_code (lowest_of (mode_tree mode.now)) first) draft.old draft.new) }
{
    let mut lowest = Scalars::new(draft.allocator());
    add_lowest(mode, &mut lowest)?;
    if are_zeroes(lowest.as_slice()) {
        return Ok(());
    }
    let count = uncapped((lowest.len() as u64).min(u32::MAX as u64) as u32)?;
    put_scalars(lowest.as_slice(), draft)?;
    draft.put(Instr::SetLocal(first, count))
}

fn are_zeroes(scalars: &[i64]) -> bool
    ensures { result ≡ list_all (λ x. are_same x (pos 0)) scalars.now }
{
    for scalar in scalars {
        if *scalar != 0 {
            return false;
        }
    }
    true
}

// What a body does, and its way out. A critical procedure enters its region before and leaves it behind.
fn put_inside(site: Site, draft: &mut Draft) -> Result<(), PartRefusal>
    ensures puts { OnOk result (PutsDoing (entered_by (site_tree site.entry).body) site.entry draft.old draft.new) }
{
    match critical_region(site.body) {
        Some(region) => put_critical(site, region, draft),
        None => put_plain(site, draft),
    }
}

// A body that enters no region.
fn put_plain(site: Site, draft: &mut Draft) -> Result<(), PartRefusal>
    ensures puts { OnOk result (PutsDoing None site.entry draft.old draft.new) }
{
    put_handled(site, draft)?;
    put_some_way_out(site.body, draft)
}

// The way out of a body, where control comes to its end.
fn put_some_way_out(body: &Body, draft: &mut Draft) -> Result<(), PartRefusal>
    ensures puts { OnOk result (PutsAll (end_code (body_row_tree body.now)) draft.old draft.new) }
{
    if go_on(body.statements.as_slice()) || some_handler_goes_on(&body.handler) {
        put_way_out(body, draft)
    } else {
        Ok(())
    }
}

// The statements of a body with their handler.
fn put_handled(site: Site, draft: &mut Draft) -> Result<(), PartRefusal>
    ensures puts { OnOk result (PutsGuardedBody site.entry draft.old draft.new) }
{
    let from = draft.target_behind(0)?;
    let free = uncapped(first_free(site.body))?;
    let around = Around {
        site,
        free,
        exits: &[],
    };
    let statements = site.body.statements.as_slice();
    put_items(behind_lowest(statements), &around, draft)?;
    match &site.body.handler {
        Some(handler) => put_handler(handler, from, go_on(statements), &around, draft),
        None => Ok(()),
    }
}

// The statements behind the declarations without a value that stand first: a frame begins with the lowest values.
fn behind_lowest(statements: &[Statement]) -> &[Statement]
    ensures { statements_of result.now ≡ behind_lowest (statements_of statements.now) }
{
    for i in 0..statements.len() {
        if !sets_lowest(&statements[i]) {
            return &statements[i..];
        }
    }
    &statements[statements.len()..]
}

#[tactic(auto, using(action_gen::proofs::Views::statement_built))]
fn sets_lowest(statement: &Statement) -> bool
    ensures { result ≡ sets_lowest (statement_tree statement.now) }
{
    is_set_lowest(&statement.action)
}

// Whether an action is a declaration without a value.
#[tactic(auto, using(action_gen::proofs::Views::statement_built))]
fn is_set_lowest(action: &Action) -> bool
    ensures { result ≡ is_set_lowest (action_tree action.now) }
{
    match action {
        Action::Lowest { .. } => true,
        Action::Nothing | Action::Declare { .. } | Action::Module { .. } => false,
        Action::Region { .. } | Action::Assign { .. } | Action::Update { .. } => false,
        Action::Call(_) | Action::Routine { .. } | Action::Evaluate(_) => false,
        Action::PutInt(_) | Action::PutText(_) | Action::PutLine => false,
        Action::Exit { .. } | Action::Return { .. } | Action::Result { .. } => false,
        Action::Assert(_) | Action::Cause { .. } | Action::Stop | Action::Start(_) => false,
        Action::Delay { .. } | Action::Continue { .. } | Action::Send { .. } => false,
        Action::If { .. } | Action::Case { .. } | Action::Do { .. } => false,
        Action::Begin { .. } | Action::DelayCase { .. } => false,
        Action::ReceiveBuffers { .. } | Action::ReceiveSignals { .. } => false,
    }
}

// A critical procedure. An exception that it lists is raised again behind the release of the region.
fn put_critical(site: Site, region: u32, draft: &mut Draft) -> Result<(), PartRefusal>
    ensures puts { OnOk result (PutsDoing (Some region) site.entry draft.old draft.new) }
{
    draft.put(Instr::Enter(region))?;
    let from = draft.target_behind(0)?;
    put_handled(site, draft)?;
    let until = draft.target_behind(0)?;
    put_some_way_out(site.body, draft)?;
    let raised = raised_between(from, until, site.program, draft)?;
    let listed = raised_and_listed(&raised, &site.body.listed)?;
    put_again(listed.as_slice(), from, until, region, draft)
}
