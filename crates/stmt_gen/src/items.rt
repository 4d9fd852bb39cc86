// Modules and regions at their places.
ghost use Rattle.std.specs.Prelude.{◌≡◌, true, OnOk};
ghost use Rattle.checked_program.specs.declared.statement.Statement.{out-Statement};
ghost use Rattle.program_trees.specs.StatementTree.{action_tree};
ghost use Rattle.code_scheme.specs.StatementGoing.{is_modulion};
ghost use Rattle.stmt_gen.specs.Appending.{KeepsFront};
ghost use Rattle.stmt_gen.specs.Modulions.{PutsItems, PutsItem, PutsModule, PutsRegion, PutsSomeHandler};

use crate::again::{put_again, raised_between};
use crate::going_on::{go_on, goes_on, is_modulion};
use crate::statements::{put_handler, put_statement, put_statements};
use action_gen::Around;
use checked_program::{Action, Handler, Statement};
use code_types::Instr;
use expr_gen::{Draft, PartRefusal};

/// Appends the code of what the outermost process does: statements, modules and regions in their order, as far as
/// control comes.
#[tactic(auto, using(crate::proofs::Front::keeping_front))]
#[cycle(item)]
pub fn put_items(items: &[Statement], around: &Around, draft: &mut Draft) -> Result<(), PartRefusal>
    ensures puts { OnOk result (PutsItems around.now items.now draft.old draft.new) }
    ensures keeps { KeepsFront draft.old.code draft.new.code }
{
    for item in items {
        put_item(item, around, draft)?;
        if !goes_on(item) {
            return Ok(());
        }
    }
    Ok(())
}

// A modulion with its handler, or a statement.
#[tactic(auto, using(crate::proofs::Front::keeping_front))]
#[cycle(item)]
fn put_item(item: &Statement, around: &Around, draft: &mut Draft) -> Result<(), PartRefusal>
    ensures puts { OnOk result (PutsItem around.now item.now draft.old draft.new) }
    ensures keeps { KeepsFront draft.old.code draft.new.code }
{
    if is_modulion(&item.action) {
        put_modulion(item, around, draft)
    } else {
        put_statement(item, around, draft)
    }
}

// A modulion with its handler.
#[tactic(auto, using(crate::proofs::Front::keeping_front, action_gen::proofs::Views::statement_built))]
#[cycle(item)]
fn put_modulion(item: &Statement, around: &Around, draft: &mut Draft) -> Result<(), PartRefusal>
    requires { is_modulion (action_tree (out-Statement item.now).action.value) ≡ true }
    ensures puts { OnOk result (PutsItem around.now item.now draft.old draft.new) }
    ensures keeps { KeepsFront draft.old.code draft.new.code }
{
    match &*item.action {
        Action::Module { actions } => put_module(actions.as_slice(), &item.handler, around, draft),
        Action::Region { region, actions } => {
            let initialisations = actions.as_slice();
            put_region(*region, initialisations, &item.handler, around, draft)
        }
        // These are no modulions.
        Action::If { .. } | Action::Case { .. } | Action::Do { .. } | Action::Begin { .. } => Ok(
            (),
        ),
        Action::DelayCase { .. } => Ok(()),
        Action::ReceiveBuffers { .. } | Action::ReceiveSignals { .. } => Ok(()),
        Action::Nothing | Action::Declare { .. } | Action::Lowest { .. } => Ok(()),
        Action::Assign { .. } | Action::Update { .. } | Action::Call(_) => Ok(()),
        Action::Routine { .. } | Action::Evaluate(_) | Action::PutInt(_) => Ok(()),
        Action::PutText(_) | Action::PutLine | Action::Exit { .. } => Ok(()),
        Action::Return { .. } | Action::Result { .. } | Action::Assert(_) => Ok(()),
        Action::Cause { .. } | Action::Stop | Action::Start(_) => Ok(()),
        Action::Delay { .. } | Action::Continue { .. } | Action::Send { .. } => Ok(()),
    }
}

// A module with its handler.
#[tactic(auto, using(crate::proofs::Front::keeping_front))]
#[cycle(item)]
fn put_module(
    items: &[Statement],
    handler: &Option<Box<Handler>>,
    around: &Around,
    draft: &mut Draft,
) -> Result<(), PartRefusal>
    ensures puts { OnOk result (PutsModule around.now items.now handler.now draft.old draft.new) }
    ensures keeps { KeepsFront draft.old.code draft.new.code }
{
    let from = draft.target_behind(0)?;
    put_items(items, around, draft)?;
    put_some_handler(handler, from, go_on(items), around, draft)
}

// The handler of what stands from this place up to the present one, where it has one.
#[tactic(auto, using(crate::proofs::Front::keeping_front))]
fn put_some_handler(
    handler: &Option<Box<Handler>>,
    from: u32,
    comes: bool,
    around: &Around,
    draft: &mut Draft,
) -> Result<(), PartRefusal>
    ensures puts { OnOk result (PutsSomeHandler around.now handler.now from comes draft.old draft.new) }
    ensures keeps { KeepsFront draft.old.code draft.new.code }
{
    match handler {
        Some(handler) => put_handler(handler, from, comes, around, draft),
        None => Ok(()),
    }
}

// The initialisations of a region with its handler. The region is released behind them, also where an exception goes out
// of them.
#[tactic(auto, using(crate::proofs::Front::keeping_front))]
fn put_region(
    region: u32,
    initialisations: &[Statement],
    handler: &Option<Box<Handler>>,
    around: &Around,
    draft: &mut Draft,
) -> Result<(), PartRefusal>
    ensures puts { OnOk result
        (PutsRegion around.now region initialisations.now handler.now draft.old draft.new) }
    ensures keeps { KeepsFront draft.old.code draft.new.code }
{
    draft.put(Instr::Enter(region))?;
    let from = draft.target_behind(0)?;
    put_statements(initialisations, around, draft)?;
    put_some_handler(handler, from, true, around, draft)?;
    let until = draft.target_behind(0)?;
    let raised = raised_between(from, until, around.site.program, draft)?;
    let count = (raised.len() as u64).min(u32::MAX as u64) as u32;
    let behind = draft.target_behind(count.saturating_mul(2).saturating_add(2))?;
    draft.put(Instr::Leave(region))?;
    draft.put(Instr::Jump(behind))?;
    put_again(raised.as_slice(), from, until, region, draft)
}
