// Actions that hold no statements.
#![tactic(auto, using(expr_gen::proofs::Appending::keeping))]

ghost use Rattle.std.specs.Prelude.{◌≡◌, ◌+◌, true, false, reverse, slice_index_or, OnOk};
ghost use Rattle.program_trees.specs.ExprTree.{call_tree, start_tree};
ghost use Rattle.program_trees.specs.StatementTree.{action_tree};
ghost use Rattle.code_scheme.specs.Pieces.{capped};
ghost use Rattle.code_scheme.specs.ExprSizes.{start_size};
ghost use Rattle.code_scheme.specs.StatementPlain.{perform_size, dropped_scalars, drop_code};
ghost use Rattle.action_gen.specs.Putting.{site_tree, holds_statements, asks};
ghost use Rattle.expr_gen.specs.Putting.{Keeps};
ghost use Rattle.expr_gen.specs.Puts.{PutsAll};
ghost use Rattle.action_gen.specs.Puts.{IsAskingSize, IsPlainSize, PutsAssert, PutsDropped, PutsDroppedStart, PutsExit, PutsPerform, PutsPlainAction, PutsTaken};

use crate::around::Around;
use crate::assigning::{
    Change, assign_size, declare_size, lowest_size, put_assign, put_declare, put_lowest_of,
    put_result, put_return, put_update, result_size, return_size, update_size,
};
use crate::requests::{put_delay, put_send, send_size};
use checked_program::{Action, Call, Expr, Routine, Start};
use code_types::Instr;
use expr_gen::{
    Branch, Draft, PartRefusal, Site, call_size, condition_size, expr_size, put_call,
    put_condition, put_expr, put_routine, put_start, received_sizes, result_scalars, routine_size,
};

/// The number of ASSERTFAIL.
const ASSERTFAIL: u32 = 3;

/// Appends the code of an action that holds no statements. A modulion's code stands in bodies of its own, and what holds
/// statements is put elsewhere.
#[tactic(auto, using(crate::proofs::Views::statement_built, expr_gen::proofs::Appending::keeping))]
pub fn put_plain(action: &Action, around: &Around, draft: &mut Draft) -> Result<(), PartRefusal>
    ensures puts { holds_statements (action_tree action.now) ≡ false
        → OnOk result (PutsPlainAction around.now action.now draft.old draft.new) }
    ensures keeps { Keeps draft.old.code draft.new.code }
{
    match action {
        Action::Nothing => Ok(()),
        Action::Declare { names, value } => put_declare(names.as_slice(), value, around, draft),
        Action::Lowest { locals, value } => {
            put_lowest_of(locals.as_slice(), value.as_slice(), around, draft)
        }
        Action::Assign { target, value } => put_assign(target, value, around, draft),
        Action::Update {
            target,
            operator,
            value,
            bounds,
        } => {
            let change = Change {
                operator: *operator,
                value: &**value,
                bounds: *bounds,
            };
            put_update(target, change, around, draft)
        }
        Action::Exit { outwards } => put_exit(*outwards, around, draft),
        Action::Return { value } => put_return(value, around, draft),
        Action::Result { value } => put_result(value, around, draft),
        Action::Assert(condition) => put_assert(condition, around, draft),
        Action::Cause { exception } => draft.put(Instr::Raise(*exception)),
        Action::Stop => draft.put(Instr::Stop),
        Action::Call(_) | Action::Routine { .. } | Action::Evaluate(_) => {
            put_asking(action, around, draft)
        }
        Action::PutInt(_) | Action::PutText(_) | Action::PutLine => {
            put_asking(action, around, draft)
        }
        Action::Start(_) | Action::Delay { .. } | Action::Continue { .. } | Action::Send { .. } => {
            put_asking(action, around, draft)
        }
        Action::Module { .. } => Ok(()),
        Action::Region { .. } => Ok(()),
        // These hold statements.
        Action::If { .. } | Action::Case { .. } | Action::Do { .. } | Action::Begin { .. } => Ok(
            (),
        ),
        Action::DelayCase { .. } => Ok(()),
        Action::ReceiveBuffers { .. } | Action::ReceiveSignals { .. } => Ok(()),
    }
}

// Appends the code of an action that calls, asks or puts.
#[tactic(auto, using(crate::proofs::Views::statement_built, expr_gen::proofs::Appending::keeping))]
fn put_asking(action: &Action, around: &Around, draft: &mut Draft) -> Result<(), PartRefusal>
    ensures puts { asks (action_tree action.now) ≡ true
        → OnOk result (PutsPlainAction around.now action.now draft.old draft.new) }
    ensures keeps { Keeps draft.old.code draft.new.code }
{
    match action {
        Action::Call(call) => put_dropped_call(call, around, draft),
        Action::Routine { routine, argument } => {
            put_dropped_routine(*routine, argument, around, draft)
        }
        Action::Evaluate(value) => put_used(value, Instr::Pop(value.count), around, draft),
        Action::PutInt(value) => put_used(value, Instr::PutInt, around, draft),
        Action::PutText(value) => put_used(value, Instr::PutText(value.count), around, draft),
        Action::PutLine => draft.put(Instr::PutLine),
        Action::Start(start) => put_dropped_start(start, around, draft),
        Action::Delay { event, priority } => put_delay(*event, *priority, draft),
        Action::Continue { event } => draft.put(Instr::Continue(*event)),
        Action::Send { sent, priority } => put_send(sent, *priority, around, draft),
        // These neither call nor ask nor put.
        Action::Nothing | Action::Declare { .. } | Action::Lowest { .. } => Ok(()),
        Action::Assign { .. } | Action::Update { .. } | Action::Assert(_) => Ok(()),
        Action::Exit { .. } | Action::Return { .. } | Action::Result { .. } => Ok(()),
        Action::Cause { .. } | Action::Stop => Ok(()),
        Action::Module { .. } | Action::Region { .. } | Action::Begin { .. } => Ok(()),
        Action::If { .. } | Action::Case { .. } | Action::Do { .. } => Ok(()),
        Action::DelayCase { .. } => Ok(()),
        Action::ReceiveBuffers { .. } | Action::ReceiveSignals { .. } => Ok(()),
    }
}

/// How many instructions an action that holds no statements has. A modulion counts nothing, and what holds statements is
/// counted elsewhere.
#[tactic(auto, using(crate::proofs::Views::statement_built, expr_gen::proofs::Appending::keeping))]
pub fn plain_size(action: &Action, site: &Site) -> u32
    ensures { IsPlainSize site.now action.now result }
{
    match action {
        Action::Nothing => 0,
        Action::Declare { names, value } => declare_size(names.as_slice(), value),
        Action::Lowest { locals, value } => lowest_size(locals.as_slice(), value.as_slice()),
        Action::Assign { target, value } => assign_size(target, value),
        Action::Update {
            target,
            operator,
            value,
            bounds,
        } => {
            let change = Change {
                operator: *operator,
                value: &**value,
                bounds: *bounds,
            };
            update_size(target, change)
        }
        Action::Return { value } => return_size(value, site),
        Action::Result { value } => result_size(value),
        Action::Assert(condition) => condition_size(condition, true).saturating_add(1),
        Action::Exit { .. } | Action::Cause { .. } | Action::Stop => 1,
        Action::Call(_) | Action::Routine { .. } | Action::Evaluate(_) => asking_size(action, site),
        Action::PutInt(_) | Action::PutText(_) | Action::PutLine => asking_size(action, site),
        Action::Start(_) | Action::Delay { .. } | Action::Continue { .. } | Action::Send { .. } => {
            asking_size(action, site)
        }
        // A modulion's code stands in bodies of its own.
        Action::Module { .. } | Action::Region { .. } => 0,
        // These hold statements.
        Action::If { .. } | Action::Case { .. } | Action::Do { .. } | Action::Begin { .. } => 0,
        Action::DelayCase { .. } => 0,
        Action::ReceiveBuffers { .. } | Action::ReceiveSignals { .. } => 0,
    }
}

// How many instructions an action has that calls, asks or puts.
#[tactic(auto, using(crate::proofs::Views::statement_built, expr_gen::proofs::Appending::keeping))]
fn asking_size(action: &Action, site: &Site) -> u32
    ensures { IsAskingSize site.now action.now result }
{
    match action {
        Action::Call(call) => dropped_call_size(call, site),
        Action::Routine { routine, argument } => expr_size(argument)
            .saturating_add(routine_size(*routine))
            .saturating_add(1),
        Action::Evaluate(value) | Action::PutInt(value) | Action::PutText(value) => {
            expr_size(value).saturating_add(1)
        }
        Action::Start(start) => dropped_start_size(start),
        Action::Delay { .. } => 4,
        Action::PutLine | Action::Continue { .. } => 1,
        Action::Send { sent, .. } => send_size(sent),
        // These neither call nor ask nor put.
        Action::Nothing | Action::Declare { .. } | Action::Lowest { .. } => 0,
        Action::Assign { .. } | Action::Update { .. } | Action::Assert(_) => 0,
        Action::Exit { .. } | Action::Return { .. } | Action::Result { .. } => 0,
        Action::Cause { .. } | Action::Stop => 0,
        Action::Module { .. } | Action::Region { .. } | Action::Begin { .. } => 0,
        Action::If { .. } | Action::Case { .. } | Action::Do { .. } => 0,
        Action::DelayCase { .. } => 0,
        Action::ReceiveBuffers { .. } | Action::ReceiveSignals { .. } => 0,
    }
}

// How many instructions a call has whose result is dropped.
fn dropped_call_size(call: &Call, site: &Site) -> u32
    ensures { result ≡ capped (perform_size (site_tree site.now) (call_tree call.now)) }
{
    call_size(call).saturating_add(u32::from(dropped_scalars(call, site) > 0))
}

// How many instructions START has whose instance is dropped.
#[tactic(auto, using(expr_gen::proofs::Views::tree_built))]
fn dropped_start_size(start: &Start) -> u32
    ensures { result ≡ capped (start_size (start_tree start.now) + 1) }
{
    received_sizes(start.arguments.as_slice()).saturating_add(2)
}

// EXIT of the labelled statement that is so many outwards.
fn put_exit(outwards: u32, around: &Around, draft: &mut Draft) -> Result<(), PartRefusal>
    ensures puts { OnOk result (PutsExit around.now outwards draft.old draft.new) }
    ensures keeps { Keeps draft.old.code draft.new.code }
{
    draft.put(Instr::Jump(place_behind(outwards, around.exits)))
}

// The place behind the labelled statement that is so many outwards, or 0 where there is none.
fn place_behind(outwards: u32, exits: &[u32]) -> u32
    ensures { result ≡ slice_index_or (reverse exits.now) outwards 0 }
{
    let outwards = outwards as usize;
    if outwards < exits.len() {
        exits[exits.len() - 1 - outwards]
    } else {
        0
    }
}

// ASSERT.
fn put_assert(condition: &Expr, around: &Around, draft: &mut Draft) -> Result<(), PartRefusal>
    ensures puts { OnOk result (PutsAssert around.now condition.now draft.old draft.new) }
    ensures keeps { Keeps draft.old.code draft.new.code }
{
    let size = condition_size(condition, true).saturating_add(1);
    let branch = Branch {
        when: true,
        target: draft.target_behind(size)?,
    };
    put_condition(condition, branch, &around.site, around.free, draft)?;
    draft.put(Instr::Raise(ASSERTFAIL))
}

// A call whose result is dropped, where it has one.
fn put_dropped_call(call: &Call, around: &Around, draft: &mut Draft) -> Result<(), PartRefusal>
    ensures puts { OnOk result (PutsPerform around.now call.now draft.old draft.new) }
    ensures keeps { Keeps draft.old.code draft.new.code }
{
    put_call(call, &around.site, around.free, draft)?;
    put_drop(dropped_scalars(call, &around.site), draft)
}

// So many scalars are dropped, where there are any.
fn put_drop(count: u32, draft: &mut Draft) -> Result<(), PartRefusal>
    ensures puts { OnOk result (PutsAll (drop_code count) draft.old draft.new) }
    ensures keeps { Keeps draft.old.code draft.new.code }
{
    if count > 0 {
        draft.put(Instr::Pop(count))
    } else {
        Ok(())
    }
}

// How many scalars the result of a call has.
fn dropped_scalars(call: &Call, site: &Site) -> u32
    ensures { result ≡ dropped_scalars (site_tree site.now) (call_tree call.now) }
{
    match site.program.bodies.as_slice().get(call.body as usize) {
        Some(callee) => result_scalars(callee),
        None => 0,
    }
}

// A routine whose value is dropped.
fn put_dropped_routine(
    routine: Routine,
    argument: &Expr,
    around: &Around,
    draft: &mut Draft,
) -> Result<(), PartRefusal>
    ensures puts { OnOk result (PutsDropped around.now routine argument.now draft.old draft.new) }
    ensures keeps { Keeps draft.old.code draft.new.code }
{
    put_expr(argument, &around.site, around.free, draft)?;
    put_routine(routine, draft)?;
    draft.put(Instr::Pop(1))
}

// An expression, and an instruction that takes its value.
fn put_used(
    value: &Expr,
    instr: Instr,
    around: &Around,
    draft: &mut Draft,
) -> Result<(), PartRefusal>
    ensures puts { OnOk result (PutsTaken around.now value.now instr draft.old draft.new) }
    ensures keeps { Keeps draft.old.code draft.new.code }
{
    put_expr(value, &around.site, around.free, draft)?;
    draft.put(instr)
}

// START of a process, whose instance is dropped.
fn put_dropped_start(start: &Start, around: &Around, draft: &mut Draft) -> Result<(), PartRefusal>
    ensures puts { OnOk result (PutsDroppedStart around.now start.now draft.old draft.new) }
    ensures keeps { Keeps draft.old.code draft.new.code }
{
    put_start(start, &around.site, around.free, draft)?;
    draft.put(Instr::Pop(1))
}
