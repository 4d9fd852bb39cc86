// The controls of DO: what is done before the first turn, and the test before each turn.
#![tactic(auto, using(expr_gen::proofs::Appending::keeping))]

ghost use Rattle.std.specs.Prelude.{◌≡◌, OnOk};
ghost use Rattle.program_trees.specs.StatementTree.{control_tree};
ghost use Rattle.code_scheme.specs.Pieces.{capped};
ghost use Rattle.code_scheme.specs.StatementLoops.{some_while_size, next_member_code, before_turns_size, turn_test_size, locals_kept, control_size};
ghost use Rattle.expr_gen.specs.Putting.{Keeps};
ghost use Rattle.expr_gen.specs.Puts.{PutsAll};
ghost use Rattle.action_gen.specs.Puts.{PutsBeforeTurns, PutsMembersTest, PutsSomeWhile, PutsTurnTest, PutsWhile, some_expr};

use crate::around::Around;
use crate::steps::{
    Steps, bounds_size, first_value_size, put_bounds, put_first_value, put_next, steps_kept,
};
use checked_program::{Control, Expr};
use code_types::Instr;
use expr_gen::{
    Branch, Draft, PartRefusal, condition_size, expr_size, first_of_local, member_size,
    put_condition, put_expr, put_member,
};

/// What a DO does before its turns, behind which is this place.
pub fn put_before_turns(
    control: &Control,
    behind: u32,
    around: &Around,
    draft: &mut Draft,
) -> Result<(), PartRefusal>
    ensures puts { OnOk result (PutsBeforeTurns around.now control.now behind draft.old draft.new) }
    ensures keeps { Keeps draft.old.code draft.new.code }
{
    match control {
        Control::While(_) | Control::Forever => Ok(()),
        Control::Members { set, .. } => {
            put_expr(set, &around.site, around.free, draft)?;
            draft.put(Instr::SetLocal(around.free, 1))
        }
        Control::Steps {
            counter,
            start,
            step,
            end,
            down,
            ..
        } => {
            let counter = first_of_local(around.site.body, *counter);
            put_bounds(start, step, end, around, draft)?;
            put_first_value(
                Steps::new(counter, step, *down, around.free)?,
                behind,
                draft,
            )
        }
    }
}

/// The test of a DO before each turn, behind which is this place.
pub fn put_turn_test(
    control: &Control,
    behind: u32,
    around: &Around,
    draft: &mut Draft,
) -> Result<(), PartRefusal>
    ensures puts { OnOk result (PutsTurnTest around.now control.now behind draft.old draft.new) }
    ensures keeps { Keeps draft.old.code draft.new.code }
{
    match control {
        Control::While(condition) => put_while(condition, behind, around, draft),
        Control::Forever => Ok(()),
        Control::Members {
            counter,
            low,
            condition,
            ..
        } => {
            let counter = first_of_local(around.site.body, *counter);
            put_members_test(counter, *low, behind, around, draft)?;
            put_some_while(condition, behind, &around.taking(1)?, draft)
        }
        Control::Steps {
            counter,
            step,
            down,
            condition,
            ..
        } => {
            let counter = first_of_local(around.site.body, *counter);
            put_next(
                Steps::new(counter, step, *down, around.free)?,
                behind,
                draft,
            )?;
            put_some_while(condition, behind, &around.taking(steps_kept(step))?, draft)
        }
    }
}

/// How many scratch locals a control keeps during the turns.
pub fn locals_kept(control: &Control) -> u32
    ensures { result ≡ locals_kept (control_tree control.now) }
{
    match control {
        Control::While(_) | Control::Forever => 0,
        Control::Members { .. } => 1,
        Control::Steps { step, .. } => steps_kept(step),
    }
}

/// How many instructions the control of a DO has.
pub fn control_size(control: &Control) -> u32
    ensures { result ≡ capped (control_size (control_tree control.now)) }
{
    before_turns_size(control).saturating_add(turn_test_size(control))
}

/// How many instructions stand before the test before each turn.
pub fn before_turns_size(control: &Control) -> u32
    ensures { result ≡ capped (before_turns_size (control_tree control.now)) }
{
    match control {
        Control::While(_) | Control::Forever => 0,
        Control::Members { set, .. } => expr_size(set).saturating_add(1),
        Control::Steps {
            start,
            step,
            end,
            ..
        } => bounds_size(start, step, end).saturating_add(first_value_size(step)),
    }
}

// How many instructions the test before each turn has.
fn turn_test_size(control: &Control) -> u32
    ensures { result ≡ capped (turn_test_size (control_tree control.now)) }
{
    match control {
        Control::While(condition) => condition_size(condition, false),
        Control::Forever => 0,
        Control::Members { low, condition, .. } => member_size(*low)
            .saturating_add(12)
            .saturating_add(some_while_size(condition)),
        Control::Steps { condition, .. } => some_while_size(condition).saturating_add(8),
    }
}

// WHILE.
fn put_while(
    condition: &Expr,
    behind: u32,
    around: &Around,
    draft: &mut Draft,
) -> Result<(), PartRefusal>
    ensures puts { OnOk result (PutsWhile around.now condition.now behind draft.old draft.new) }
    ensures keeps { Keeps draft.old.code draft.new.code }
{
    let branch = Branch {
        when: false,
        target: behind,
    };
    put_condition(condition, branch, &around.site, around.free, draft)
}

// WHILE behind FOR, where it is written.
fn put_some_while(
    condition: &Option<Box<Expr>>,
    behind: u32,
    around: &Around,
    draft: &mut Draft,
) -> Result<(), PartRefusal>
    ensures puts { OnOk result (PutsSomeWhile around.now condition.now behind draft.old draft.new) }
    ensures keeps { Keeps draft.old.code draft.new.code }
{
    match condition {
        Some(condition) => put_while(condition, behind, around, draft),
        None => Ok(()),
    }
}

fn some_while_size(condition: &Option<Box<Expr>>) -> u32
    ensures { result ≡ capped (some_while_size (some_expr condition.now)) }
{
    match condition {
        Some(condition) => condition_size(condition, false),
        None => 0,
    }
}

// DO FOR IN: past the loop where nothing is left of the powerset, which is kept in the first free scratch local, else the next
// member.
fn put_members_test(
    counter: u32,
    low: i64,
    behind: u32,
    around: &Around,
    draft: &mut Draft,
) -> Result<(), PartRefusal>
    ensures puts { OnOk result (PutsMembersTest around.now counter low behind draft.old draft.new) }
    ensures keeps { Keeps draft.old.code draft.new.code }
{
    draft.put(Instr::Local(around.free, 1))?;
    draft.put(Instr::Card)?;
    draft.put(Instr::Unless(behind))?;
    put_next_member(around.free, counter, low, draft)
}

// The counter gets the least member of the powerset that is kept in this local, which is taken out of it.
fn put_next_member(left: u32, counter: u32, low: i64, draft: &mut Draft) -> Result<(), PartRefusal>
    ensures puts { OnOk result (PutsAll (next_member_code left counter low) draft.old draft.new) }
    ensures keeps { Keeps draft.old.code draft.new.code }
{
    draft.put(Instr::Local(left, 1))?;
    draft.put(Instr::Copy(1))?;
    draft.put(Instr::Least)?;
    draft.put(Instr::Copy(1))?;
    put_member(low, draft)?;
    draft.put(Instr::SetLocal(counter, 1))?;
    draft.put(Instr::Copy(1))?;
    draft.put(Instr::Span)?;
    draft.put(Instr::BitMinus)?;
    draft.put(Instr::SetLocal(left, 1))
}
