// The parts that what controls a loop is of the reach around it, and of the block of the loop.
ghost use Rattle.std.specs.Prelude.{◌≡◌, ◌++◌, ◌∷◌, OnOk, option_map};
ghost use Rattle.chill_tree.specs.ExprTree.{expr_tree, boxed_expr};
ghost use Rattle.chill_tree.specs.SimpleTree.{control_tree};
ghost use Rattle.names_model.specs.Parts.{part_trees};
ghost use Rattle.names_model.specs.ExprMentions.{mentions_of, mentions_of_some};
ghost use Rattle.names_model.specs.StatementParts.{mentioned, counter_part, control_parts, turn_parts};

use crate::clause::clause_of_one;
use crate::expr::{add_expr, add_some_expr};
use crate::part::{add_mentioned, add_part, mention_expr, mention_some_expr};
use chill_base::{List, Memory};
use chill_tree::tree::{Control, Expr, Name};
use names_model::{Kind, Part};
use std::alloc::Global;

// Adds the names in the values that a counter takes.
fn add_steps(
    alloc: Global,
    start: &Expr,
    step: &Option<Box<Expr>>,
    end: &Expr,
    out: &mut List<Part>,
) -> Result<(), Memory>
    ensures { OnOk result (part_trees out.new ≡ part_trees out.old ++ mentioned (mentions_of (expr_tree start.now) ++ mentions_of_some (option_map boxed_expr step.now) ++ mentions_of (expr_tree end.now))) }
{
    let mut mentions = List::new(alloc);
    add_expr(alloc, start, &mut mentions)?;
    add_some_expr(alloc, step, &mut mentions)?;
    add_expr(alloc, end, &mut mentions)?;
    add_mentioned(mentions, out)
}

/// Adds the names in what a loop evaluates once, in the reach around it.
pub(crate) fn add_control(
    alloc: Global,
    control: &Control,
    out: &mut List<Part>,
) -> Result<(), Memory>
    ensures { OnOk result (part_trees out.new ≡ part_trees out.old ++ control_parts (control_tree control.now)) }
{
    match control {
        Control::While { .. } | Control::Forever { .. } => Ok(()),
        Control::Members { set, .. } => mention_expr(alloc, set, out),
        Control::Steps {
            start,
            step,
            end,
            ..
        } => add_steps(alloc, start, step, end, out),
    }
}

// Adds the counter of a loop, and the names in the condition beside it.
fn add_counter(
    alloc: Global,
    counter: &Name,
    condition: &Option<Box<Expr>>,
    out: &mut List<Part>,
) -> Result<(), Memory>
    ensures { OnOk result (part_trees out.new ≡ part_trees out.old ++ counter_part counter.now ∷ mentioned (mentions_of_some (option_map boxed_expr condition.now))) }
{
    let clause = clause_of_one(alloc, Kind::Counter, counter, List::new(alloc))?;
    add_part(Part::define(clause), out)?;
    mention_some_expr(alloc, condition, out)
}

/// Adds the counter and the condition of a loop, which stand in its own block.
pub(crate) fn add_turn(alloc: Global, control: &Control, out: &mut List<Part>) -> Result<(), Memory>
    ensures { OnOk result (part_trees out.new ≡ part_trees out.old ++ turn_parts (control_tree control.now)) }
{
    match control {
        Control::While { condition, .. } => mention_expr(alloc, condition, out),
        Control::Forever { .. } => Ok(()),
        Control::Members {
            counter,
            condition,
            ..
        } => add_counter(alloc, counter, condition, out),
        Control::Steps {
            counter,
            condition,
            ..
        } => add_counter(alloc, counter, condition, out),
    }
}
