// The parts that actions are of their reach which hold no other.
ghost use Rattle.std.specs.Prelude.{◌≡◌, ◌++◌, None, Some, OnOk, option_map};
ghost use Rattle.chill_tree.specs.ExprTree.{boxed_expr, expr_trees};
ghost use Rattle.chill_tree.specs.SimpleTree.{simple_tree};
ghost use Rattle.names_model.specs.declared.kind.Need.TheVariants as needs;
ghost use Rattle.names_model.specs.Parts.{part_trees};
ghost use Rattle.names_model.specs.ExprMentions.{used, mentions_of_some, mentions_of_args};
ghost use Rattle.names_model.specs.StatementParts.{mentioned, exit_parts, mentions_of_some_args, simple_parts};
ghost use Rattle.reach_parts.specs.Labels.{labels_in};

use crate::expr::{add_args, add_some_expr, add_used};
use crate::labels::{Labels, is_enclosed};
use crate::part::{
    add_mentioned, add_part, mention_expr, mention_exprs, mention_some_expr, mention_used,
};
use chill_base::{List, Memory};
use chill_tree::tree::{Expr, Name, Simple};
use names_model::{Identifier, Mention, Need, Part};
use std::alloc::Global;

// Adds the label of an EXIT where no action of that label is around.
fn add_exit(
    alloc: Global,
    labels: &Labels,
    label: &Name,
    out: &mut List<Part>,
) -> Result<(), Memory>
    ensures { OnOk result (part_trees out.new ≡ part_trees out.old ++ exit_parts (labels_in labels.now) label.now) }
{
    if is_enclosed(labels, label) {
        return Ok(());
    }
    let label = Identifier::of(alloc, label)?;
    add_part(Part::stray(label), out)
}

// Adds the names in a call.
fn add_call(alloc: Global, name: &Name, args: &[Expr], out: &mut List<Part>) -> Result<(), Memory>
    ensures { OnOk result (part_trees out.new ≡ part_trees out.old ++ mentioned (used needs.Action name.now ++ mentions_of_args (Some name.now) (expr_trees args.now))) }
{
    let mut mentions = List::new(alloc);
    add_used(alloc, Need::Action, name, &mut mentions)?;
    add_args(alloc, Some(name), args, &mut mentions)?;
    add_mentioned(mentions, out)
}

// Adds the names in a process that is started.
fn add_start(
    alloc: Global,
    process: &Name,
    args: &[Expr],
    out: &mut List<Part>,
) -> Result<(), Memory>
    ensures { OnOk result (part_trees out.new ≡ part_trees out.old ++ mentioned (used needs.Process process.now ++ mentions_of_args None (expr_trees args.now))) }
{
    let mut mentions = List::new(alloc);
    add_used(alloc, Need::Process, process, &mut mentions)?;
    add_args(alloc, None, args, &mut mentions)?;
    add_mentioned(mentions, out)
}

// Adds the names in a delay.
fn add_delay(
    alloc: Global,
    event: &Name,
    priority: &Option<Box<Expr>>,
    out: &mut List<Part>,
) -> Result<(), Memory>
    ensures { OnOk result (part_trees out.new ≡ part_trees out.old ++ mentioned (used needs.Location event.now ++ mentions_of_some (option_map boxed_expr priority.now))) }
{
    let mut mentions = List::new(alloc);
    add_used(alloc, Need::Location, event, &mut mentions)?;
    add_some_expr(alloc, priority, &mut mentions)?;
    add_mentioned(mentions, out)
}

// Adds the names in arguments that may be written.
fn add_some_args(
    alloc: Global,
    args: &Option<List<Expr>>,
    out: &mut List<Mention>,
) -> Result<(), Memory>
    ensures { OnOk result (out.new ≡ out.old ++ mentions_of_some_args (option_map expr_trees args.now)) }
{
    match args {
        None => Ok(()),
        Some(args) => add_args(alloc, None, args.as_slice(), out),
    }
}

// Adds the names in what is sent.
fn add_send(
    alloc: Global,
    target: &Name,
    args: &Option<List<Expr>>,
    receiver: &Option<Box<Expr>>,
    priority: &Option<Box<Expr>>,
    out: &mut List<Part>,
) -> Result<(), Memory>
    ensures { OnOk result (part_trees out.new ≡ part_trees out.old ++ mentioned (used needs.Message target.now ++ mentions_of_some_args (option_map expr_trees args.now) ++ mentions_of_some (option_map boxed_expr receiver.now) ++ mentions_of_some (option_map boxed_expr priority.now))) }
{
    let mut mentions = List::new(alloc);
    add_used(alloc, Need::Message, target, &mut mentions)?;
    add_some_args(alloc, args, &mut mentions)?;
    add_some_expr(alloc, receiver, &mut mentions)?;
    add_some_expr(alloc, priority, &mut mentions)?;
    add_mentioned(mentions, out)
}

/// Adds the parts of an action that holds no other.
pub(crate) fn add_simple(
    alloc: Global,
    labels: &Labels,
    action: &Simple,
    out: &mut List<Part>,
) -> Result<(), Memory>
    ensures { OnOk result (part_trees out.new ≡ part_trees out.old ++ simple_parts (labels_in labels.now) (simple_tree action.now)) }
{
    match action {
        Simple::Assign { target, value, .. } => mention_exprs(alloc, target, value, out),
        Simple::Update { target, value, .. } => mention_exprs(alloc, target, value, out),
        Simple::Call { name, args, .. } => add_call(alloc, name, args.as_slice(), out),
        Simple::Exit { label, .. } => add_exit(alloc, labels, label, out),
        Simple::Return { value, .. } => mention_some_expr(alloc, value, out),
        Simple::Result { value, .. } => mention_expr(alloc, value, out),
        Simple::Assert { condition, .. } => mention_expr(alloc, condition, out),
        Simple::Cause { .. } | Simple::Stop { .. } => Ok(()),
        Simple::Start { process, args, .. } => add_start(alloc, process, args.as_slice(), out),
        Simple::Delay {
            event,
            priority,
            ..
        } => add_delay(alloc, event, priority, out),
        Simple::Continue { event, .. } => mention_used(alloc, Need::Location, event, out),
        Simple::Send {
            target,
            args,
            receiver,
            priority,
            ..
        } => add_send(alloc, target, args, receiver, priority, out),
    }
}
