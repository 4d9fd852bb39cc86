// The parts that actions are of their reach, with what they hold.
ghost use Rattle.std.specs.Prelude.{◌≡◌, ◌++◌, [], ◌∷◌, Some, OnOk, map, flat_map, option_map};
ghost use Rattle.chill_tree.specs.ExprTree.{boxed_expr};
ghost use Rattle.chill_tree.specs.SimpleTree.{control_tree};
ghost use Rattle.chill_tree.specs.StatementTree.{statement_tree, bracketed_tree, branch_tree, case_tree, named_tree, receive_tree, handler_tree, boxed_handler, body_tree, statement_trees, body_trees, statement_nodes, branch_nodes, case_nodes, named_nodes, receive_nodes, handler_node, body_nodes};
ghost use Rattle.names_model.specs.declared.kind.Need.TheVariants as needs;
ghost use Rattle.names_model.specs.Parts.{part_trees};
ghost use Rattle.names_model.specs.Sizes.{block_of};
ghost use Rattle.names_model.specs.ExprMentions.{used, mentions_of, mentions_of_some, mentions_of_ranges};
ghost use Rattle.names_model.specs.StatementParts.{mentioned, turn_parts, received_parts, statement_parts, bracketed_parts, action_parts, branch_parts, case_parts, event_parts, receive_parts, handler_parts, exception_parts, body_parts};
ghost use Rattle.reach_parts.specs.BracketedParts.{evaluated_parts, held_parts, else_parts};
ghost use Rattle.reach_parts.specs.Labels.{labels_in};

use crate::clause::clause_of;
use crate::control::{add_control, add_turn};
use crate::expr::{add_some_expr, add_used};
use crate::labels::Labels;
use crate::local::add_local;
use crate::part::{
    add_block, add_mentioned, add_part, mention_expr, mention_ranges, mention_some_expr,
    mention_used,
};
use crate::simple::add_simple;
use chill_base::{List, Memory};
use chill_tree::tree::{
    BodyPart, Bracketed, CaseAlternative, Control, ElsIf, Expr, Handler, Name, NamedAlternative,
    ReceiveAlternative, Statement,
};
use names_model::{Kind, Need, Part};
use std::alloc::Global;

// Adds the names in two expressions that may be written.
fn mention_set_and_priority(
    alloc: Global,
    set: &Option<Box<Expr>>,
    priority: &Option<Box<Expr>>,
    out: &mut List<Part>,
) -> Result<(), Memory>
    ensures { OnOk result (part_trees out.new ≡ part_trees out.old ++ mentioned (mentions_of_some (option_map boxed_expr set.now) ++ mentions_of_some (option_map boxed_expr priority.now))) }
{
    let mut mentions = List::new(alloc);
    add_some_expr(alloc, set, &mut mentions)?;
    add_some_expr(alloc, priority, &mut mentions)?;
    add_mentioned(mentions, out)
}

// Adds the events that an alternative waits for.
fn mention_events(alloc: Global, names: &[Name], out: &mut List<Part>) -> Result<(), Memory>
    ensures { OnOk result (part_trees out.new ≡ part_trees out.old ++ mentioned (flat_map (used needs.Location) names.now)) }
{
    let mut mentions = List::new(alloc);
    for name in names {
        add_used(alloc, Need::Location, name, &mut mentions)?;
    }
    add_mentioned(mentions, out)
}

// Adds the definition of the names that are received.
fn add_received(
    alloc: Global,
    names: &Option<List<Name>>,
    out: &mut List<Part>,
) -> Result<(), Memory>
    ensures { OnOk result (part_trees out.new ≡ part_trees out.old ++ received_parts names.now) }
{
    match names {
        None => Ok(()),
        Some(names) => {
            let clause = clause_of(alloc, Kind::Received, names.as_slice(), List::new(alloc))?;
            add_part(Part::define(clause), out)
        }
    }
}

/// Adds the parts of an action with its handler.
#[tactic(auto, using(crate::proofs::StatementLemmas::statement_views))]
#[cycle(statement)]
pub(crate) fn add_statement(
    alloc: Global,
    statement: &Statement,
    labels: &Labels,
    out: &mut List<Part>,
) -> Result<(), Memory>
    ensures { OnOk result (part_trees out.new ≡ part_trees out.old ++ statement_parts (labels_in labels.now) (statement_tree statement.now)) }
{
    match statement {
        Statement::Empty { .. } => Ok(()),
        Statement::Simple {
            action,
            handler,
            ..
        } => {
            add_simple(alloc, labels, action, out)?;
            add_some_handler(alloc, handler, labels, out)
        }
        Statement::Bracketed {
            label,
            action,
            handler,
            ..
        } => {
            // Both are lent again, for the time of this action alone.
            let inner = Labels::Around {
                label: &*label,
                outer: &*labels,
            };
            add_bracketed(alloc, action, &inner, out)?;
            add_some_handler(alloc, handler, &inner, out)
        }
    }
}

// Adds the parts of actions.
#[cycle(statement)]
fn add_actions(
    alloc: Global,
    actions: &[Statement],
    labels: &Labels,
    out: &mut List<Part>,
) -> Result<(), Memory>
    ensures { OnOk result (part_trees out.new ≡ part_trees out.old ++ action_parts (labels_in labels.now) (statement_nodes (statement_trees actions.now))) }
{
    for action in actions {
        add_statement(alloc, action, labels, out)?;
    }
    Ok(())
}

// Adds actions as a block.
#[cycle(statement)]
fn add_action_block(
    alloc: Global,
    actions: &[Statement],
    labels: &Labels,
    out: &mut List<Part>,
) -> Result<(), Memory>
    ensures { OnOk result (part_trees out.new ≡ part_trees out.old ++ block_of (action_parts (labels_in labels.now) (statement_nodes (statement_trees actions.now))) ∷ []) }
{
    let mut parts = List::new(alloc);
    add_actions(alloc, actions, labels, &mut parts)?;
    add_block(parts, out)
}

// Adds the parts of an action that holds others.
#[tactic(auto, using(crate::proofs::StatementLemmas::bracketed_views))]
#[cycle(statement)]
fn add_bracketed(
    alloc: Global,
    action: &Bracketed,
    labels: &Labels,
    out: &mut List<Part>,
) -> Result<(), Memory>
    ensures { OnOk result (part_trees out.new ≡ part_trees out.old ++ bracketed_parts (labels_in labels.now) (bracketed_tree action.now)) }
{
    add_evaluated(alloc, action, out)?;
    add_held(alloc, action, labels, out)?;
    add_else(alloc, action, labels, out)
}

// Adds the names in what an action evaluates before what it holds.
#[tactic(auto, using(crate::proofs::StatementLemmas::statement_views))]
fn add_evaluated(alloc: Global, action: &Bracketed, out: &mut List<Part>) -> Result<(), Memory>
    ensures { OnOk result (part_trees out.new ≡ part_trees out.old ++ evaluated_parts (bracketed_tree action.now)) }
{
    match action {
        Bracketed::If { condition, .. } => mention_expr(alloc, condition, out),
        Bracketed::Case { selector, .. } => mention_expr(alloc, selector, out),
        Bracketed::Do { control, .. } => add_control(alloc, control, out),
        Bracketed::Begin { .. } => Ok(()),
        Bracketed::DelayCase { set, priority, .. } => {
            mention_set_and_priority(alloc, set, priority, out)
        }
        Bracketed::ReceiveCase { set, .. } => mention_some_expr(alloc, set, out),
    }
}

// Adds the parts of what an action holds but its ELSE.
#[tactic(auto, using(crate::proofs::StatementLemmas::statement_views))]
#[cycle(statement)]
fn add_held(
    alloc: Global,
    action: &Bracketed,
    labels: &Labels,
    out: &mut List<Part>,
) -> Result<(), Memory>
    ensures { OnOk result (part_trees out.new ≡ part_trees out.old ++ held_parts (labels_in labels.now) (bracketed_tree action.now)) }
{
    match action {
        Bracketed::If {
            actions,
            branches,
            ..
        } => {
            add_actions(alloc, actions.as_slice(), labels, out)?;
            add_branches(alloc, branches.as_slice(), labels, out)
        }
        Bracketed::Case { alternatives, .. } => {
            add_cases(alloc, alternatives.as_slice(), labels, out)
        }
        Bracketed::Do {
            control,
            actions,
            ..
        } => add_turns(alloc, control, actions.as_slice(), labels, out),
        Bracketed::Begin { body, .. } => add_begin(alloc, body.as_slice(), labels, out),
        Bracketed::DelayCase { alternatives, .. } => {
            add_events(alloc, alternatives.as_slice(), labels, out)
        }
        Bracketed::ReceiveCase { alternatives, .. } => {
            add_receipts(alloc, alternatives.as_slice(), labels, out)
        }
    }
}

// Adds the parts of the ELSE of an action.
#[tactic(auto, using(crate::proofs::StatementLemmas::statement_views))]
#[cycle(statement)]
fn add_else(
    alloc: Global,
    action: &Bracketed,
    labels: &Labels,
    out: &mut List<Part>,
) -> Result<(), Memory>
    ensures { OnOk result (part_trees out.new ≡ part_trees out.old ++ else_parts (labels_in labels.now) (bracketed_tree action.now)) }
{
    match action {
        Bracketed::If { otherwise, .. }
        | Bracketed::Case { otherwise, .. }
        | Bracketed::ReceiveCase { otherwise, .. } => match otherwise {
            None => Ok(()),
            Some(actions) => add_actions(alloc, actions.as_slice(), labels, out),
        },
        Bracketed::Do { .. } | Bracketed::Begin { .. } | Bracketed::DelayCase { .. } => Ok(()),
    }
}

// Adds the block of a loop: its counter, its condition and its actions.
#[cycle(statement)]
fn add_turns(
    alloc: Global,
    control: &Control,
    actions: &[Statement],
    labels: &Labels,
    out: &mut List<Part>,
) -> Result<(), Memory>
    ensures { OnOk result (part_trees out.new ≡ part_trees out.old ++ block_of (turn_parts (control_tree control.now) ++ action_parts (labels_in labels.now) (statement_nodes (statement_trees actions.now))) ∷ []) }
{
    let mut parts = List::new(alloc);
    add_turn(alloc, control, &mut parts)?;
    add_actions(alloc, actions, labels, &mut parts)?;
    add_block(parts, out)
}

// Adds a body as a block.
#[cycle(statement)]
fn add_begin(
    alloc: Global,
    body: &[BodyPart],
    labels: &Labels,
    out: &mut List<Part>,
) -> Result<(), Memory>
    ensures { OnOk result (part_trees out.new ≡ part_trees out.old ++ block_of (body_parts (labels_in labels.now) (body_nodes (body_trees body.now))) ∷ []) }
{
    let mut parts = List::new(alloc);
    add_body(alloc, body, labels, &mut parts)?;
    add_block(parts, out)
}

// Adds the parts of the further conditions of an IF.
#[cycle(statement)]
fn add_branches(
    alloc: Global,
    branches: &[ElsIf],
    labels: &Labels,
    out: &mut List<Part>,
) -> Result<(), Memory>
    ensures { OnOk result (part_trees out.new ≡ part_trees out.old ++ branch_parts (labels_in labels.now) (branch_nodes (map branch_tree branches.now))) }
{
    for branch in branches {
        add_branch(alloc, branch, labels, out)?;
    }
    Ok(())
}

// Adds the parts of a further condition of an IF.
#[tactic(auto, using(crate::proofs::StatementLemmas::statement_views))]
#[cycle(statement)]
fn add_branch(
    alloc: Global,
    branch: &ElsIf,
    labels: &Labels,
    out: &mut List<Part>,
) -> Result<(), Memory>
    ensures { OnOk result (part_trees out.new ≡ part_trees out.old ++ (mentioned (mentions_of (branch_tree branch.now).condition) ++ action_parts (labels_in labels.now) (statement_nodes (branch_tree branch.now).actions))) }
{
    mention_expr(alloc, &branch.condition, out)?;
    add_actions(alloc, branch.actions.as_slice(), labels, out)
}

// Adds the parts of the alternatives of a CASE.
#[cycle(statement)]
fn add_cases(
    alloc: Global,
    alternatives: &[CaseAlternative],
    labels: &Labels,
    out: &mut List<Part>,
) -> Result<(), Memory>
    ensures { OnOk result (part_trees out.new ≡ part_trees out.old ++ case_parts (labels_in labels.now) (case_nodes (map case_tree alternatives.now))) }
{
    for alternative in alternatives {
        add_case(alloc, alternative, labels, out)?;
    }
    Ok(())
}

// Adds the parts of an alternative of a CASE.
#[tactic(auto, using(crate::proofs::StatementLemmas::statement_views))]
#[cycle(statement)]
fn add_case(
    alloc: Global,
    alternative: &CaseAlternative,
    labels: &Labels,
    out: &mut List<Part>,
) -> Result<(), Memory>
    ensures { OnOk result (part_trees out.new ≡ part_trees out.old ++ (mentioned (mentions_of_ranges (case_tree alternative.now).labels) ++ action_parts (labels_in labels.now) (statement_nodes (case_tree alternative.now).actions))) }
{
    mention_ranges(alloc, alternative.labels.as_slice(), out)?;
    add_actions(alloc, alternative.actions.as_slice(), labels, out)
}

// Adds the parts of the alternatives of a DELAY CASE.
#[cycle(statement)]
fn add_events(
    alloc: Global,
    alternatives: &[NamedAlternative],
    labels: &Labels,
    out: &mut List<Part>,
) -> Result<(), Memory>
    ensures { OnOk result (part_trees out.new ≡ part_trees out.old ++ event_parts (labels_in labels.now) (named_nodes (map named_tree alternatives.now))) }
{
    for alternative in alternatives {
        add_event(alloc, alternative, labels, out)?;
    }
    Ok(())
}

// Adds the parts of an alternative of a DELAY CASE: its events stand around it, its actions in a block.
#[tactic(auto, using(crate::proofs::StatementLemmas::statement_views))]
#[cycle(statement)]
fn add_event(
    alloc: Global,
    alternative: &NamedAlternative,
    labels: &Labels,
    out: &mut List<Part>,
) -> Result<(), Memory>
    ensures { OnOk result (part_trees out.new ≡ part_trees out.old ++ (mentioned (flat_map (used needs.Location) (named_tree alternative.now).names) ++ block_of (action_parts (labels_in labels.now) (statement_nodes (named_tree alternative.now).actions)) ∷ [])) }
{
    mention_events(alloc, alternative.names.as_slice(), out)?;
    add_action_block(alloc, alternative.actions.as_slice(), labels, out)
}

// Adds the parts of the alternatives of a RECEIVE CASE.
#[cycle(statement)]
fn add_receipts(
    alloc: Global,
    alternatives: &[ReceiveAlternative],
    labels: &Labels,
    out: &mut List<Part>,
) -> Result<(), Memory>
    ensures { OnOk result (part_trees out.new ≡ part_trees out.old ++ receive_parts (labels_in labels.now) (receive_nodes (map receive_tree alternatives.now))) }
{
    for alternative in alternatives {
        add_receipt(alloc, alternative, labels, out)?;
    }
    Ok(())
}

// Adds the parts of an alternative of a RECEIVE CASE: what it receives from stands around it, received names and actions
// in a block.
#[tactic(auto, using(crate::proofs::StatementLemmas::statement_views))]
#[cycle(statement)]
fn add_receipt(
    alloc: Global,
    alternative: &ReceiveAlternative,
    labels: &Labels,
    out: &mut List<Part>,
) -> Result<(), Memory>
    ensures { OnOk result (part_trees out.new ≡ part_trees out.old ++ (mentioned (used needs.Message (receive_tree alternative.now).source) ++ block_of (received_parts (receive_tree alternative.now).received ++ action_parts (labels_in labels.now) (statement_nodes (receive_tree alternative.now).actions)) ∷ [])) }
{
    mention_used(alloc, Need::Message, &alternative.source, out)?;
    let mut parts = List::new(alloc);
    add_received(alloc, &alternative.received, &mut parts)?;
    add_actions(alloc, alternative.actions.as_slice(), labels, &mut parts)?;
    add_block(parts, out)
}

/// Adds a handler that may be written.
#[cycle(statement)]
pub(crate) fn add_some_handler(
    alloc: Global,
    handler: &Option<Box<Handler>>,
    labels: &Labels,
    out: &mut List<Part>,
) -> Result<(), Memory>
    ensures { OnOk result (part_trees out.new ≡ part_trees out.old ++ handler_parts (labels_in labels.now) (handler_node (option_map boxed_handler handler.now))) }
{
    match handler {
        None => Ok(()),
        Some(handler) => add_handler(alloc, handler, labels, out),
    }
}

// Adds a handler, which is a block.
#[tactic(auto, using(crate::proofs::StatementLemmas::statement_views))]
#[cycle(statement)]
fn add_handler(
    alloc: Global,
    handler: &Handler,
    labels: &Labels,
    out: &mut List<Part>,
) -> Result<(), Memory>
    ensures { OnOk result (part_trees out.new ≡ part_trees out.old ++ handler_parts (labels_in labels.now) (handler_node (Some (handler_tree handler.now)))) }
{
    let mut parts = List::new(alloc);
    add_exceptions(alloc, handler.alternatives.as_slice(), labels, &mut parts)?;
    if let Some(actions) = &handler.otherwise {
        add_actions(alloc, actions.as_slice(), labels, &mut parts)?;
    }
    add_block(parts, out)
}

// Adds the parts of the alternatives of a handler.
#[cycle(statement)]
fn add_exceptions(
    alloc: Global,
    alternatives: &[NamedAlternative],
    labels: &Labels,
    out: &mut List<Part>,
) -> Result<(), Memory>
    ensures { OnOk result (part_trees out.new ≡ part_trees out.old ++ exception_parts (labels_in labels.now) (named_nodes (map named_tree alternatives.now))) }
{
    for alternative in alternatives {
        add_exception(alloc, alternative, labels, out)?;
    }
    Ok(())
}

// Adds the parts of an alternative of a handler; the names of exceptions aren't subject to visibility.
#[tactic(auto, using(crate::proofs::StatementLemmas::statement_views))]
#[cycle(statement)]
fn add_exception(
    alloc: Global,
    alternative: &NamedAlternative,
    labels: &Labels,
    out: &mut List<Part>,
) -> Result<(), Memory>
    ensures { OnOk result (part_trees out.new ≡ part_trees out.old ++ action_parts (labels_in labels.now) (statement_nodes (named_tree alternative.now).actions)) }
{
    add_actions(alloc, alternative.actions.as_slice(), labels, out)
}

/// Adds the parts of a body.
#[tactic(auto, using(crate::proofs::StatementLemmas::body_views))]
#[cycle(statement)]
pub(crate) fn add_body(
    alloc: Global,
    body: &[BodyPart],
    labels: &Labels,
    out: &mut List<Part>,
) -> Result<(), Memory>
    ensures { OnOk result (part_trees out.new ≡ part_trees out.old ++ body_parts (labels_in labels.now) (body_nodes (body_trees body.now))) }
{
    for part in body {
        add_body_part(alloc, part, labels, out)?;
    }
    Ok(())
}

// Adds the parts of a part of a body.
#[tactic(auto, using(crate::proofs::StatementLemmas::statement_views))]
#[cycle(statement)]
fn add_body_part(
    alloc: Global,
    part: &BodyPart,
    labels: &Labels,
    out: &mut List<Part>,
) -> Result<(), Memory>
    ensures { OnOk result (part_trees out.new ≡ part_trees out.old ++ body_parts (labels_in labels.now) (body_nodes (body_tree part.now ∷ []))) }
{
    match part {
        BodyPart::Local(local) => add_local(alloc, local, out),
        BodyPart::Statement(statement) => add_statement(alloc, statement, labels, out),
    }
}
