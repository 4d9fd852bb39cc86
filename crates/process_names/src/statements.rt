// What is told in statements, and in what they hold.
ghost use Rattle.std.specs.Prelude.{◌≡◌, ◌++◌, [], ◌∷◌, Some, OnOk, map, option_map};
ghost use Rattle.chill_tree.specs.StatementTree.{statement_tree, bracketed_tree, branch_tree, case_tree, named_tree, receive_tree, handler_tree, boxed_handler, body_tree, statement_trees, body_trees, statement_nodes, branch_nodes, case_nodes, named_nodes, receive_nodes, handler_node, body_nodes};
ghost use Rattle.met_names.specs.Facts.{told_source};
ghost use Rattle.met_names.specs.Sources.{over_expr, over_labels};
ghost use Rattle.process_names.specs.Walk.{over_statement, over_bracketed, over_actions, over_branches, over_cases, over_receives, over_handler, over_named, over_body};
ghost use Rattle.process_names.specs.Bracketed.{over_head, over_held, over_else};

use crate::actions::{tell_in_control, tell_in_simple};
use crate::listed::{tell_events, tell_sources};
use crate::locals::tell_in_local_of_body;
use chill_base::Memory;
use chill_tree::tree::{
    BodyPart, Bracketed, CaseAlternative, ElsIf, Handler, NamedAlternative, ReceiveAlternative,
    Statement,
};
use definition_origins::Told;
use met_names::Meetings;

/// What is told in a statement.
#[tactic(auto, using(crate::proofs::BodyViews::statement_views))]
#[cycle(statement)]
pub fn tell_in_statement(
    meetings: &Meetings<'_>,
    statement: &Statement,
    told: &mut Told,
) -> Result<(), Memory>
    ensures { OnOk result (told.new ≡ told.old ++ over_statement meetings.now (statement_tree statement.now)) }
{
    match statement {
        Statement::Empty { .. } => Ok(()),
        Statement::Simple {
            action,
            handler,
            ..
        } => {
            tell_in_simple(meetings, action, told)?;
            tell_in_handler(meetings, handler, told)
        }
        Statement::Bracketed {
            action,
            handler,
            ..
        } => {
            tell_in_bracketed(meetings, action, told)?;
            tell_in_handler(meetings, handler, told)
        }
    }
}

#[cycle(statement)]
fn tell_in_actions(
    meetings: &Meetings<'_>,
    actions: &[Statement],
    told: &mut Told,
) -> Result<(), Memory>
    ensures { OnOk result (told.new ≡ told.old ++ over_actions meetings.now (statement_nodes (statement_trees actions.now))) }
{
    for action in actions {
        tell_in_statement(meetings, action, told)?;
    }
    Ok(())
}

#[tactic(auto, using(crate::proofs::BodyViews::bracketed_views))]
#[cycle(statement)]
fn tell_in_bracketed(
    meetings: &Meetings<'_>,
    action: &Bracketed,
    told: &mut Told,
) -> Result<(), Memory>
    ensures { OnOk result (told.new ≡ told.old ++ over_bracketed meetings.now (bracketed_tree action.now)) }
{
    tell_head(meetings, action, told)?;
    tell_held(meetings, action, told)?;
    tell_else(meetings, action, told)
}

#[tactic(auto, using(crate::proofs::BodyViews::statement_views))]
fn tell_head(meetings: &Meetings<'_>, action: &Bracketed, told: &mut Told) -> Result<(), Memory>
    ensures { OnOk result (told.new ≡ told.old ++ over_head meetings.now (bracketed_tree action.now)) }
{
    match action {
        Bracketed::If { condition, .. } => meetings.tell_in(condition, told),
        Bracketed::Case { selector, .. } => meetings.tell_in(selector, told),
        Bracketed::Do { control, .. } => tell_in_control(meetings, control, told),
        Bracketed::Begin { .. } => Ok(()),
        Bracketed::DelayCase {
            set,
            priority,
            alternatives,
            ..
        } => {
            meetings.tell_in_some(set, told)?;
            meetings.tell_in_some(priority, told)?;
            tell_events(meetings, alternatives.as_slice(), told)
        }
        Bracketed::ReceiveCase {
            set,
            alternatives,
            ..
        } => {
            meetings.tell_in_some(set, told)?;
            tell_sources(meetings, alternatives.as_slice(), told)
        }
    }
}

#[tactic(auto, using(crate::proofs::BodyViews::statement_views))]
#[cycle(statement)]
fn tell_held(meetings: &Meetings<'_>, action: &Bracketed, told: &mut Told) -> Result<(), Memory>
    ensures { OnOk result (told.new ≡ told.old ++ over_held meetings.now (bracketed_tree action.now)) }
{
    match action {
        Bracketed::If {
            actions,
            branches,
            ..
        } => {
            tell_in_actions(meetings, actions.as_slice(), told)?;
            tell_in_branches(meetings, branches.as_slice(), told)
        }
        Bracketed::Case { alternatives, .. } => {
            tell_in_cases(meetings, alternatives.as_slice(), told)
        }
        Bracketed::Do { actions, .. } => tell_in_actions(meetings, actions.as_slice(), told),
        Bracketed::Begin { body, .. } => tell_in_body(meetings, body.as_slice(), told),
        Bracketed::DelayCase { alternatives, .. } => {
            tell_in_named(meetings, alternatives.as_slice(), told)
        }
        Bracketed::ReceiveCase { alternatives, .. } => {
            tell_in_receives(meetings, alternatives.as_slice(), told)
        }
    }
}

#[tactic(auto, using(crate::proofs::BodyViews::statement_views))]
#[cycle(statement)]
fn tell_else(meetings: &Meetings<'_>, action: &Bracketed, told: &mut Told) -> Result<(), Memory>
    ensures { OnOk result (told.new ≡ told.old ++ over_else meetings.now (bracketed_tree action.now)) }
{
    match action {
        Bracketed::If { otherwise, .. }
        | Bracketed::Case { otherwise, .. }
        | Bracketed::ReceiveCase { otherwise, .. } => match otherwise {
            None => Ok(()),
            Some(actions) => tell_in_actions(meetings, actions.as_slice(), told),
        },
        Bracketed::Do { .. } | Bracketed::Begin { .. } | Bracketed::DelayCase { .. } => Ok(()),
    }
}

#[cycle(statement)]
fn tell_in_branches(
    meetings: &Meetings<'_>,
    branches: &[ElsIf],
    told: &mut Told,
) -> Result<(), Memory>
    ensures { OnOk result (told.new ≡ told.old ++ over_branches meetings.now (branch_nodes (map branch_tree branches.now))) }
{
    for branch in branches {
        tell_in_branch(meetings, branch, told)?;
    }
    Ok(())
}

#[tactic(auto, using(crate::proofs::BodyViews::statement_views))]
#[cycle(statement)]
fn tell_in_branch(meetings: &Meetings<'_>, branch: &ElsIf, told: &mut Told) -> Result<(), Memory>
    ensures { OnOk result (told.new ≡ told.old ++ (over_expr (told_source meetings.now) (branch_tree branch.now).condition ++ over_actions meetings.now (statement_nodes (branch_tree branch.now).actions))) }
{
    meetings.tell_in(&branch.condition, told)?;
    tell_in_actions(meetings, branch.actions.as_slice(), told)
}

#[cycle(statement)]
fn tell_in_cases(
    meetings: &Meetings<'_>,
    alternatives: &[CaseAlternative],
    told: &mut Told,
) -> Result<(), Memory>
    ensures { OnOk result (told.new ≡ told.old ++ over_cases meetings.now (case_nodes (map case_tree alternatives.now))) }
{
    for alternative in alternatives {
        tell_in_case(meetings, alternative, told)?;
    }
    Ok(())
}

#[tactic(auto, using(crate::proofs::BodyViews::statement_views))]
#[cycle(statement)]
fn tell_in_case(
    meetings: &Meetings<'_>,
    alternative: &CaseAlternative,
    told: &mut Told,
) -> Result<(), Memory>
    ensures { OnOk result (told.new ≡ told.old ++ (over_labels (told_source meetings.now) (case_tree alternative.now).labels ++ over_actions meetings.now (statement_nodes (case_tree alternative.now).actions))) }
{
    meetings.tell_in_ranges(alternative.labels.as_slice(), told)?;
    tell_in_actions(meetings, alternative.actions.as_slice(), told)
}

#[cycle(statement)]
fn tell_in_receives(
    meetings: &Meetings<'_>,
    alternatives: &[ReceiveAlternative],
    told: &mut Told,
) -> Result<(), Memory>
    ensures { OnOk result (told.new ≡ told.old ++ over_receives meetings.now (receive_nodes (map receive_tree alternatives.now))) }
{
    for alternative in alternatives {
        tell_in_receive(meetings, alternative, told)?;
    }
    Ok(())
}

#[tactic(auto, using(crate::proofs::BodyViews::statement_views))]
#[cycle(statement)]
fn tell_in_receive(
    meetings: &Meetings<'_>,
    alternative: &ReceiveAlternative,
    told: &mut Told,
) -> Result<(), Memory>
    ensures { OnOk result (told.new ≡ told.old ++ over_actions meetings.now (statement_nodes (receive_tree alternative.now).actions)) }
{
    tell_in_actions(meetings, alternative.actions.as_slice(), told)
}

/// What is told in a handler that may be written.
#[cycle(statement)]
pub fn tell_in_handler(
    meetings: &Meetings<'_>,
    handler: &Option<Box<Handler>>,
    told: &mut Told,
) -> Result<(), Memory>
    ensures { OnOk result (told.new ≡ told.old ++ over_handler meetings.now (handler_node (option_map boxed_handler handler.now))) }
{
    match handler {
        None => Ok(()),
        Some(handler) => tell_in_own_handler(meetings, handler, told),
    }
}

#[tactic(auto, using(crate::proofs::BodyViews::statement_views))]
#[cycle(statement)]
fn tell_in_own_handler(
    meetings: &Meetings<'_>,
    handler: &Handler,
    told: &mut Told,
) -> Result<(), Memory>
    ensures { OnOk result (told.new ≡ told.old ++ over_handler meetings.now (handler_node (Some (handler_tree handler.now)))) }
{
    tell_in_named(meetings, handler.alternatives.as_slice(), told)?;
    if let Some(actions) = &handler.otherwise {
        tell_in_actions(meetings, actions.as_slice(), told)?;
    }
    Ok(())
}

#[cycle(statement)]
fn tell_in_named(
    meetings: &Meetings<'_>,
    alternatives: &[NamedAlternative],
    told: &mut Told,
) -> Result<(), Memory>
    ensures { OnOk result (told.new ≡ told.old ++ over_named meetings.now (named_nodes (map named_tree alternatives.now))) }
{
    for alternative in alternatives {
        tell_in_one_named(meetings, alternative, told)?;
    }
    Ok(())
}

#[tactic(auto, using(crate::proofs::BodyViews::statement_views))]
#[cycle(statement)]
fn tell_in_one_named(
    meetings: &Meetings<'_>,
    alternative: &NamedAlternative,
    told: &mut Told,
) -> Result<(), Memory>
    ensures { OnOk result (told.new ≡ told.old ++ over_actions meetings.now (statement_nodes (named_tree alternative.now).actions)) }
{
    tell_in_actions(meetings, alternative.actions.as_slice(), told)
}

/// What is told in a body.
#[tactic(auto, using(crate::proofs::BodyViews::body_views))]
#[cycle(statement)]
pub fn tell_in_body(
    meetings: &Meetings<'_>,
    body: &[BodyPart],
    told: &mut Told,
) -> Result<(), Memory>
    ensures { OnOk result (told.new ≡ told.old ++ over_body meetings.now (body_nodes (body_trees body.now))) }
{
    for part in body {
        tell_in_part(meetings, part, told)?;
    }
    Ok(())
}

#[tactic(auto, using(crate::proofs::BodyViews::statement_views))]
#[cycle(statement)]
fn tell_in_part(meetings: &Meetings<'_>, part: &BodyPart, told: &mut Told) -> Result<(), Memory>
    ensures { OnOk result (told.new ≡ told.old ++ over_body meetings.now (body_nodes (body_tree part.now ∷ []))) }
{
    match part {
        BodyPart::Local(local) => tell_in_local_of_body(meetings, local, told),
        BodyPart::Statement(statement) => tell_in_statement(meetings, statement, told),
    }
}
