// What is told in statements, and in what they hold.
ghost use Rattle.std.specs.Prelude.{◌≡◌, ◌++◌, [], ◌∷◌, Some, OnOk, map, option_map};
ghost use Rattle.chill_tree.specs.StatementTree.{statement_tree, bracketed_tree, branch_tree, case_tree, named_tree, receive_tree, handler_tree, boxed_handler, body_tree, statement_trees, body_trees, statement_nodes, branch_nodes, case_nodes, named_nodes, receive_nodes, handler_node, body_nodes};
ghost use Rattle.checks_model.specs.ConstantRules.{told_of_constants};
ghost use Rattle.constant_operators.specs.Grounds.{ground_of};
ghost use Rattle.mode_rules.specs.Ready.{IsReady};
ghost use Rattle.mode_rules.specs.Walk.{over_statement, over_bracketed, over_actions, over_branches, over_cases, over_receives, over_handler, over_named, over_body, over_labels, over_head, over_held, over_else};

use crate::actions::{tell_in_control, tell_in_simple};
use crate::expressions::{tell_in, tell_in_labels, tell_in_some, tell_some_needed};
use crate::locals::tell_in_local;
use chill_base::Memory;
use chill_tree::tree::{
    BodyPart, Bracketed, CaseAlternative, ElsIf, Handler, NamedAlternative, ReceiveAlternative,
    Statement,
};
use constant_operators::Evaluation;
use definition_origins::Told;

/// What is told in a statement.
#[tactic(auto, using(crate::proofs::BodyViews::statement_views))]
#[cycle(statement)]
pub fn tell_in_statement(
    ground: &Evaluation<'_>,
    statement: &Statement,
    told: &mut Told,
) -> Result<(), Memory>
    ensures { IsReady ground.now → OnOk result (told.new ≡ told.old ++ over_statement (ground_of ground.now) (statement_tree statement.now)) }
{
    match statement {
        Statement::Empty { .. } => Ok(()),
        Statement::Simple {
            action,
            handler,
            ..
        } => {
            tell_in_simple(ground, action, told)?;
            tell_in_handler(ground, handler, told)
        }
        Statement::Bracketed {
            action,
            handler,
            ..
        } => {
            tell_in_bracketed(ground, action, told)?;
            tell_in_handler(ground, handler, told)
        }
    }
}

#[cycle(statement)]
fn tell_in_actions(
    ground: &Evaluation<'_>,
    actions: &[Statement],
    told: &mut Told,
) -> Result<(), Memory>
    ensures { IsReady ground.now → OnOk result (told.new ≡ told.old ++ over_actions (ground_of ground.now) (statement_nodes (statement_trees actions.now))) }
{
    for action in actions {
        tell_in_statement(ground, action, told)?;
    }
    Ok(())
}

#[tactic(auto, using(crate::proofs::BodyViews::bracketed_views))]
#[cycle(statement)]
fn tell_in_bracketed(
    ground: &Evaluation<'_>,
    action: &Bracketed,
    told: &mut Told,
) -> Result<(), Memory>
    ensures { IsReady ground.now → OnOk result (told.new ≡ told.old ++ over_bracketed (ground_of ground.now) (bracketed_tree action.now)) }
{
    tell_head(ground, action, told)?;
    tell_held(ground, action, told)?;
    tell_else(ground, action, told)
}

#[tactic(auto, using(crate::proofs::BodyViews::statement_views))]
fn tell_head(ground: &Evaluation<'_>, action: &Bracketed, told: &mut Told) -> Result<(), Memory>
    ensures { IsReady ground.now → OnOk result (told.new ≡ told.old ++ over_head (ground_of ground.now) (bracketed_tree action.now)) }
{
    match action {
        Bracketed::If { condition, .. } => tell_in(ground, condition, told),
        Bracketed::Case { selector, .. } => tell_in(ground, selector, told),
        Bracketed::Do { control, .. } => tell_in_control(ground, control, told),
        Bracketed::Begin { .. } => Ok(()),
        Bracketed::DelayCase { set, priority, .. } => {
            tell_in_some(ground, set, told)?;
            tell_some_needed(ground, priority, told)
        }
        Bracketed::ReceiveCase { set, .. } => tell_in_some(ground, set, told),
    }
}

#[tactic(auto, using(crate::proofs::BodyViews::statement_views))]
#[cycle(statement)]
fn tell_held(ground: &Evaluation<'_>, action: &Bracketed, told: &mut Told) -> Result<(), Memory>
    ensures { IsReady ground.now → OnOk result (told.new ≡ told.old ++ over_held (ground_of ground.now) (bracketed_tree action.now)) }
{
    match action {
        Bracketed::If {
            actions,
            branches,
            ..
        } => {
            tell_in_actions(ground, actions.as_slice(), told)?;
            tell_in_branches(ground, branches.as_slice(), told)
        }
        Bracketed::Case { alternatives, .. } => {
            tell_in_cases(ground, alternatives.as_slice(), told)
        }
        Bracketed::Do { actions, .. } => tell_in_actions(ground, actions.as_slice(), told),
        Bracketed::Begin { body, .. } => tell_in_body(ground, body.as_slice(), told),
        Bracketed::DelayCase { alternatives, .. } => {
            tell_in_named(ground, alternatives.as_slice(), told)
        }
        Bracketed::ReceiveCase { alternatives, .. } => {
            tell_in_receives(ground, alternatives.as_slice(), told)
        }
    }
}

#[tactic(auto, using(crate::proofs::BodyViews::statement_views))]
#[cycle(statement)]
fn tell_else(ground: &Evaluation<'_>, action: &Bracketed, told: &mut Told) -> Result<(), Memory>
    ensures { IsReady ground.now → OnOk result (told.new ≡ told.old ++ over_else (ground_of ground.now) (bracketed_tree action.now)) }
{
    match action {
        Bracketed::If { otherwise, .. }
        | Bracketed::Case { otherwise, .. }
        | Bracketed::ReceiveCase { otherwise, .. } => match otherwise {
            None => Ok(()),
            Some(actions) => tell_in_actions(ground, actions.as_slice(), told),
        },
        Bracketed::Do { .. } | Bracketed::Begin { .. } | Bracketed::DelayCase { .. } => Ok(()),
    }
}

#[cycle(statement)]
fn tell_in_branches(
    ground: &Evaluation<'_>,
    branches: &[ElsIf],
    told: &mut Told,
) -> Result<(), Memory>
    ensures { IsReady ground.now → OnOk result (told.new ≡ told.old ++ over_branches (ground_of ground.now) (branch_nodes (map branch_tree branches.now))) }
{
    for branch in branches {
        tell_in_branch(ground, branch, told)?;
    }
    Ok(())
}

#[tactic(auto, using(crate::proofs::BodyViews::statement_views))]
#[cycle(statement)]
fn tell_in_branch(ground: &Evaluation<'_>, branch: &ElsIf, told: &mut Told) -> Result<(), Memory>
    ensures { IsReady ground.now → OnOk result (told.new ≡ told.old ++ (told_of_constants (ground_of ground.now) (branch_tree branch.now).condition ++ over_actions (ground_of ground.now) (statement_nodes (branch_tree branch.now).actions))) }
{
    tell_in(ground, &branch.condition, told)?;
    tell_in_actions(ground, branch.actions.as_slice(), told)
}

#[cycle(statement)]
fn tell_in_cases(
    ground: &Evaluation<'_>,
    alternatives: &[CaseAlternative],
    told: &mut Told,
) -> Result<(), Memory>
    ensures { IsReady ground.now → OnOk result (told.new ≡ told.old ++ over_cases (ground_of ground.now) (case_nodes (map case_tree alternatives.now))) }
{
    for alternative in alternatives {
        tell_in_case(ground, alternative, told)?;
    }
    Ok(())
}

#[tactic(auto, using(crate::proofs::BodyViews::statement_views))]
#[cycle(statement)]
fn tell_in_case(
    ground: &Evaluation<'_>,
    alternative: &CaseAlternative,
    told: &mut Told,
) -> Result<(), Memory>
    ensures { IsReady ground.now → OnOk result (told.new ≡ told.old ++ (over_labels (ground_of ground.now) (case_tree alternative.now).labels ++ over_actions (ground_of ground.now) (statement_nodes (case_tree alternative.now).actions))) }
{
    tell_in_labels(ground, alternative.labels.as_slice(), told)?;
    tell_in_actions(ground, alternative.actions.as_slice(), told)
}

#[cycle(statement)]
fn tell_in_receives(
    ground: &Evaluation<'_>,
    alternatives: &[ReceiveAlternative],
    told: &mut Told,
) -> Result<(), Memory>
    ensures { IsReady ground.now → OnOk result (told.new ≡ told.old ++ over_receives (ground_of ground.now) (receive_nodes (map receive_tree alternatives.now))) }
{
    for alternative in alternatives {
        tell_in_receive(ground, alternative, told)?;
    }
    Ok(())
}

#[tactic(auto, using(crate::proofs::BodyViews::statement_views))]
#[cycle(statement)]
fn tell_in_receive(
    ground: &Evaluation<'_>,
    alternative: &ReceiveAlternative,
    told: &mut Told,
) -> Result<(), Memory>
    ensures { IsReady ground.now → OnOk result (told.new ≡ told.old ++ over_actions (ground_of ground.now) (statement_nodes (receive_tree alternative.now).actions)) }
{
    tell_in_actions(ground, alternative.actions.as_slice(), told)
}

/// What is told in a handler that may be written.
#[cycle(statement)]
pub fn tell_in_handler(
    ground: &Evaluation<'_>,
    handler: &Option<Box<Handler>>,
    told: &mut Told,
) -> Result<(), Memory>
    ensures { IsReady ground.now → OnOk result (told.new ≡ told.old ++ over_handler (ground_of ground.now) (handler_node (option_map boxed_handler handler.now))) }
{
    match handler {
        None => Ok(()),
        Some(handler) => tell_in_own_handler(ground, handler, told),
    }
}

#[tactic(auto, using(crate::proofs::BodyViews::statement_views))]
#[cycle(statement)]
fn tell_in_own_handler(
    ground: &Evaluation<'_>,
    handler: &Handler,
    told: &mut Told,
) -> Result<(), Memory>
    ensures { IsReady ground.now → OnOk result (told.new ≡ told.old ++ over_handler (ground_of ground.now) (handler_node (Some (handler_tree handler.now)))) }
{
    tell_in_named(ground, handler.alternatives.as_slice(), told)?;
    if let Some(actions) = &handler.otherwise {
        tell_in_actions(ground, actions.as_slice(), told)?;
    }
    Ok(())
}

#[cycle(statement)]
fn tell_in_named(
    ground: &Evaluation<'_>,
    alternatives: &[NamedAlternative],
    told: &mut Told,
) -> Result<(), Memory>
    ensures { IsReady ground.now → OnOk result (told.new ≡ told.old ++ over_named (ground_of ground.now) (named_nodes (map named_tree alternatives.now))) }
{
    for alternative in alternatives {
        tell_in_one_named(ground, alternative, told)?;
    }
    Ok(())
}

#[tactic(auto, using(crate::proofs::BodyViews::statement_views))]
#[cycle(statement)]
fn tell_in_one_named(
    ground: &Evaluation<'_>,
    alternative: &NamedAlternative,
    told: &mut Told,
) -> Result<(), Memory>
    ensures { IsReady ground.now → OnOk result (told.new ≡ told.old ++ over_actions (ground_of ground.now) (statement_nodes (named_tree alternative.now).actions)) }
{
    tell_in_actions(ground, alternative.actions.as_slice(), told)
}

/// What is told in a body.
#[tactic(auto, using(crate::proofs::BodyViews::body_views))]
#[cycle(statement)]
pub fn tell_in_body(
    ground: &Evaluation<'_>,
    body: &[BodyPart],
    told: &mut Told,
) -> Result<(), Memory>
    ensures { IsReady ground.now → OnOk result (told.new ≡ told.old ++ over_body (ground_of ground.now) (body_nodes (body_trees body.now))) }
{
    for part in body {
        tell_in_part(ground, part, told)?;
    }
    Ok(())
}

#[tactic(auto, using(crate::proofs::BodyViews::statement_views))]
#[cycle(statement)]
fn tell_in_part(ground: &Evaluation<'_>, part: &BodyPart, told: &mut Told) -> Result<(), Memory>
    ensures { IsReady ground.now → OnOk result (told.new ≡ told.old ++ over_body (ground_of ground.now) (body_nodes (body_tree part.now ∷ []))) }
{
    match part {
        BodyPart::Local(local) => tell_in_local(ground, local, told),
        BodyPart::Statement(statement) => tell_in_statement(ground, statement, told),
    }
}
