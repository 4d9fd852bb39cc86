// What statements have, and those that they hold.
ghost use Rattle.std.specs.Prelude.{◌≡◌, ◌++◌, Some, OnOk, map, option_map};
ghost use Rattle.chill_tree.specs.ExprTree.{boxed_expr};
ghost use Rattle.chill_tree.specs.SimpleTree.{simple_tree};
ghost use Rattle.chill_tree.specs.StatementTree.{statement_tree, bracketed_tree, branch_tree, case_tree, named_tree, receive_tree, handler_tree, boxed_handler, body_tree, statement_trees, body_trees, statement_nodes, branch_nodes, case_nodes, named_nodes, receive_nodes, handler_node, body_nodes};
ghost use Rattle.wait_exprs.specs.Waits.{set_of, priority_of, some_wait, waits_of_simple, waits_at_head, waits_in, waits_held, waits_in_each, waits_in_branches, waits_in_cases, waits_in_named, waits_in_receives, waits_in_handler, waits_in_parts};
ghost use Rattle.wait_exprs.specs.Bracketed.{waits_inside, waits_in_else, waits_in_part};
ghost use Rattle.wait_exprs.specs.Views.{wait_trees};

use crate::wait::Wait;
use chill_base::{List, Memory};
use chill_tree::tree::{
    BodyPart, Bracketed, CaseAlternative, ElsIf, Expr, Handler, NamedAlternative,
    ReceiveAlternative, Simple, Statement,
};

fn add_set<'a>(set: &'a Option<Box<Expr>>, found: &mut List<Wait<'a>>) -> Result<(), Memory>
    ensures { OnOk result (wait_trees found.new ≡ wait_trees found.old ++ some_wait set_of (option_map boxed_expr set.now)) }
{
    match set {
        None => Ok(()),
        Some(set) => found.push(Wait::Set(set)),
    }
}

fn add_priority<'a>(
    priority: &'a Option<Box<Expr>>,
    found: &mut List<Wait<'a>>,
) -> Result<(), Memory>
    ensures { OnOk result (wait_trees found.new ≡ wait_trees found.old ++ some_wait priority_of (option_map boxed_expr priority.now)) }
{
    match priority {
        None => Ok(()),
        Some(priority) => found.push(Wait::Priority(priority)),
    }
}

fn add_in_simple<'a>(action: &'a Simple, found: &mut List<Wait<'a>>) -> Result<(), Memory>
    ensures { OnOk result (wait_trees found.new ≡ wait_trees found.old ++ waits_of_simple (simple_tree action.now)) }
{
    match action {
        Simple::Delay { priority, .. } => add_priority(priority, found),
        Simple::Send { priority, .. } => add_priority(priority, found),
        Simple::Assign { .. }
        | Simple::Update { .. }
        | Simple::Call { .. }
        | Simple::Exit { .. }
        | Simple::Return { .. }
        | Simple::Result { .. }
        | Simple::Assert { .. }
        | Simple::Cause { .. }
        | Simple::Stop { .. }
        | Simple::Start { .. }
        | Simple::Continue { .. } => Ok(()),
    }
}

#[tactic(auto, using(crate::proofs::BodyViews::statement_views))]
fn add_at_head<'a>(action: &'a Bracketed, found: &mut List<Wait<'a>>) -> Result<(), Memory>
    ensures { OnOk result (wait_trees found.new ≡ wait_trees found.old ++ waits_at_head (bracketed_tree action.now)) }
{
    match action {
        Bracketed::DelayCase { set, priority, .. } => {
            add_set(set, found)?;
            add_priority(priority, found)
        }
        Bracketed::ReceiveCase { set, .. } => add_set(set, found),
        Bracketed::If { .. }
        | Bracketed::Case { .. }
        | Bracketed::Do { .. }
        | Bracketed::Begin { .. } => Ok(()),
    }
}

/// Adds what a statement has.
#[tactic(auto, using(crate::proofs::BodyViews::statement_views))]
#[cycle(statement)]
pub fn add_in_statement<'a>(
    statement: &'a Statement,
    found: &mut List<Wait<'a>>,
) -> Result<(), Memory>
    ensures { OnOk result (wait_trees found.new ≡ wait_trees found.old ++ waits_in (statement_tree statement.now)) }
{
    match statement {
        Statement::Empty { .. } => Ok(()),
        Statement::Simple {
            action,
            handler,
            ..
        } => {
            add_in_simple(action, found)?;
            add_in_handler(handler, found)
        }
        Statement::Bracketed {
            action,
            handler,
            ..
        } => {
            add_at_head(action, found)?;
            add_held(action, found)?;
            add_in_handler(handler, found)
        }
    }
}

#[cycle(statement)]
fn add_in_actions<'a>(actions: &'a [Statement], found: &mut List<Wait<'a>>) -> Result<(), Memory>
    ensures { OnOk result (wait_trees found.new ≡ wait_trees found.old ++ waits_in_each (statement_nodes (statement_trees actions.now))) }
{
    for action in actions {
        add_in_statement(action, found)?;
    }
    Ok(())
}

#[tactic(auto, using(crate::proofs::BodyViews::bracketed_views))]
#[cycle(statement)]
fn add_held<'a>(action: &'a Bracketed, found: &mut List<Wait<'a>>) -> Result<(), Memory>
    ensures { OnOk result (wait_trees found.new ≡ wait_trees found.old ++ waits_held (bracketed_tree action.now)) }
{
    add_inside(action, found)?;
    add_in_else(action, found)
}

#[tactic(auto, using(crate::proofs::BodyViews::statement_views))]
#[cycle(statement)]
fn add_inside<'a>(action: &'a Bracketed, found: &mut List<Wait<'a>>) -> Result<(), Memory>
    ensures { OnOk result (wait_trees found.new ≡ wait_trees found.old ++ waits_inside (bracketed_tree action.now)) }
{
    match action {
        Bracketed::If {
            actions,
            branches,
            ..
        } => {
            add_in_actions(actions.as_slice(), found)?;
            add_in_branches(branches.as_slice(), found)
        }
        Bracketed::Case { alternatives, .. } => add_in_cases(alternatives.as_slice(), found),
        Bracketed::Do { actions, .. } => add_in_actions(actions.as_slice(), found),
        Bracketed::Begin { body, .. } => add_in_body(body.as_slice(), found),
        Bracketed::DelayCase { alternatives, .. } => add_in_named(alternatives.as_slice(), found),
        Bracketed::ReceiveCase { alternatives, .. } => {
            add_in_receives(alternatives.as_slice(), found)
        }
    }
}

#[tactic(auto, using(crate::proofs::BodyViews::statement_views))]
#[cycle(statement)]
fn add_in_else<'a>(action: &'a Bracketed, found: &mut List<Wait<'a>>) -> Result<(), Memory>
    ensures { OnOk result (wait_trees found.new ≡ wait_trees found.old ++ waits_in_else (bracketed_tree action.now)) }
{
    match action {
        Bracketed::If { otherwise, .. }
        | Bracketed::Case { otherwise, .. }
        | Bracketed::ReceiveCase { otherwise, .. } => match otherwise {
            None => Ok(()),
            Some(actions) => add_in_actions(actions.as_slice(), found),
        },
        Bracketed::Do { .. } | Bracketed::Begin { .. } | Bracketed::DelayCase { .. } => Ok(()),
    }
}

#[cycle(statement)]
fn add_in_branches<'a>(branches: &'a [ElsIf], found: &mut List<Wait<'a>>) -> Result<(), Memory>
    ensures { OnOk result (wait_trees found.new ≡ wait_trees found.old ++ waits_in_branches (branch_nodes (map branch_tree branches.now))) }
{
    for branch in branches {
        add_in_branch(branch, found)?;
    }
    Ok(())
}

#[tactic(auto, using(crate::proofs::BodyViews::statement_views))]
#[cycle(statement)]
fn add_in_branch<'a>(branch: &'a ElsIf, found: &mut List<Wait<'a>>) -> Result<(), Memory>
    ensures { OnOk result (wait_trees found.new ≡ wait_trees found.old ++ waits_in_each (statement_nodes (branch_tree branch.now).actions)) }
{
    add_in_actions(branch.actions.as_slice(), found)
}

#[cycle(statement)]
fn add_in_cases<'a>(
    alternatives: &'a [CaseAlternative],
    found: &mut List<Wait<'a>>,
) -> Result<(), Memory>
    ensures { OnOk result (wait_trees found.new ≡ wait_trees found.old ++ waits_in_cases (case_nodes (map case_tree alternatives.now))) }
{
    for alternative in alternatives {
        add_in_case(alternative, found)?;
    }
    Ok(())
}

#[tactic(auto, using(crate::proofs::BodyViews::statement_views))]
#[cycle(statement)]
fn add_in_case<'a>(
    alternative: &'a CaseAlternative,
    found: &mut List<Wait<'a>>,
) -> Result<(), Memory>
    ensures { OnOk result (wait_trees found.new ≡ wait_trees found.old ++ waits_in_each (statement_nodes (case_tree alternative.now).actions)) }
{
    add_in_actions(alternative.actions.as_slice(), found)
}

#[cycle(statement)]
fn add_in_named<'a>(
    alternatives: &'a [NamedAlternative],
    found: &mut List<Wait<'a>>,
) -> Result<(), Memory>
    ensures { OnOk result (wait_trees found.new ≡ wait_trees found.old ++ waits_in_named (named_nodes (map named_tree alternatives.now))) }
{
    for alternative in alternatives {
        add_in_one_named(alternative, found)?;
    }
    Ok(())
}

#[tactic(auto, using(crate::proofs::BodyViews::statement_views))]
#[cycle(statement)]
fn add_in_one_named<'a>(
    alternative: &'a NamedAlternative,
    found: &mut List<Wait<'a>>,
) -> Result<(), Memory>
    ensures { OnOk result (wait_trees found.new ≡ wait_trees found.old ++ waits_in_each (statement_nodes (named_tree alternative.now).actions)) }
{
    add_in_actions(alternative.actions.as_slice(), found)
}

#[cycle(statement)]
fn add_in_receives<'a>(
    alternatives: &'a [ReceiveAlternative],
    found: &mut List<Wait<'a>>,
) -> Result<(), Memory>
    ensures { OnOk result (wait_trees found.new ≡ wait_trees found.old ++ waits_in_receives (receive_nodes (map receive_tree alternatives.now))) }
{
    for alternative in alternatives {
        add_in_receive(alternative, found)?;
    }
    Ok(())
}

#[tactic(auto, using(crate::proofs::BodyViews::statement_views))]
#[cycle(statement)]
fn add_in_receive<'a>(
    alternative: &'a ReceiveAlternative,
    found: &mut List<Wait<'a>>,
) -> Result<(), Memory>
    ensures { OnOk result (wait_trees found.new ≡ wait_trees found.old ++ waits_in_each (statement_nodes (receive_tree alternative.now).actions)) }
{
    add_in_actions(alternative.actions.as_slice(), found)
}

/// Adds what a handler has, where one is written.
#[cycle(statement)]
pub fn add_in_handler<'a>(
    handler: &'a Option<Box<Handler>>,
    found: &mut List<Wait<'a>>,
) -> Result<(), Memory>
    ensures { OnOk result (wait_trees found.new ≡ wait_trees found.old ++ waits_in_handler (handler_node (option_map boxed_handler handler.now))) }
{
    match handler {
        None => Ok(()),
        Some(handler) => add_in_own_handler(handler, found),
    }
}

#[tactic(auto, using(crate::proofs::BodyViews::statement_views))]
#[cycle(statement)]
fn add_in_own_handler<'a>(handler: &'a Handler, found: &mut List<Wait<'a>>) -> Result<(), Memory>
    ensures { OnOk result (wait_trees found.new ≡ wait_trees found.old ++ waits_in_handler (handler_node (Some (handler_tree handler.now)))) }
{
    add_in_named(handler.alternatives.as_slice(), found)?;
    if let Some(actions) = &handler.otherwise {
        add_in_actions(actions.as_slice(), found)?;
    }
    Ok(())
}

/// Adds what a body has.
#[tactic(auto, using(crate::proofs::BodyViews::body_views))]
#[cycle(statement)]
pub fn add_in_body<'a>(body: &'a [BodyPart], found: &mut List<Wait<'a>>) -> Result<(), Memory>
    ensures { OnOk result (wait_trees found.new ≡ wait_trees found.old ++ waits_in_parts (body_nodes (body_trees body.now))) }
{
    for part in body {
        add_in_part(part, found)?;
    }
    Ok(())
}

#[tactic(auto, using(crate::proofs::BodyViews::statement_views))]
#[cycle(statement)]
fn add_in_part<'a>(part: &'a BodyPart, found: &mut List<Wait<'a>>) -> Result<(), Memory>
    ensures { OnOk result (wait_trees found.new ≡ wait_trees found.old ++ waits_in_part (body_tree part.now)) }
{
    match part {
        BodyPart::Local(_) => Ok(()),
        BodyPart::Statement(statement) => add_in_statement(statement, found),
    }
}
