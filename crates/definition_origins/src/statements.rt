// The definitions in statements.
ghost use Rattle.std.specs.Prelude.{◌≡◌, ◌++◌, [], ◌∷◌, Some, OnOk, map, option_map};
ghost use Rattle.chill_tree.specs.SimpleTree.{control_tree};
ghost use Rattle.chill_tree.specs.StatementTree.{statement_tree, bracketed_tree, branch_tree, case_tree, named_tree, receive_tree, handler_tree, boxed_handler, body_tree, statement_trees, body_trees, statement_nodes, branch_nodes, case_nodes, named_nodes, receive_nodes, handler_node, body_nodes};
ghost use Rattle.checks_model.specs.Origins.{counters_in, received_in, origins_in, origins_in_bracketed, origins_in_each, origins_in_branches, origins_in_cases, origins_in_named, origins_in_receives, origins_in_handler, origins_in_parts};
ghost use Rattle.names_model.specs.Definitions.{numbers_on};
ghost use Rattle.definition_origins.specs.OriginTrees.{origin_trees, received_tree};
ghost use Rattle.definition_origins.specs.Walks.{held_origins, else_origins};

use crate::locals::add_local;
use crate::origin::Origin;
use crate::origin_list::Origins;
use chill_base::Memory;
use chill_tree::tree::{
    BodyPart, Bracketed, CaseAlternative, Control, ElsIf, Handler, NamedAlternative,
    ReceiveAlternative, Statement,
};

// The counter of a loop.
fn add_counter<'a>(control: &'a Control, found: &mut Origins<'a>) -> Result<(), Memory>
    ensures { OnOk result (origin_trees found.new ≡ origin_trees found.old ++ counters_in (control_tree control.now)) }
{
    match control {
        Control::While { .. } | Control::Forever { .. } => Ok(()),
        Control::Members { .. } | Control::Steps { .. } => found.push(Origin::Counter(control)),
    }
}

// So many names that an alternative of RECEIVE CASE receives.
fn add_parts<'a>(
    alternative: &'a ReceiveAlternative,
    count: usize,
    found: &mut Origins<'a>,
) -> Result<(), Memory>
    ensures { OnOk result (origin_trees found.new ≡ origin_trees found.old ++ map (received_tree (receive_tree alternative.now)) (numbers_on 0 count)) }
{
    for part in 0..count {
        found.push(Origin::Received { alternative, part })?;
    }
    Ok(())
}

// The names that an alternative of RECEIVE CASE receives.
#[tactic(auto, using(crate::proofs::Views::statement_views))]
fn add_received<'a>(
    alternative: &'a ReceiveAlternative,
    found: &mut Origins<'a>,
) -> Result<(), Memory>
    ensures { OnOk result (origin_trees found.new ≡ origin_trees found.old ++ received_in (receive_tree alternative.now).source (receive_tree alternative.now).received) }
{
    match &alternative.received {
        None => Ok(()),
        Some(names) => add_parts(alternative, names.len(), found),
    }
}

/// The definitions in a statement with its handler.
#[tactic(auto, using(crate::proofs::Views::statement_views))]
#[cycle(statement)]
pub fn add_statement<'a>(statement: &'a Statement, found: &mut Origins<'a>) -> Result<(), Memory>
    ensures { OnOk result (origin_trees found.new ≡ origin_trees found.old ++ origins_in (statement_tree statement.now)) }
{
    match statement {
        Statement::Empty { .. } => Ok(()),
        Statement::Simple { handler, .. } => add_some_handler(handler, found),
        Statement::Bracketed {
            action,
            handler,
            ..
        } => {
            add_bracketed(action, found)?;
            add_some_handler(handler, found)
        }
    }
}

// The definitions in actions.
#[cycle(statement)]
fn add_actions<'a>(actions: &'a [Statement], found: &mut Origins<'a>) -> Result<(), Memory>
    ensures { OnOk result (origin_trees found.new ≡ origin_trees found.old ++ origins_in_each (statement_nodes (statement_trees actions.now))) }
{
    for action in actions {
        add_statement(action, found)?;
    }
    Ok(())
}

// The definitions in an action that holds others.
#[tactic(auto, using(crate::proofs::Views::bracketed_views))]
#[cycle(statement)]
fn add_bracketed<'a>(action: &'a Bracketed, found: &mut Origins<'a>) -> Result<(), Memory>
    ensures { OnOk result (origin_trees found.new ≡ origin_trees found.old ++ origins_in_bracketed (bracketed_tree action.now)) }
{
    add_held(action, found)?;
    add_else(action, found)
}

// The definitions in what an action holds but its ELSE.
#[tactic(auto, using(crate::proofs::Views::statement_views))]
#[cycle(statement)]
fn add_held<'a>(action: &'a Bracketed, found: &mut Origins<'a>) -> Result<(), Memory>
    ensures { OnOk result (origin_trees found.new ≡ origin_trees found.old ++ held_origins (bracketed_tree action.now)) }
{
    match action {
        Bracketed::If {
            actions,
            branches,
            ..
        } => {
            add_actions(actions.as_slice(), found)?;
            add_branches(branches.as_slice(), found)
        }
        Bracketed::Case { alternatives, .. } => add_cases(alternatives.as_slice(), found),
        Bracketed::Do {
            control,
            actions,
            ..
        } => {
            add_counter(control, found)?;
            add_actions(actions.as_slice(), found)
        }
        Bracketed::Begin { body, .. } => add_body(body.as_slice(), found),
        Bracketed::DelayCase { alternatives, .. } => add_alternatives(
            alternatives.as_slice(),
            found,
        ),
        Bracketed::ReceiveCase { alternatives, .. } => add_receives(alternatives.as_slice(), found),
    }
}

// The definitions in the ELSE of an action.
#[tactic(auto, using(crate::proofs::Views::statement_views))]
#[cycle(statement)]
fn add_else<'a>(action: &'a Bracketed, found: &mut Origins<'a>) -> Result<(), Memory>
    ensures { OnOk result (origin_trees found.new ≡ origin_trees found.old ++ else_origins (bracketed_tree action.now)) }
{
    match action {
        Bracketed::If { otherwise, .. }
        | Bracketed::Case { otherwise, .. }
        | Bracketed::ReceiveCase { otherwise, .. } => match otherwise {
            None => Ok(()),
            Some(actions) => add_actions(actions.as_slice(), found),
        },
        Bracketed::Do { .. } | Bracketed::Begin { .. } | Bracketed::DelayCase { .. } => Ok(()),
    }
}

// The definitions in the further conditions of an IF.
#[cycle(statement)]
fn add_branches<'a>(branches: &'a [ElsIf], found: &mut Origins<'a>) -> Result<(), Memory>
    ensures { OnOk result (origin_trees found.new ≡ origin_trees found.old ++ origins_in_branches (branch_nodes (map branch_tree branches.now))) }
{
    for branch in branches {
        add_branch(branch, found)?;
    }
    Ok(())
}

// The definitions in a further condition of an IF.
#[tactic(auto, using(crate::proofs::Views::statement_views))]
#[cycle(statement)]
fn add_branch<'a>(branch: &'a ElsIf, found: &mut Origins<'a>) -> Result<(), Memory>
    ensures { OnOk result (origin_trees found.new ≡ origin_trees found.old ++ origins_in_each (statement_nodes (branch_tree branch.now).actions)) }
{
    add_actions(branch.actions.as_slice(), found)
}

// The definitions in the alternatives of a CASE.
#[cycle(statement)]
fn add_cases<'a>(alternatives: &'a [CaseAlternative], found: &mut Origins<'a>) -> Result<(), Memory>
    ensures { OnOk result (origin_trees found.new ≡ origin_trees found.old ++ origins_in_cases (case_nodes (map case_tree alternatives.now))) }
{
    for alternative in alternatives {
        add_case(alternative, found)?;
    }
    Ok(())
}

// The definitions in an alternative of a CASE.
#[tactic(auto, using(crate::proofs::Views::statement_views))]
#[cycle(statement)]
fn add_case<'a>(alternative: &'a CaseAlternative, found: &mut Origins<'a>) -> Result<(), Memory>
    ensures { OnOk result (origin_trees found.new ≡ origin_trees found.old ++ origins_in_each (statement_nodes (case_tree alternative.now).actions)) }
{
    add_actions(alternative.actions.as_slice(), found)
}

// The definitions in alternatives of events or exceptions.
#[cycle(statement)]
fn add_alternatives<'a>(
    alternatives: &'a [NamedAlternative],
    found: &mut Origins<'a>,
) -> Result<(), Memory>
    ensures { OnOk result (origin_trees found.new ≡ origin_trees found.old ++ origins_in_named (named_nodes (map named_tree alternatives.now))) }
{
    for alternative in alternatives {
        add_alternative(alternative, found)?;
    }
    Ok(())
}

// The definitions in an alternative of events or exceptions.
#[tactic(auto, using(crate::proofs::Views::statement_views))]
#[cycle(statement)]
fn add_alternative<'a>(
    alternative: &'a NamedAlternative,
    found: &mut Origins<'a>,
) -> Result<(), Memory>
    ensures { OnOk result (origin_trees found.new ≡ origin_trees found.old ++ origins_in_each (statement_nodes (named_tree alternative.now).actions)) }
{
    add_actions(alternative.actions.as_slice(), found)
}

// The definitions in the alternatives of a RECEIVE CASE.
#[cycle(statement)]
fn add_receives<'a>(
    alternatives: &'a [ReceiveAlternative],
    found: &mut Origins<'a>,
) -> Result<(), Memory>
    ensures { OnOk result (origin_trees found.new ≡ origin_trees found.old ++ origins_in_receives (receive_nodes (map receive_tree alternatives.now))) }
{
    for alternative in alternatives {
        add_receive(alternative, found)?;
    }
    Ok(())
}

// The definitions in an alternative of a RECEIVE CASE.
#[tactic(auto, using(crate::proofs::Views::statement_views))]
#[cycle(statement)]
fn add_receive<'a>(
    alternative: &'a ReceiveAlternative,
    found: &mut Origins<'a>,
) -> Result<(), Memory>
    ensures { OnOk result (origin_trees found.new ≡ origin_trees found.old ++ (received_in (receive_tree alternative.now).source (receive_tree alternative.now).received ++ origins_in_each (statement_nodes (receive_tree alternative.now).actions))) }
{
    add_received(alternative, found)?;
    add_actions(alternative.actions.as_slice(), found)
}

/// The definitions in a handler that may be written.
#[cycle(statement)]
pub fn add_some_handler<'a>(
    handler: &'a Option<Box<Handler>>,
    found: &mut Origins<'a>,
) -> Result<(), Memory>
    ensures { OnOk result (origin_trees found.new ≡ origin_trees found.old ++ origins_in_handler (handler_node (option_map boxed_handler handler.now))) }
{
    match handler {
        None => Ok(()),
        Some(handler) => add_handler(handler, found),
    }
}

// The definitions in a handler.
#[tactic(auto, using(crate::proofs::Views::statement_views))]
#[cycle(statement)]
fn add_handler<'a>(handler: &'a Handler, found: &mut Origins<'a>) -> Result<(), Memory>
    ensures { OnOk result (origin_trees found.new ≡ origin_trees found.old ++ origins_in_handler (handler_node (Some (handler_tree handler.now)))) }
{
    add_alternatives(handler.alternatives.as_slice(), found)?;
    match &handler.otherwise {
        None => Ok(()),
        Some(actions) => add_actions(actions.as_slice(), found),
    }
}

/// The definitions in a body.
#[tactic(auto, using(crate::proofs::Views::body_views))]
#[cycle(statement)]
pub fn add_body<'a>(body: &'a [BodyPart], found: &mut Origins<'a>) -> Result<(), Memory>
    ensures { OnOk result (origin_trees found.new ≡ origin_trees found.old ++ origins_in_parts (body_nodes (body_trees body.now))) }
{
    for part in body {
        add_part(part, found)?;
    }
    Ok(())
}

// The definitions in a part of a body.
#[tactic(auto, using(crate::proofs::Views::statement_views))]
#[cycle(statement)]
fn add_part<'a>(part: &'a BodyPart, found: &mut Origins<'a>) -> Result<(), Memory>
    ensures { OnOk result (origin_trees found.new ≡ origin_trees found.old ++ origins_in_parts (body_nodes (body_tree part.now ∷ []))) }
{
    match part {
        BodyPart::Local(local) => add_local(local, found),
        BodyPart::Statement(statement) => add_statement(statement, found),
    }
}
