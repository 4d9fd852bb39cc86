// The size of actions and bodies.
ghost use Rattle.std.specs.Prelude.{◌≡◌, ◌*◌, Some, map, option_map};
ghost use Rattle.chill_tree.specs.StatementTree.{statement_tree, bracketed_tree, branch_tree, case_tree, named_tree, receive_tree, handler_tree, boxed_handler, body_tree, statement_trees, body_trees, statement_nodes, branch_nodes, case_nodes, named_nodes, receive_nodes, handler_node};
ghost use Rattle.text_size.specs.Sizes as sizes;
ghost use Rattle.text_size.specs.Nodes.{capped};

use crate::locals::{nodes_in_control, nodes_in_local, nodes_in_simple};
use crate::nodes::{nodes_in, nodes_in_ranges, nodes_in_some};
use chill_tree::tree::{
    BodyPart, Bracketed, CaseAlternative, ElsIf, Handler, NamedAlternative, ReceiveAlternative,
    Statement,
};

// The size of a node of an expression.
const NODE: u32 = 4;

// The size of an action, with nothing that it holds.
const ACTION: u32 = 8;

// The size of an alternative of a CASE, DELAY CASE, RECEIVE CASE or handler, with nothing that it holds. An ELSE is none.
const ALTERNATIVE: u32 = 8;

/// The size of so many nodes.
pub fn size_of_nodes(count: u32) -> u32
    ensures { result ≡ capped (4 * count) }
{
    count.saturating_mul(NODE)
}

/// The size of a body, without its 16.
#[tactic(auto, using(crate::proofs::StatementLemmas::body_views))]
#[cycle(statement)]
pub fn size_of_body(body: &[BodyPart]) -> u32
    ensures { result ≡ capped (sizes.body_size (body_trees body.now)) }
{
    let mut size = 0_u32;
    for part in body {
        size = size.saturating_add(size_of_part(part));
    }
    size
}

#[tactic(auto, using(crate::proofs::StatementLemmas::statement_views))]
#[cycle(statement)]
fn size_of_part(part: &BodyPart) -> u32
    ensures { result ≡ capped (sizes.part_size (body_tree part.now)) }
{
    match part {
        BodyPart::Local(local) => size_of_nodes(nodes_in_local(local)),
        BodyPart::Statement(statement) => size_of_statement(statement),
    }
}

#[cycle(statement)]
fn size_of_actions(actions: &[Statement]) -> u32
    ensures { result ≡ capped (sizes.statements_size (statement_nodes (statement_trees actions.now))) }
{
    let mut size = 0_u32;
    for statement in actions {
        size = size.saturating_add(size_of_statement(statement));
    }
    size
}

/// The size of an action with its handler.
#[tactic(auto, using(crate::proofs::StatementLemmas::statement_views))]
#[cycle(statement)]
pub fn size_of_statement(statement: &Statement) -> u32
    ensures { result ≡ capped (sizes.statement_size (statement_tree statement.now)) }
{
    match statement {
        Statement::Empty { .. } => ACTION,
        Statement::Simple {
            action,
            handler,
            ..
        } => {
            let own = ACTION.saturating_add(size_of_nodes(nodes_in_simple(action)));
            own.saturating_add(size_of_some_handler(handler))
        }
        Statement::Bracketed {
            action,
            handler,
            ..
        } => {
            let own = ACTION.saturating_add(size_in_bracketed(action));
            own.saturating_add(size_of_some_handler(handler))
        }
    }
}

/// The size of a handler, where there is one.
#[cycle(statement)]
pub fn size_of_some_handler(handler: &Option<Box<Handler>>) -> u32
    ensures { result ≡ capped (sizes.some_handler_size (option_map boxed_handler handler.now)) }
{
    match handler {
        None => 0,
        Some(handler) => size_of_handler(handler),
    }
}

#[tactic(auto, using(crate::proofs::StatementLemmas::statement_views))]
#[cycle(statement)]
fn size_of_handler(handler: &Handler) -> u32
    ensures { result ≡ capped (sizes.some_handler_size (Some (handler_tree handler.now))) }
{
    let alternatives = size_of_alternatives(handler.alternatives.as_slice());
    match &handler.otherwise {
        None => alternatives,
        Some(actions) => alternatives.saturating_add(size_of_actions(actions.as_slice())),
    }
}

#[tactic(auto, using(crate::proofs::StatementLemmas::list_views))]
#[cycle(statement)]
fn size_of_alternatives(alternatives: &[NamedAlternative]) -> u32
    ensures { result ≡ capped (sizes.named_size (named_nodes (map named_tree alternatives.now))) }
{
    let mut size = 0_u32;
    for own in alternatives {
        size = size.saturating_add(size_of_alternative(own));
    }
    size
}

#[tactic(auto, using(crate::proofs::StatementLemmas::statement_views))]
#[cycle(statement)]
fn size_of_alternative(own: &NamedAlternative) -> u32
    ensures { result ≡ capped (sizes.alternative_size (named_tree own.now)) }
{
    ALTERNATIVE.saturating_add(size_of_actions(own.actions.as_slice()))
}

#[tactic(auto, using(crate::proofs::StatementLemmas::list_views))]
#[cycle(statement)]
fn size_of_choices(alternatives: &[CaseAlternative]) -> u32
    ensures { result ≡ capped (sizes.cases_size (case_nodes (map case_tree alternatives.now))) }
{
    let mut size = 0_u32;
    for own in alternatives {
        size = size.saturating_add(size_of_choice(own));
    }
    size
}

#[tactic(auto, using(crate::proofs::StatementLemmas::statement_views))]
#[cycle(statement)]
fn size_of_choice(own: &CaseAlternative) -> u32
    ensures { result ≡ capped (sizes.case_size (case_tree own.now)) }
{
    let labels = size_of_nodes(nodes_in_ranges(own.labels.as_slice()));
    ALTERNATIVE
        .saturating_add(labels)
        .saturating_add(size_of_actions(own.actions.as_slice()))
}

#[tactic(auto, using(crate::proofs::StatementLemmas::list_views))]
#[cycle(statement)]
fn size_of_receiving(alternatives: &[ReceiveAlternative]) -> u32
    ensures { result ≡ capped (sizes.receives_size (receive_nodes (map receive_tree alternatives.now))) }
{
    let mut size = 0_u32;
    for own in alternatives {
        size = size.saturating_add(size_of_receipt(own));
    }
    size
}

#[tactic(auto, using(crate::proofs::StatementLemmas::statement_views))]
#[cycle(statement)]
fn size_of_receipt(own: &ReceiveAlternative) -> u32
    ensures { result ≡ capped (sizes.receive_size (receive_tree own.now)) }
{
    ALTERNATIVE.saturating_add(size_of_actions(own.actions.as_slice()))
}

#[tactic(auto, using(crate::proofs::StatementLemmas::list_views))]
#[cycle(statement)]
fn size_of_branches(branches: &[ElsIf]) -> u32
    ensures { result ≡ capped (sizes.branches_size (branch_nodes (map branch_tree branches.now))) }
{
    let mut size = 0_u32;
    for own in branches {
        size = size.saturating_add(size_of_branch(own));
    }
    size
}

#[tactic(auto, using(crate::proofs::StatementLemmas::statement_views))]
#[cycle(statement)]
fn size_of_branch(own: &ElsIf) -> u32
    ensures { result ≡ capped (sizes.branch_size (branch_tree own.now)) }
{
    let condition = size_of_nodes(nodes_in(&own.condition));
    condition.saturating_add(size_of_actions(own.actions.as_slice()))
}

// The size of what an action holds that holds others.
#[tactic(auto, using(crate::proofs::StatementLemmas::bracketed_views))]
#[cycle(statement)]
fn size_in_bracketed(action: &Bracketed) -> u32
    ensures { result ≡ capped (sizes.bracketed_size (bracketed_tree action.now)) }
{
    size_before_else(action).saturating_add(size_of_else(action))
}

// The size of what stands before the ELSE.
#[tactic(auto, using(crate::proofs::StatementLemmas::statement_views))]
#[cycle(statement)]
fn size_before_else(action: &Bracketed) -> u32
    ensures { result ≡ capped (sizes.size_before_else (bracketed_tree action.now)) }
{
    match action {
        Bracketed::If {
            condition,
            actions,
            branches,
            ..
        } => size_of_nodes(nodes_in(condition))
            .saturating_add(size_of_actions(actions.as_slice()))
            .saturating_add(size_of_branches(branches.as_slice())),
        Bracketed::Case {
            selector,
            alternatives,
            ..
        } => size_of_nodes(nodes_in(selector)).saturating_add(size_of_choices(
            alternatives.as_slice(),
        )),
        Bracketed::Do {
            control,
            actions,
            ..
        } => size_of_nodes(nodes_in_control(control)).saturating_add(size_of_actions(
            actions.as_slice(),
        )),
        Bracketed::Begin { body, .. } => size_of_body(body.as_slice()),
        Bracketed::DelayCase {
            set,
            priority,
            alternatives,
            ..
        } => {
            let count = nodes_in_some(set).saturating_add(nodes_in_some(priority));
            size_of_nodes(count).saturating_add(size_of_alternatives(alternatives.as_slice()))
        }
        Bracketed::ReceiveCase {
            set,
            alternatives,
            ..
        } => size_of_nodes(nodes_in_some(set)).saturating_add(size_of_receiving(
            alternatives.as_slice(),
        )),
    }
}

// The size of an ELSE.
#[tactic(auto, using(crate::proofs::StatementLemmas::statement_views))]
#[cycle(statement)]
fn size_of_else(action: &Bracketed) -> u32
    ensures { result ≡ capped (sizes.else_size (bracketed_tree action.now)) }
{
    match action {
        Bracketed::If { otherwise, .. }
        | Bracketed::Case { otherwise, .. }
        | Bracketed::ReceiveCase { otherwise, .. } => match otherwise {
            None => 0,
            Some(actions) => size_of_actions(actions.as_slice()),
        },
        Bracketed::Do { .. } | Bracketed::Begin { .. } | Bracketed::DelayCase { .. } => 0,
    }
}
