// Whether the numbers in statements are in range.
ghost use Rattle.std.specs.Prelude.{◌≡◌, map, option_map};
ghost use Rattle.program_ranges.specs.ExprRanges.{expr_ranges, location_ranges};
ghost use Rattle.program_ranges.specs.StatementRanges.{update_in_range, labels_inside, statements_hold, all_within, some_within, all_receive, action_ranges, case_in_range, choice_in_range, delay_in_range, receive_in_range, handled_in_range, handler_in_range, statement_in_range};

use crate::actions::{
    all_below, all_exceptions, are_locals, control_in_range, is_result, is_set, names_fit,
    some_result,
};
use crate::around::is_exception;
use crate::exprs::{
    call_in_range, expr_count, expr_in_range, is_number, location_count, location_in_range,
    operands_fit, received_count, received_in_range, start_in_range,
};
use crate::messages::{Source, locals_follow, parts_received, sent_in_range};
use checked_program::{
    Action, Binary, Body, CaseAlternative, Checked, Choice, DelayAlternative, Expr, Handler,
    HandlerAlternative, Location, ReceiveAlternative, Statement,
};

/// Whether the numbers in statements are in range, within so many labelled statements. Modules and regions stand among
/// items alone.
#[cycle(statement)]
pub(crate) fn statements_hold(
    statements: &[Statement],
    items: bool,
    labels: u32,
    program: &Checked,
    body: &Body,
) -> bool
    ensures { result ≡ statements_hold items (map statement_in_range statements.now) labels program.now body.now }
{
    for statement in statements {
        if !statement_in_range(statement, items, labels, program, body) {
            return false;
        }
    }
    true
}

// Whether the numbers in a statement are in range.
#[tactic(auto, using(crate::proofs::StatementViews::statement_built))]
#[cycle(statement)]
fn statement_in_range(
    statement: &Statement,
    items: bool,
    labels: u32,
    program: &Checked,
    body: &Body,
) -> bool
    ensures { result ≡ statement_in_range statement.now items labels program.now body.now }
{
    let inside = labels_inside(is_modulion(&statement.action), statement.labelled, labels);
    action_in_range(&statement.action, items, inside, program, body)
        && some_handler(&statement.handler, inside, program, body)
}

// How many labelled statements are around what a statement holds, held at 4,294,967,295. The name of a modulion is no
// label.
fn labels_inside(is_modulion: bool, labelled: bool, labels: u32) -> u32
    ensures { result ≡ labels_inside is_modulion labelled labels }
{
    if !is_modulion && labelled {
        labels.saturating_add(1)
    } else {
        labels
    }
}

// Whether an action is a module or a region.
#[tactic(auto, using(crate::proofs::StatementViews::modulion_built))]
fn is_modulion(action: &Action) -> bool
    ensures { result ≡ (action_ranges action.now).is_modulion }
{
    match action {
        Action::Module { .. } | Action::Region { .. } => true,
        Action::Nothing
        | Action::Declare { .. }
        | Action::Lowest { .. }
        | Action::Assign { .. }
        | Action::Update { .. }
        | Action::Call(_)
        | Action::Routine { .. }
        | Action::Evaluate(_)
        | Action::PutInt(_)
        | Action::PutText(_)
        | Action::PutLine
        | Action::Exit { .. }
        | Action::Return { .. }
        | Action::Result { .. }
        | Action::Assert(_)
        | Action::Cause { .. }
        | Action::Stop
        | Action::Start(_)
        | Action::Delay { .. }
        | Action::Continue { .. }
        | Action::Send { .. }
        | Action::If { .. }
        | Action::Case { .. }
        | Action::Do { .. }
        | Action::Begin { .. }
        | Action::DelayCase { .. }
        | Action::ReceiveBuffers { .. }
        | Action::ReceiveSignals { .. } => false,
    }
}

// Whether the numbers in an action are in range.
#[tactic(auto, using(crate::proofs::StatementViews::statement_built))]
#[cycle(statement)]
fn action_in_range(
    action: &Action,
    items: bool,
    labels: u32,
    program: &Checked,
    body: &Body,
) -> bool
    ensures { result ≡ (action_ranges action.now).holds items labels program.now body.now }
{
    match action {
        Action::Nothing | Action::PutLine | Action::Stop => true,
        Action::Declare { names, value } => {
            received_in_range(value, program, body)
                && names_fit(names.as_slice(), received_count(value), program, body)
        }
        Action::Lowest { locals, value } => are_locals(locals.as_slice(), value.len(), body),
        Action::Module { actions } => {
            items && statements_hold(actions.as_slice(), true, labels, program, body)
        }
        Action::Region { region, actions } => {
            items
                && (*region < program.regions
                    && statements_hold(actions.as_slice(), false, labels, program, body))
        }
        Action::Assign { target, value } => {
            location_in_range(target, program, body)
                && (received_in_range(value, program, body)
                    && location_count(target) == received_count(value))
        }
        Action::Update {
            target,
            operator,
            value,
            ..
        } => update_in_range(target, *operator, value, program, body),
        Action::Call(call) => call_in_range(call, program, body),
        Action::Routine { argument, .. } => is_number(argument, program, body),
        Action::Evaluate(value) | Action::PutText(value) => expr_in_range(value, program, body),
        Action::PutInt(value) | Action::Assert(value) => is_number(value, program, body),
        Action::Exit { outwards } => *outwards < labels,
        Action::Return { value } => some_result(value, program, body),
        Action::Result { value } => is_result(value, program, body),
        Action::Cause { exception } => is_exception(*exception, program),
        Action::Start(start) => start_in_range(start, program, body),
        Action::Delay { event, .. } | Action::Continue { event } => (*event as usize)
            < program.events.len(),
        Action::Send { sent, .. } => sent_in_range(sent, program, body),
        Action::If { choices, otherwise } => {
            choices_in_range(choices.as_slice(), labels, program, body)
                && statements_hold(otherwise.as_slice(), false, labels, program, body)
        }
        Action::Case {
            selector,
            alternatives,
            otherwise,
        } => {
            is_number(selector, program, body)
                && (cases_in_range(alternatives.as_slice(), labels, program, body)
                    && match otherwise {
                        Some(actions) => statements_hold(
                            actions.as_slice(),
                            false,
                            labels,
                            program,
                            body,
                        ),
                        None => true,
                    })
        }
        Action::Do { control, actions } => {
            control_in_range(control, program, body)
                && statements_hold(actions.as_slice(), false, labels, program, body)
        }
        Action::Begin { actions } => statements_hold(
            actions.as_slice(),
            false,
            labels,
            program,
            body,
        ),
        Action::DelayCase {
            set,
            alternatives,
            ..
        } => {
            is_set(set, program, body)
                && delays_in_range(alternatives.as_slice(), labels, program, body)
        }
        Action::ReceiveBuffers {
            set,
            alternatives,
            otherwise,
        } => {
            is_set(set, program, body)
                && (all_receive(
                    Source::Buffers,
                    alternatives.as_slice(),
                    labels,
                    program,
                    body,
                ) && match otherwise {
                    Some(actions) => statements_hold(
                        actions.as_slice(),
                        false,
                        labels,
                        program,
                        body,
                    ),
                    None => true,
                })
        }
        Action::ReceiveSignals {
            set,
            alternatives,
            otherwise,
        } => {
            is_set(set, program, body)
                && (all_receive(
                    Source::Signals,
                    alternatives.as_slice(),
                    labels,
                    program,
                    body,
                ) && match otherwise {
                    Some(actions) => statements_hold(
                        actions.as_slice(),
                        false,
                        labels,
                        program,
                        body,
                    ),
                    None => true,
                })
        }
    }
}

// Whether the numbers in an assignment with an operator are in range.
fn update_in_range(
    target: &Location,
    operator: Binary,
    value: &Expr,
    program: &Checked,
    body: &Body,
) -> bool
    ensures { result ≡ update_in_range (location_ranges target.now) operator (expr_ranges value.now) program.now body.now }
{
    location_in_range(target, program, body)
        && (expr_in_range(value, program, body)
            && (operands_fit(operator, location_count(target), expr_count(value))
                && location_count(target) == 1))
}

// Whether the numbers in the choices of an IF are in range.
#[cycle(statement)]
fn choices_in_range(choices: &[Choice], labels: u32, program: &Checked, body: &Body) -> bool
    ensures { result ≡ all_within (map choice_in_range choices.now) labels program.now body.now }
{
    for choice in choices {
        if !choice_in_range(choice, labels, program, body) {
            return false;
        }
    }
    true
}

#[tactic(auto, using(crate::proofs::StatementViews::statement_built))]
#[cycle(statement)]
fn choice_in_range(choice: &Choice, labels: u32, program: &Checked, body: &Body) -> bool
    ensures { result ≡ choice_in_range choice.now labels program.now body.now }
{
    is_number(&choice.condition, program, body)
        && statements_hold(choice.actions.as_slice(), false, labels, program, body)
}

// Whether the numbers in the alternatives of a CASE are in range.
#[cycle(statement)]
fn cases_in_range(
    alternatives: &[CaseAlternative],
    labels: u32,
    program: &Checked,
    body: &Body,
) -> bool
    ensures { result ≡ all_within (map case_in_range alternatives.now) labels program.now body.now }
{
    for alternative in alternatives {
        if !case_in_range(alternative, labels, program, body) {
            return false;
        }
    }
    true
}

#[tactic(auto, using(crate::proofs::StatementViews::statement_built))]
#[cycle(statement)]
fn case_in_range(alternative: &CaseAlternative, labels: u32, program: &Checked, body: &Body) -> bool
    ensures { result ≡ case_in_range alternative.now labels program.now body.now }
{
    statements_hold(alternative.actions.as_slice(), false, labels, program, body)
}

// Whether the numbers in the alternatives of a DELAY CASE are in range.
#[cycle(statement)]
fn delays_in_range(
    alternatives: &[DelayAlternative],
    labels: u32,
    program: &Checked,
    body: &Body,
) -> bool
    ensures { result ≡ all_within (map delay_in_range alternatives.now) labels program.now body.now }
{
    for alternative in alternatives {
        if !delay_in_range(alternative, labels, program, body) {
            return false;
        }
    }
    true
}

#[tactic(auto, using(crate::proofs::StatementViews::statement_built))]
#[cycle(statement)]
fn delay_in_range(
    alternative: &DelayAlternative,
    labels: u32,
    program: &Checked,
    body: &Body,
) -> bool
    ensures { result ≡ delay_in_range alternative.now labels program.now body.now }
{
    all_below(program.events.len(), alternative.events.as_slice())
        && statements_hold(alternative.actions.as_slice(), false, labels, program, body)
}

// Whether the numbers in the alternatives of a RECEIVE CASE are in range.
#[cycle(statement)]
fn all_receive(
    source: Source,
    alternatives: &[ReceiveAlternative],
    labels: u32,
    program: &Checked,
    body: &Body,
) -> bool
    ensures { result ≡ all_receive source (map receive_in_range alternatives.now) labels program.now body.now }
{
    for alternative in alternatives {
        if !receive_in_range(alternative, source, labels, program, body) {
            return false;
        }
    }
    true
}

#[tactic(auto, using(crate::proofs::StatementViews::statement_built))]
#[cycle(statement)]
fn receive_in_range(
    alternative: &ReceiveAlternative,
    source: Source,
    labels: u32,
    program: &Checked,
    body: &Body,
) -> bool
    ensures { result ≡ receive_in_range alternative.now source labels program.now body.now }
{
    let received = alternative.received.as_slice();
    parts_received(source, alternative.source, received, program, body)
        && (locals_follow(received, body)
            && statements_hold(alternative.actions.as_slice(), false, labels, program, body))
}

/// Whether the numbers in a handler that may be written are in range.
#[cycle(statement)]
pub(crate) fn some_handler(
    handler: &Option<Box<Handler>>,
    labels: u32,
    program: &Checked,
    body: &Body,
) -> bool
    ensures { result ≡ some_within (option_map (λ h. handler_in_range h.value) handler.now) labels program.now body.now }
{
    match handler {
        Some(handler) => handler_in_range(handler, labels, program, body),
        None => true,
    }
}

#[tactic(auto, using(crate::proofs::StatementViews::statement_built))]
#[cycle(statement)]
fn handler_in_range(handler: &Handler, labels: u32, program: &Checked, body: &Body) -> bool
    ensures { result ≡ handler_in_range handler.now labels program.now body.now }
{
    all_handled(handler.alternatives.as_slice(), labels, program, body)
        && match &handler.otherwise {
            Some(actions) => statements_hold(actions.as_slice(), false, labels, program, body),
            None => true,
        }
}

// Whether the numbers in the alternatives of a handler are in range.
#[cycle(statement)]
fn all_handled(
    alternatives: &[HandlerAlternative],
    labels: u32,
    program: &Checked,
    body: &Body,
) -> bool
    ensures { result ≡ all_within (map handled_in_range alternatives.now) labels program.now body.now }
{
    for alternative in alternatives {
        if !handled_in_range(alternative, labels, program, body) {
            return false;
        }
    }
    true
}

#[tactic(auto, using(crate::proofs::StatementViews::statement_built))]
#[cycle(statement)]
fn handled_in_range(
    alternative: &HandlerAlternative,
    labels: u32,
    program: &Checked,
    body: &Body,
) -> bool
    ensures { result ≡ handled_in_range alternative.now labels program.now body.now }
{
    all_exceptions(alternative.exceptions.as_slice(), program)
        && statements_hold(alternative.actions.as_slice(), false, labels, program, body)
}
