// Statements, actions and handlers of an elaborated program as texts.
//
// Statements stand in brackets, with semicolons between them. What an action holds stands behind it, and the handler of
// a statement behind `on`.
use crate::page::Page;
use crate::print_actions::{put_plain, put_set};
use crate::print_controls::put_control;
use crate::print_values::put_expr;
use checked_program::{
    Action, Body, CaseAlternative, Choice, DelayAlternative, Handler, ReceiveAlternative, Statement,
};
use chill_base::Memory;

/// Puts what a body does: its statements and its handler.
pub fn put_body(page: &mut Page, body: &Body) -> Result<(), Memory> {
    put_statements(page, body.statements.as_slice())?;
    match &body.handler {
        None => Ok(()),
        Some(handler) => put_handler(page, handler),
    }
}

#[cycle(statement)]
fn put_statements(page: &mut Page, all: &[Statement]) -> Result<(), Memory> {
    page.put("[")?;
    for (place, own) in all.iter().enumerate() {
        if place > 0 {
            page.put("; ")?;
        }
        put_statement(page, own)?;
    }
    page.put("]")
}

#[cycle(statement)]
fn put_statement(page: &mut Page, own: &Statement) -> Result<(), Memory> {
    page.put_if("labelled ", own.labelled)?;
    put_action(page, &own.action)?;
    match &own.handler {
        None => Ok(()),
        Some(handler) => put_handler(page, handler),
    }
}

#[cycle(statement)]
fn put_handler(page: &mut Page, own: &Handler) -> Result<(), Memory> {
    page.put(" on")?;
    for alternative in own.alternatives.as_slice() {
        page.put(" (")?;
        page.put_numbers(alternative.exceptions.as_slice())?;
        page.put(") ")?;
        put_statements(page, alternative.actions.as_slice())?;
    }
    match &own.otherwise {
        None => Ok(()),
        Some(actions) => put_otherwise(page, actions.as_slice()),
    }
}

#[cycle(statement)]
fn put_otherwise(page: &mut Page, actions: &[Statement]) -> Result<(), Memory> {
    page.put(" else ")?;
    put_statements(page, actions)
}

#[cycle(statement)]
fn put_action(page: &mut Page, own: &Action) -> Result<(), Memory> {
    match own {
        Action::Module { actions } => {
            page.put("module ")?;
            put_statements(page, actions.as_slice())
        }
        Action::Region { region, actions } => {
            page.put_with("region ", *region)?;
            page.put(" ")?;
            put_statements(page, actions.as_slice())
        }
        Action::Begin { actions } => {
            page.put("begin ")?;
            put_statements(page, actions.as_slice())
        }
        Action::Do { control, actions } => {
            put_control(page, control)?;
            page.put(" ")?;
            put_statements(page, actions.as_slice())
        }
        Action::If { .. } => put_if(page, own),
        Action::Case { .. } => put_case(page, own),
        Action::DelayCase { .. } => put_delay_case(page, own),
        Action::ReceiveBuffers { .. } | Action::ReceiveSignals { .. } => {
            put_receive_case(page, own)
        }
        _ => put_plain(page, own),
    }
}

#[cycle(statement)]
fn put_if(page: &mut Page, own: &Action) -> Result<(), Memory> {
    let Action::If { choices, otherwise } = own else {
        return Ok(());
    };
    for choice in choices.as_slice() {
        put_choice(page, choice)?;
    }
    page.put("else ")?;
    put_statements(page, otherwise.as_slice())
}

#[cycle(statement)]
fn put_choice(page: &mut Page, own: &Choice) -> Result<(), Memory> {
    page.put("if ")?;
    put_expr(page, &own.condition)?;
    page.put(" ")?;
    put_statements(page, own.actions.as_slice())?;
    page.put(" ")
}

#[cycle(statement)]
fn put_case(page: &mut Page, own: &Action) -> Result<(), Memory> {
    let Action::Case {
        selector,
        alternatives,
        otherwise,
    } = own
    else {
        return Ok(());
    };
    page.put("case ")?;
    put_expr(page, selector)?;
    for alternative in alternatives.as_slice() {
        put_case_alternative(page, alternative)?;
    }
    match otherwise {
        None => Ok(()),
        Some(actions) => put_otherwise(page, actions.as_slice()),
    }
}

#[cycle(statement)]
fn put_case_alternative(page: &mut Page, own: &CaseAlternative) -> Result<(), Memory> {
    page.put(" (")?;
    for (place, label) in own.labels.as_slice().iter().enumerate() {
        if place > 0 {
            page.put(", ")?;
        }
        page.put_bounds(*label)?;
    }
    page.put(") ")?;
    put_statements(page, own.actions.as_slice())
}

#[cycle(statement)]
fn put_delay_case(page: &mut Page, own: &Action) -> Result<(), Memory> {
    let Action::DelayCase {
        set,
        priority,
        alternatives,
    } = own
    else {
        return Ok(());
    };
    page.put_with("delay case priority ", *priority)?;
    put_set(page, set)?;
    for alternative in alternatives.as_slice() {
        put_delay_alternative(page, alternative)?;
    }
    Ok(())
}

#[cycle(statement)]
fn put_delay_alternative(page: &mut Page, own: &DelayAlternative) -> Result<(), Memory> {
    page.put(" (")?;
    page.put_numbers(own.events.as_slice())?;
    page.put(") ")?;
    put_statements(page, own.actions.as_slice())
}

#[cycle(statement)]
fn put_receive_case(page: &mut Page, own: &Action) -> Result<(), Memory> {
    match own {
        Action::ReceiveBuffers {
            set,
            alternatives,
            otherwise,
        } => {
            page.put("receive buffers")?;
            put_set(page, set)?;
            put_receive_alternatives(page, alternatives.as_slice())?;
            match otherwise {
                None => Ok(()),
                Some(actions) => put_otherwise(page, actions.as_slice()),
            }
        }
        Action::ReceiveSignals {
            set,
            alternatives,
            otherwise,
        } => {
            page.put("receive signals")?;
            put_set(page, set)?;
            put_receive_alternatives(page, alternatives.as_slice())?;
            match otherwise {
                None => Ok(()),
                Some(actions) => put_otherwise(page, actions.as_slice()),
            }
        }
        _ => Ok(()),
    }
}

// Puts alternatives: what comes from, the locals that get it, and the actions.
#[cycle(statement)]
fn put_receive_alternatives(page: &mut Page, all: &[ReceiveAlternative]) -> Result<(), Memory> {
    for own in all {
        page.put_with(" ", own.source)?;
        page.put(" (")?;
        page.put_numbers(own.received.as_slice())?;
        page.put(") ")?;
        put_statements(page, own.actions.as_slice())?;
    }
    Ok(())
}
