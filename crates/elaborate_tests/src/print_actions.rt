// Actions of an elaborated program that hold no others, as texts.
use crate::page::Page;
use crate::print_operators::{put_binary, put_routine};
use crate::print_values::{
    put_all_received, put_base, put_call, put_expr, put_location, put_received, put_scalars,
    put_start,
};
use checked_program::{Action, Base, Expr, Location, Received, Sent};
use chill_base::Memory;

/// Puts an action that holds no others.
pub fn put_plain(page: &mut Page, own: &Action) -> Result<(), Memory> {
    match own {
        Action::Nothing => page.put("nothing"),
        Action::Declare { .. } | Action::Lowest { .. } => put_declaration(page, own),
        Action::Assign { .. } | Action::Update { .. } => put_assignment(page, own),
        Action::Call(call) => put_call(page, call),
        Action::Routine { routine, argument } => {
            page.put("drop ")?;
            put_routine(page, *routine)?;
            put_behind(page, "(", argument)?;
            page.put(")")
        }
        Action::Evaluate(value) => put_behind(page, "drop ", value),
        Action::PutInt(value) => put_behind(page, "PUT_INT ", value),
        Action::PutText(value) => put_behind(page, "PUT_TEXT ", value),
        Action::PutLine => page.put("PUT_NL"),
        Action::Exit { outwards } => page.put_with("exit ", *outwards),
        Action::Return { value: None } => page.put("return"),
        Action::Return { value: Some(value) } => put_taken(page, "return ", value),
        Action::Result { value } => put_taken(page, "result ", value),
        Action::Assert(condition) => put_behind(page, "assert ", condition),
        Action::Cause { exception } => page.put_with("cause ", *exception),
        Action::Stop => page.put("stop"),
        Action::Start(start) => put_start(page, start),
        Action::Delay { event, priority } => {
            page.put_with("delay ", *event)?;
            page.put_with(" priority ", *priority)
        }
        Action::Continue { event } => page.put_with("continue ", *event),
        Action::Send { sent, priority } => {
            put_sent(page, sent)?;
            page.put_with(" priority ", *priority)
        }
        _ => page.put("an action that holds others"),
    }
}

fn put_behind(page: &mut Page, word: &str, own: &Expr) -> Result<(), Memory> {
    page.put(word)?;
    put_expr(page, own)
}

fn put_taken(page: &mut Page, word: &str, own: &Received) -> Result<(), Memory> {
    page.put(word)?;
    put_received(page, own)
}

fn put_declaration(page: &mut Page, own: &Action) -> Result<(), Memory> {
    match own {
        Action::Declare { names, value } => {
            page.put("declare ")?;
            put_bases(page, names.as_slice())?;
            put_taken(page, " := ", value)
        }
        Action::Lowest { locals, value } => {
            page.put("lowest local ")?;
            page.put_numbers(locals.as_slice())?;
            page.put(" := ")?;
            put_scalars(page, value.as_slice())
        }
        _ => Ok(()),
    }
}

fn put_bases(page: &mut Page, names: &[Base]) -> Result<(), Memory> {
    for (place, name) in names.iter().enumerate() {
        if place > 0 {
            page.put(", ")?;
        }
        put_base(page, *name)?;
    }
    Ok(())
}

fn put_assignment(page: &mut Page, own: &Action) -> Result<(), Memory> {
    match own {
        Action::Assign { target, value } => {
            put_location(page, target)?;
            put_taken(page, " := ", value)
        }
        Action::Update {
            target,
            operator,
            value,
            bounds,
        } => {
            put_location(page, target)?;
            page.put(" ")?;
            put_binary(page, *operator)?;
            put_behind(page, " := ", value)?;
            page.put_some_bounds(" in ", *bounds)
        }
        _ => Ok(()),
    }
}

fn put_sent(page: &mut Page, own: &Sent) -> Result<(), Memory> {
    match own {
        Sent::ToBuffer { buffer, value } => {
            page.put_with("send to buffer ", *buffer)?;
            put_taken(page, " (", value)?;
            page.put(")")
        }
        Sent::Signal {
            signal,
            parts,
            receiver,
        } => {
            page.put_with("send signal ", *signal)?;
            page.put(" (")?;
            put_all_received(page, parts.as_slice())?;
            page.put(")")?;
            match receiver {
                None => Ok(()),
                Some(receiver) => put_behind(page, " to ", receiver),
            }
        }
    }
}

/// Puts the location behind SET, where there is one.
pub fn put_set(page: &mut Page, set: &Option<Box<Location>>) -> Result<(), Memory> {
    match set {
        None => Ok(()),
        Some(location) => {
            page.put(" set ")?;
            put_location(page, location)
        }
    }
}
