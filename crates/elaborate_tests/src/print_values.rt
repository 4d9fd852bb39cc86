// Values and locations of an elaborated program as texts.
//
// A value is written as what finds it, a colon, the number of its scalars where that isn't one, and its class. So
// `add(shared 0:V INT, 3:D INT):V INT` is the sum of the contents of shared location 0 and of the constant 3, all of
// INT. What takes a value tells the bounds that it asks behind `in`.
use crate::page::Page;
use crate::print_modes::put_class;
use crate::print_operators::{put_binary, put_prefix, put_routine};
use checked_program::{
    Argument, Base, Call, Expr, Location, Operation, Part, Range, Received, Start,
};
use chill_base::Memory;
use modes::Bounds;

/// Puts a value.
#[cycle(value)]
pub fn put_expr(page: &mut Page, own: &Expr) -> Result<(), Memory> {
    put_operation(page, &own.operation)?;
    page.put(":")?;
    if own.count != 1 {
        page.put_number(i64::from(own.count))?;
        page.put(" ")?;
    }
    put_class(page, &own.class)
}

#[cycle(value)]
fn put_operation(page: &mut Page, own: &Operation) -> Result<(), Memory> {
    match own {
        Operation::Constant(scalars) => put_scalars(page, scalars.as_slice()),
        Operation::This => page.put("THIS"),
        Operation::Contents(location) => put_location(page, location),
        Operation::PartOf { of, parts } => {
            put_bracketed(page, of)?;
            put_parts(page, parts.as_slice())
        }
        Operation::Receive { buffer } => page.put_with("RECEIVE ", *buffer),
        Operation::Start(start) => put_start(page, start),
        Operation::Call(call) => put_call(page, call),
        Operation::Powerset { bounds, members } => {
            put_members(page, *bounds, members.as_slice())
        }
        Operation::Parts(parts) => {
            page.put("[")?;
            put_all_received(page, parts.as_slice())?;
            page.put("]")
        }
        Operation::Uniform { elements, value } => {
            page.put_with("[", *elements)?;
            page.put(" times ")?;
            put_received(page, value)?;
            page.put("]")
        }
        Operation::Routine { routine, argument } => {
            put_routine(page, *routine)?;
            put_bracketed(page, argument)
        }
        Operation::GetInt => page.put("GET_INT"),
        Operation::Prefixed { operator, operand } => {
            put_prefix(page, *operator)?;
            put_bracketed(page, operand)
        }
        Operation::Binary {
            operator,
            left,
            right,
        } => {
            put_binary(page, *operator)?;
            page.put("(")?;
            put_expr(page, left)?;
            page.put(", ")?;
            put_expr(page, right)?;
            page.put(")")
        }
    }
}

#[cycle(value)]
fn put_bracketed(page: &mut Page, own: &Expr) -> Result<(), Memory> {
    page.put("(")?;
    put_expr(page, own)?;
    page.put(")")
}

/// Puts scalars: one alone, others in brackets.
pub fn put_scalars(page: &mut Page, scalars: &[i64]) -> Result<(), Memory> {
    if let [scalar] = scalars {
        return page.put_number(*scalar);
    }
    page.put("(")?;
    for (place, scalar) in scalars.iter().enumerate() {
        if place > 0 {
            page.put(" ")?;
        }
        page.put_number(*scalar)?;
    }
    page.put(")")
}

// Puts a powerset's tuple, with the bounds of its member mode.
#[cycle(value)]
fn put_members(page: &mut Page, bounds: Bounds, members: &[Range]) -> Result<(), Memory> {
    page.put("members ")?;
    page.put_bounds(bounds)?;
    page.put(" [")?;
    for (place, member) in members.iter().enumerate() {
        if place > 0 {
            page.put(", ")?;
        }
        put_expr(page, &member.first)?;
        if let Some(last) = &member.last {
            page.put(" to ")?;
            put_expr(page, last)?;
        }
    }
    page.put("]")
}

/// Puts a value that something takes.
#[cycle(value)]
pub fn put_received(page: &mut Page, own: &Received) -> Result<(), Memory> {
    put_expr(page, &own.value)?;
    page.put_some_bounds(" in ", own.bounds)
}

/// Puts values that something takes.
#[cycle(value)]
pub fn put_all_received(page: &mut Page, all: &[Received]) -> Result<(), Memory> {
    for (place, own) in all.iter().enumerate() {
        if place > 0 {
            page.put(", ")?;
        }
        put_received(page, own)?;
    }
    Ok(())
}

/// Puts a START.
#[cycle(value)]
pub fn put_start(page: &mut Page, own: &Start) -> Result<(), Memory> {
    page.put_with("START ", own.process)?;
    page.put("(")?;
    put_all_received(page, own.arguments.as_slice())?;
    page.put(")")
}

/// Puts a call.
#[cycle(value)]
pub fn put_call(page: &mut Page, own: &Call) -> Result<(), Memory> {
    page.put_with("call ", own.body)?;
    page.put("(")?;
    for (place, argument) in own.arguments.as_slice().iter().enumerate() {
        if place > 0 {
            page.put(", ")?;
        }
        put_argument(page, argument)?;
    }
    page.put(")")
}

#[cycle(value)]
fn put_argument(page: &mut Page, own: &Argument) -> Result<(), Memory> {
    match own {
        Argument::In(value) => put_received(page, value),
        Argument::Out { target, bounds } => {
            page.put("out ")?;
            put_location(page, target)?;
            page.put_some_bounds(" in ", *bounds)
        }
        Argument::InOut {
            target,
            taken,
            bounds,
        } => {
            page.put("inout ")?;
            put_location(page, target)?;
            page.put_some_bounds(" taken in ", *taken)?;
            page.put_some_bounds(" in ", *bounds)
        }
    }
}

/// Puts a location, with the number of its scalars where that isn't one.
#[cycle(value)]
pub fn put_location(page: &mut Page, own: &Location) -> Result<(), Memory> {
    put_base(page, own.base)?;
    put_parts(page, own.parts.as_slice())?;
    page.put_count(" of ", own.count)
}

/// Puts a location that is declared.
pub fn put_base(page: &mut Page, base: Base) -> Result<(), Memory> {
    match base {
        Base::Shared(number) => page.put_with("shared ", number),
        Base::Local(number) => page.put_with("local ", number),
    }
}

// Puts parts: a field by its first scalar, an element by its index with the bounds of that. The number of scalars
// stands behind `of` where it isn't one.
#[cycle(value)]
fn put_parts(page: &mut Page, parts: &[Part]) -> Result<(), Memory> {
    for part in parts {
        match part {
            Part::Field { first, count } => {
                page.put_with(".", *first)?;
                page.put_count("of", *count)?;
            }
            Part::Element {
                index,
                bounds,
                count,
            } => {
                page.put("(")?;
                put_expr(page, index)?;
                page.put(" in ")?;
                page.put_bounds(*bounds)?;
                page.put(")")?;
                page.put_count("of", *count)?;
            }
        }
    }
    Ok(())
}
