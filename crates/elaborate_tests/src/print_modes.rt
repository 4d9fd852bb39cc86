// Modes and classes as texts.
//
// A mode is written as in a program, but that its names are numbers: a SET by the definition of its first element and how
// many it has, as `SET 2 of 3`, and a named mode by its own definition, as `NEWMODE 1 (INT)`.
use crate::page::Page;
use chill_base::{Bits, Memory};
use modes::{Class, Field, Mode, Spread};

/// Puts a class: `V` and the mode of a value of it, `D` and the mode that it is derived of.
pub fn put_class(page: &mut Page, class: &Class) -> Result<(), Memory> {
    match class {
        Class::Value(mode) => {
            page.put("V ")?;
            put_mode(page, mode)
        }
        Class::Derived(mode) => {
            page.put("D ")?;
            put_mode(page, mode)
        }
        Class::Null => page.put("NULL"),
        Class::Nothing => page.put("nothing"),
    }
}

/// Puts a mode.
#[cycle(mode)]
pub fn put_mode(page: &mut Page, mode: &Mode) -> Result<(), Memory> {
    match mode {
        Mode::Int => page.put("INT"),
        Mode::Bool => page.put("BOOL"),
        Mode::Char => page.put("CHAR"),
        Mode::Instance => page.put("INSTANCE"),
        Mode::Set { definition, count } => {
            page.put_with("SET ", *definition)?;
            page.put_with(" of ", *count)
        }
        Mode::Range { parent, low, high } => {
            put_mode(page, parent)?;
            put_range(page, *low, *high)
        }
        Mode::Powerset { member } => put_behind(page, "POWERSET ", member),
        Mode::Chars { length } => {
            page.put_with("CHARS(", *length)?;
            page.put(")")
        }
        Mode::Array { .. } => put_array(page, mode),
        Mode::Struct { fields, packed } => {
            put_fields(page, fields.as_slice())?;
            page.put_if(" PACK", *packed)
        }
        Mode::Event { length } => page.put_some("EVENT ", *length),
        Mode::Buffer { length, element } => {
            page.put_some("BUFFER ", *length)?;
            put_behind(page, " of ", element)
        }
        Mode::Read { of } => put_behind(page, "READ ", of),
        Mode::Named { .. } => put_named(page, mode),
    }
}

// Puts a mode behind a word.
#[cycle(mode)]
fn put_behind(page: &mut Page, word: &str, mode: &Mode) -> Result<(), Memory> {
    page.put(word)?;
    put_mode(page, mode)
}

fn put_range(page: &mut Page, low: i64, high: i64) -> Result<(), Memory> {
    page.put("(")?;
    page.put_number(low)?;
    page.put(":")?;
    page.put_number(high)?;
    page.put(")")
}

#[cycle(mode)]
fn put_array(page: &mut Page, mode: &Mode) -> Result<(), Memory> {
    let Mode::Array {
        index,
        element,
        how,
    } = mode
    else {
        return Ok(());
    };
    put_behind(page, "ARRAY(", index)?;
    put_behind(page, ") ", element)?;
    match how {
        Spread::Words => Ok(()),
        Spread::Packed => page.put(" PACK"),
        Spread::Step { at, step } => {
            put_place(page, " STEP(POS", *at)?;
            page.put_with(", ", *step)?;
            page.put(")")
        }
    }
}

#[cycle(mode)]
fn put_named(page: &mut Page, mode: &Mode) -> Result<(), Memory> {
    let Mode::Named {
        definition,
        novel,
        of,
    } = mode
    else {
        return Ok(());
    };
    if *novel {
        page.put_with("NEWMODE ", *definition)?;
    } else {
        page.put_with("SYNMODE ", *definition)?;
    }
    put_behind(page, " (", of)?;
    page.put(")")
}

#[cycle(mode)]
fn put_fields(page: &mut Page, fields: &[Field]) -> Result<(), Memory> {
    page.put("STRUCT(")?;
    for (place, field) in fields.iter().enumerate() {
        if place > 0 {
            page.put(", ")?;
        }
        put_field(page, field)?;
    }
    page.put(")")
}

#[cycle(mode)]
fn put_field(page: &mut Page, field: &Field) -> Result<(), Memory> {
    page.put_name(field.name.as_slice())?;
    put_behind(page, " ", &field.mode)?;
    match field.at {
        None => Ok(()),
        Some(at) => put_place(page, " POS", at),
    }
}

fn put_place(page: &mut Page, word: &str, at: Bits) -> Result<(), Memory> {
    page.put(word)?;
    page.put_with("(", at.word)?;
    page.put_with(", ", at.start)?;
    page.put_with(":", at.end)?;
    page.put(")")
}
