// Programs with names alone, and with locations.
use checked_program::{Body, Checked, LocationRow, Sort};
use chill_base::{List, Memory, Text};
use modes::Mode;
use std::alloc::{AllocError, Global};
use std::rc::Rc;

/// The bytes of a literal.
pub fn text_of(alloc: Global, text: &str) -> Result<Text, AllocError> {
    Ok(Text::from_vec(text.as_bytes().to_vec(alloc)?))
}

/// A program of these processes, the outermost one first, and these exceptions of its own.
pub fn named_program(
    alloc: Global,
    processes: &[&str],
    exceptions: &[&str],
) -> Result<Checked, Memory> {
    let mut program = empty_program(alloc);
    for name in processes {
        let name = text_of(alloc, name)?;
        program.bodies.push(body_of(alloc, name))?;
    }
    for name in exceptions {
        program.exceptions.push(text_of(alloc, name)?)?;
    }
    Ok(program)
}

/// A program of one location.
pub fn program_with(alloc: Global, name: &str, mode: Rc<Mode>) -> Result<Checked, Memory> {
    let mut program = empty_program(alloc);
    add_location(alloc, &mut program, name, mode)?;
    Ok(program)
}

/// Puts one location more behind those that are there.
pub fn add_location(
    alloc: Global,
    program: &mut Checked,
    name: &str,
    mode: Rc<Mode>,
) -> Result<(), Memory> {
    let name = text_of(alloc, name)?;
    program.locations.push(LocationRow {
        definition: 0,
        name,
        mode,
        region: None,
    })
}

fn empty_program(alloc: Global) -> Checked {
    Checked {
        locations: List::new(alloc),
        bodies: List::new(alloc),
        regions: 0,
        events: List::new(alloc),
        buffers: List::new(alloc),
        signals: List::new(alloc),
        exceptions: List::new(alloc),
        reads_input: false,
        size: 16,
        definitions: List::new(alloc),
        modulions: List::new(alloc),
    }
}

fn body_of(alloc: Global, name: Text) -> Body {
    Body {
        definition: None,
        name,
        sort: Sort::Process,
        region: None,
        critical: false,
        parameters: List::new(alloc),
        result: None,
        listed: List::new(alloc),
        locals: List::new(alloc),
        statements: List::new(alloc),
        handler: None,
    }
}
