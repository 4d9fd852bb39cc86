// What an elaborated program defines, as texts: a row for each item of a list, with semicolons between them.
use crate::page::Page;
use crate::print_modes::put_mode;
use checked_program::{
    Body, BufferRow, Checked, Definition, EventRow, Inside, LocalRow, LocationRow, ModulionRow,
    Parameter, Passing, SignalRow, Sort,
};
use chill_base::{Memory, Text};
use modes::Mode;
use std::rc::Rc;

/// Which rows of a program are written.
#[derive(Clone, Copy)]
pub enum Rows {
    /// Shared locations.
    Locations,
    /// Events, buffers and signals.
    Meetings,
    /// Bodies without what they do.
    Bodies,
    /// All definitions.
    Definitions,
    /// Modulions.
    Modulions,
    /// The number of regions, the exceptions, whether input is read, and the size.
    Whole,
}

/// Puts these rows of a program.
pub fn put_rows(page: &mut Page, program: &Checked, rows: Rows) -> Result<(), Memory> {
    match rows {
        Rows::Locations => put_locations(page, program.locations.as_slice()),
        Rows::Meetings => {
            put_events(page, program.events.as_slice())?;
            put_buffers(page, program.buffers.as_slice())?;
            put_signals(page, program.signals.as_slice())
        }
        Rows::Bodies => put_bodies(page, program.bodies.as_slice()),
        Rows::Definitions => put_definitions(page, program.definitions.as_slice()),
        Rows::Modulions => put_modulions(page, program.modulions.as_slice()),
        Rows::Whole => put_whole(page, program),
    }
}

fn put_whole(page: &mut Page, program: &Checked) -> Result<(), Memory> {
    page.put_with("regions ", program.regions)?;
    page.put(", exceptions")?;
    for name in program.exceptions.as_slice() {
        put_named(page, " ", name)?;
    }
    page.put_if(", reads input", program.reads_input)?;
    page.put_with(", size ", program.size)
}

fn put_named(page: &mut Page, word: &str, name: &Text) -> Result<(), Memory> {
    page.put(word)?;
    page.put_name(name.as_slice())
}

// Puts the number of a definition and its name.
fn put_defined(page: &mut Page, definition: u32, name: &Text) -> Result<(), Memory> {
    page.put_number(i64::from(definition))?;
    put_named(page, " ", name)
}

fn put_locations(page: &mut Page, rows: &[LocationRow]) -> Result<(), Memory> {
    for (place, row) in rows.iter().enumerate() {
        page.put_if("; ", place > 0)?;
        put_defined(page, row.definition, &row.name)?;
        page.put(" ")?;
        put_mode(page, &row.mode)?;
        page.put_some(" region ", row.region)?;
    }
    Ok(())
}

fn put_events(page: &mut Page, rows: &[EventRow]) -> Result<(), Memory> {
    page.put("events:")?;
    for row in rows {
        page.put(" ")?;
        put_defined(page, row.definition, &row.name)?;
        page.put_some(" length ", row.length)?;
        page.put(";")?;
    }
    Ok(())
}

fn put_buffers(page: &mut Page, rows: &[BufferRow]) -> Result<(), Memory> {
    page.put(" buffers:")?;
    for row in rows {
        page.put(" ")?;
        put_defined(page, row.definition, &row.name)?;
        page.put_some(" length ", row.length)?;
        page.put(" of ")?;
        put_mode(page, &row.element)?;
        page.put(";")?;
    }
    Ok(())
}

fn put_signals(page: &mut Page, rows: &[SignalRow]) -> Result<(), Memory> {
    page.put(" signals:")?;
    for row in rows {
        page.put(" ")?;
        put_defined(page, row.definition, &row.name)?;
        put_modes(page, row.parts.as_slice())?;
        page.put_some(" to ", row.process)?;
        page.put(";")?;
    }
    Ok(())
}

fn put_modes(page: &mut Page, all: &[Rc<Mode>]) -> Result<(), Memory> {
    page.put(" (")?;
    for (place, mode) in all.iter().enumerate() {
        page.put_if(", ", place > 0)?;
        put_mode(page, mode)?;
    }
    page.put(")")
}

fn put_bodies(page: &mut Page, bodies: &[Body]) -> Result<(), Memory> {
    for (place, body) in bodies.iter().enumerate() {
        page.put_if("; ", place > 0)?;
        put_head(page, body)?;
        put_locals(page, body.locals.as_slice())?;
    }
    Ok(())
}

fn put_head(page: &mut Page, body: &Body) -> Result<(), Memory> {
    put_sort(page, body.sort)?;
    page.put_some(" ", body.definition)?;
    put_named(page, " ", &body.name)?;
    page.put_some(" region ", body.region)?;
    page.put_if(" critical", body.critical)?;
    put_parameters(page, body.parameters.as_slice())?;
    if let Some(result) = &body.result {
        page.put(" returns ")?;
        put_mode(page, result)?;
    }
    if !body.listed.is_empty() {
        page.put(" lists ")?;
        page.put_numbers(body.listed.as_slice())?;
    }
    Ok(())
}

fn put_sort(page: &mut Page, sort: Sort) -> Result<(), Memory> {
    match sort {
        Sort::Outermost => page.put("outermost"),
        Sort::Process => page.put("process"),
        Sort::Procedure => page.put("procedure"),
    }
}

fn put_parameters(page: &mut Page, parameters: &[Parameter]) -> Result<(), Memory> {
    for parameter in parameters {
        match parameter.passing {
            Passing::In => page.put(" in")?,
            Passing::Out => page.put(" out")?,
            Passing::InOut => page.put(" inout")?,
        }
    }
    Ok(())
}

// Puts locals: the number of the first scalar, how many there are, the name and the mode.
fn put_locals(page: &mut Page, locals: &[LocalRow]) -> Result<(), Memory> {
    page.put(" [")?;
    for (place, local) in locals.iter().enumerate() {
        page.put_if(", ", place > 0)?;
        page.put_number(i64::from(local.first))?;
        page.put_with("+", local.count)?;
        put_named(page, " ", &local.name)?;
        page.put(" ")?;
        put_mode(page, &local.mode)?;
    }
    page.put("]")
}

fn put_definitions(page: &mut Page, rows: &[Definition]) -> Result<(), Memory> {
    for (place, row) in rows.iter().enumerate() {
        page.put_if("; ", place > 0)?;
        page.put_name(row.name.as_slice())?;
        match row.inside {
            Inside::Outermost => {}
            Inside::Modulion(number) => page.put_with(" in modulion ", number)?,
            Inside::Body(number) => page.put_with(" in body ", number)?,
        }
    }
    Ok(())
}

fn put_modulions(page: &mut Page, rows: &[ModulionRow]) -> Result<(), Memory> {
    for (place, row) in rows.iter().enumerate() {
        page.put_if("; ", place > 0)?;
        page.put_name(row.name.as_slice())?;
        page.put_some(" in ", row.around)?;
        page.put_with(" size ", row.size)?;
        page.put(" uses (")?;
        page.put_numbers(row.uses.as_slice())?;
        page.put(")")?;
    }
    Ok(())
}
