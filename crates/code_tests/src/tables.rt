// Codes as tables can hold them, and what they stand for.
ghost use Rattle.std.specs.Prelude.{◌≡◌, []};

use chill_base::List;
use code_types::{BodyRow, Code, Handler, Instr};
use kernel_base::Facts;
use std::alloc::{AllocError, Global};

/// A handler as a table can hold it.
#[derive(Drop)]
pub struct Range {
    pub from: u32,
    pub until: u32,
    pub height: u32,
    pub names: &'static [u32],
    pub otherwise: bool,
    pub target: u32,
}

/// A body as a table can hold it.
#[derive(Drop)]
pub struct Body {
    pub first: u32,
    pub params: u32,
    pub locals: u32,
    pub results: u32,
    pub height: u32,
    pub listed: &'static [u32],
}

/// A code as a table can hold it: its instructions, handlers and bodies.
#[derive(Drop)]
pub struct Shape(
    pub &'static [Instr],
    pub &'static [Range],
    pub &'static [Body],
);

fn handlers_of(alloc: Global, ranges: &[Range]) -> Result<Vec<Handler>, AllocError> {
    let mut handlers = Vec::new(alloc);
    for range in ranges {
        handlers.push(Handler {
            from: range.from,
            until: range.until,
            height: range.height,
            names: List::from_vec(range.names.to_vec(alloc)?),
            otherwise: range.otherwise,
            target: range.target,
        })?;
    }
    Ok(handlers)
}

/// The rows of these bodies.
pub fn rows_of(alloc: Global, bodies: &[Body]) -> Result<Vec<BodyRow>, AllocError> {
    let mut rows = Vec::new(alloc);
    for body in bodies {
        rows.push(BodyRow {
            first: body.first,
            params: body.params,
            locals: body.locals,
            results: body.results,
            height: body.height,
            listed: List::from_vec(body.listed.to_vec(alloc)?),
        })?;
    }
    Ok(rows)
}

/// The code of the table.
pub fn code_of(alloc: Global, shape: &Shape) -> Result<Code, AllocError> {
    Ok(Code {
        instrs: List::from_vec(shape.0.to_vec(alloc)?),
        handlers: List::from_vec(handlers_of(alloc, shape.1)?),
        bodies: List::from_vec(rows_of(alloc, shape.2)?),
    })
}

/// Facts of one process and nothing else.
pub fn few_facts(alloc: Global) -> Facts
    ensures { result.store ≡ [] }
{
    Facts {
        store: List::new(alloc),
        layouts: List::new(alloc),
        regions: 0,
        events: List::new(alloc),
        buffers: List::new(alloc),
        processes: 1,
        signals: List::new(alloc),
        input: List::new(alloc),
        units: 1000,
    }
}
