// The numbers of a program's definitions and exceptions, and its lists.
use crate::exceptions::Exceptions;
use crate::refusal::ElaborationRefusal;
use crate::source::Source;
use crate::thing::Thing;
use crate::things::{Things, things_of};
use checked_program::Checked;
use chill_base::{List, Memory, Pos};
use chill_tree::tree::{Name, Tree};
use expr_rules::Walk;
use std::alloc::Global;
use text_size::size_of_program;

/// The numbers of a program's definitions and exceptions, and the lists of the elaborated program. Each list is in the
/// order of the text.
pub struct Numbering {
    things: Things,
    exceptions: Exceptions,
    rows: Box<Checked>,
}

// Dropped by hand, so that whoever drops one makes one call.
impl Drop for Numbering {
    fn drop(self) {
        let Numbering {
            things,
            exceptions,
            rows,
        } = self;
        drop(things);
        drop(exceptions);
        drop(rows);
    }
}

// A program of which only the size is known.
fn empty_program(alloc: Global, tree: &Tree) -> Result<Box<Checked>, Memory> {
    let program = Checked {
        locations: List::new(alloc),
        bodies: List::new(alloc),
        regions: 0,
        events: List::new(alloc),
        buffers: List::new(alloc),
        signals: List::new(alloc),
        exceptions: List::new(alloc),
        reads_input: false,
        size: size_of_program(tree),
        definitions: List::new(alloc),
        modulions: List::new(alloc),
    };
    Ok(Box::new(alloc, program)?)
}

// The lists of a program, but for its exceptions.
fn lists_of(
    source: Source<'_, '_, '_>,
    tree: &Tree,
    exceptions: &Exceptions,
) -> Result<Box<Checked>, ElaborationRefusal> {
    let mut program = empty_program(source.alloc(), tree)?;
    program.regions = source.regions();
    program.reads_input = source.reads_input();
    program.locations = source.locations()?;
    program.events = source.events()?;
    program.buffers = source.buffers()?;
    program.signals = source.signals()?;
    program.bodies = source.bodies(exceptions)?;
    program.definitions = source.definitions()?;
    program.modulions = source.modulions(tree)?;
    Ok(program)
}

impl Numbering {
    /// Numbers a program that breaks no rule. Unsound comes where a location, parameter, counter, received name or part of a
    /// signal has no mode.
    pub fn of(walk: &Walk<'_, '_>, tree: &Tree) -> Result<Numbering, ElaborationRefusal> {
        let things = things_of(walk)?;
        let exceptions = Exceptions::of(walk.evaluation.alloc, tree)?;
        let source = Source {
            walk,
            things: things.as_slice(),
        };
        let rows = lists_of(source, tree, &exceptions)?;
        Ok(Numbering {
            things,
            exceptions,
            rows,
        })
    }

    /// What a definition is, by its number: nothing also where there is none of that number.
    pub fn thing(&self, definition: u32) -> Thing {
        match self.things.as_slice().get(definition as usize) {
            None => Thing::Nothing,
            Some(thing) => *thing,
        }
    }

    /// What the name used at a place stands for.
    pub fn thing_used(&self, walk: &Walk<'_, '_>, at: Pos) -> Thing {
        match walk.evaluation.used_at(at) {
            None => Thing::Nothing,
            Some(definition) => self.thing(definition),
        }
    }

    /// What the name defined at a place is.
    pub fn thing_defined(&self, walk: &Walk<'_, '_>, at: Pos) -> Thing {
        match walk.evaluation.defined_at(at) {
            None => Thing::Nothing,
            Some(definition) => self.thing(definition),
        }
    }

    /// The number of an exception: 0 to 6 for those of the language, OVERFLOW, RANGEFAIL, EMPTY, ASSERTFAIL, DELAYFAIL,
    /// SPACEFAIL and EXTINCT in upper or lower case, and from 7 on the user's in the order in which they first stand in the
    /// text. None for a name that the text has nowhere as an exception.
    pub fn exception(&self, name: &Name) -> Option<u32> {
        self.exceptions.number(name)
    }

    /// The lists of the elaborated program, in which no body has statements or a handler yet.
    pub fn into_rows(self) -> Box<Checked> {
        let Numbering {
            things,
            exceptions,
            rows,
        } = self;
        drop(things);
        let mut rows = rows;
        rows.exceptions = exceptions.into_spellings();
        rows
    }
}
