// The program as a whole: what it defines, by numbers (Z.200, chapters on program structure and on concurrent execution).
use crate::statement::{Handler, Statement};
use chill_base::{List, Numbers, Text};
use modes::Mode;
use std::rc::Rc;

/// A program that breaks no rule. Its lists are in the order of the text.
#[derive(Drop)]
pub struct Checked {
    /// The shared locations, without events and buffers.
    pub locations: List<LocationRow>,
    /// The outermost process, then processes and procedures in the order of the text.
    pub bodies: List<Body>,
    /// The number of regions.
    pub regions: u32,
    pub events: List<EventRow>,
    pub buffers: List<BufferRow>,
    pub signals: List<SignalRow>,
    /// The spellings of the user's exceptions, in the order in which they first stand in the text. Exception 7 is the
    /// first of them.
    pub exceptions: List<Text>,
    /// Whether some GET_INT stands in the text.
    pub reads_input: bool,
    /// The size of the text.
    pub size: u32,
    pub definitions: List<Definition>,
    pub modulions: List<ModulionRow>,
}

/// A shared location, and the region that it stands in.
#[derive(Drop)]
pub struct LocationRow {
    pub definition: u32,
    pub name: Text,
    pub mode: Rc<Mode>,
    pub region: Option<u32>,
}

/// An event, with its length where one is written.
#[derive(Drop)]
pub struct EventRow {
    pub definition: u32,
    pub name: Text,
    pub length: Option<u32>,
}

/// A buffer, with its length where one is written, and the mode of its values.
#[derive(Drop)]
pub struct BufferRow {
    pub definition: u32,
    pub name: Text,
    pub length: Option<u32>,
    pub element: Rc<Mode>,
}

/// A signal, the modes of its parts, and the body of the process that it is for.
#[derive(Drop)]
pub struct SignalRow {
    pub definition: u32,
    pub name: Text,
    pub parts: List<Rc<Mode>>,
    pub process: Option<u32>,
}

/// The outermost process, which has no definition and the name OUTER, a process or a procedure.
#[derive(Drop)]
pub struct Body {
    pub definition: Option<u32>,
    pub name: Text,
    pub sort: Sort,
    /// The region that a procedure is defined in.
    pub region: Option<u32>,
    /// Whether the procedure is one of a region that is granted.
    pub critical: bool,
    /// The parameters, which are the first locals.
    pub parameters: List<Parameter>,
    /// The mode of the result.
    pub result: Option<Rc<Mode>>,
    /// The exceptions after EXCEPTIONS, by their numbers, as they are written.
    pub listed: Numbers,
    /// Declared names, counters and received names, in the order of the text, behind the parameters.
    pub locals: List<LocalRow>,
    pub statements: List<Statement>,
    pub handler: Option<Box<Handler>>,
}

/// What a body is of.
#[derive(Clone, Copy, PartialEq, Eq)]
pub enum Sort {
    Outermost,
    Process,
    Procedure,
}

/// A parameter and which way it passes its value.
#[derive(Drop)]
pub struct Parameter {
    pub passing: Passing,
}

/// Which way a parameter passes its value.
#[derive(Clone, Copy, PartialEq, Eq)]
pub enum Passing {
    In,
    Out,
    InOut,
}

/// A local of a body: a parameter, a declared name, a counter or a received name. Its scalars follow each other in the
/// order of the locals.
#[derive(Drop)]
pub struct LocalRow {
    pub name: Text,
    pub mode: Rc<Mode>,
    /// The number of its first scalar among those of the body's locals.
    pub first: u32,
    /// How many scalars it has.
    pub count: u32,
}

/// A definition of the text.
#[derive(Drop)]
pub struct Definition {
    pub name: Text,
    pub inside: Inside,
}

/// The innermost modulion or body that a definition stands in.
#[derive(Clone, Copy, PartialEq, Eq)]
pub enum Inside {
    Outermost,
    Modulion(u32),
    Body(u32),
}

/// A modulion, the one around it, the size of its text, and the definitions outside it that it uses, in the order of
/// their first uses.
#[derive(Drop)]
pub struct ModulionRow {
    pub name: Text,
    pub around: Option<u32>,
    pub size: u32,
    pub uses: Numbers,
}
