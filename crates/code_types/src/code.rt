// A code: its instructions, its handlers and its bodies (our own choice).
use crate::Instrs;
use chill_base::{List, Numbers};

/// A handler of the instructions from `from` up to, and without, `until`. It takes the exceptions of these numbers, and
/// every exception where ELSE is written.
#[derive(Drop)]
pub struct Handler {
    pub from: u32,
    pub until: u32,
    /// How many numbers are left on the stack for its actions.
    pub height: u32,
    pub names: Numbers,
    /// Whether ELSE is written.
    pub otherwise: bool,
    /// The place of its actions.
    pub target: u32,
}

/// A body: the outermost process, a process or a procedure. It reaches to the next body's first instruction.
#[derive(Drop)]
pub struct BodyRow {
    /// The place of its first instruction.
    pub first: u32,
    /// The number of scalars of its parameters, which are its first locals.
    pub params: u32,
    /// The number of its locals.
    pub locals: u32,
    /// The number of scalars that a call of it gives back.
    pub results: u32,
    /// The greatest height of its stack.
    pub height: u32,
    /// The exceptions that are raised at a call of it.
    pub listed: Numbers,
}

/// Handlers, innermost first.
pub type Handlers = List<Handler>;

/// Bodies by their numbers. Body 0 is the outermost process.
pub type BodyRows = List<BodyRow>;

/// The code of a program.
#[derive(Drop)]
pub struct Code {
    pub instrs: Instrs,
    pub handlers: Handlers,
    pub bodies: BodyRows,
}
