// What a definition is defined by.
use chill_tree::tree::{
    Control, Declaration, Mode, ModeDefinition, Modulion, Name, Passing, Procedure, Process,
    ReceiveAlternative, Signal, Synonym,
};
use class_operators::Predefined;

/// The name of the mode that a SET is the whole of, READ aside, and whether that is a NEWMODE.
#[derive(Clone, Copy)]
pub struct Owner<'a> {
    pub name: &'a Name,
    pub novel: bool,
}

/// An element of a SET: the elements of the SET, and which of them this is.
#[derive(Clone, Copy)]
pub struct Element<'a> {
    pub names: &'a [Name],
    pub part: usize,
    pub owner: Option<Owner<'a>>,
}

/// What a definition is defined by: a part of the program's tree, or nothing where it is predefined.
#[derive(Clone, Copy)]
pub enum Origin<'a> {
    /// A synonym, and the first of those that its clause defines.
    Synonym {
        synonym: &'a Synonym,
        first: u32,
    },
    SynMode(&'a ModeDefinition),
    NewMode(&'a ModeDefinition),
    Element(Element<'a>),
    /// A location, and the first of those that its declaration defines.
    Location {
        declaration: &'a Declaration,
        first: u32,
    },
    /// A parameter, and the first of those that have its mode written with them.
    Parameter {
        mode: &'a Mode,
        passing: Passing,
        first: u32,
    },
    Counter(&'a Control),
    /// The name that an alternative of RECEIVE CASE gives to the part of that number.
    Received {
        alternative: &'a ReceiveAlternative,
        part: usize,
    },
    Procedure(&'a Procedure),
    Process(&'a Process),
    Signal(&'a Signal),
    Modulion(&'a Modulion),
    Predefined(Predefined),
}
