// Definitions of synonyms, modes and locations (Z.200, chapters on modes, locations and values).
use crate::tree::{Expr, Mode, Name};
use chill_base::{List, Pos};

/// A definition statement.
#[derive(Drop)]
pub enum Local {
    Synonyms {
        at: Pos,
        synonyms: List<Synonym>,
    },
    SynModes {
        at: Pos,
        modes: List<ModeDefinition>,
    },
    NewModes {
        at: Pos,
        modes: List<ModeDefinition>,
    },
    Locations {
        at: Pos,
        declarations: List<Declaration>,
    },
}

/// Names for the value of a constant, with a mode or none.
#[derive(Drop)]
pub struct Synonym {
    pub names: List<Name>,
    pub mode: Option<Mode>,
    pub value: Box<Expr>,
}

/// A name for a mode.
#[derive(Drop)]
pub struct ModeDefinition {
    pub name: Name,
    pub mode: Mode,
}

/// Locations of one mode.
#[derive(Drop)]
pub struct Declaration {
    pub names: List<Name>,
    pub mode: Mode,
    pub initial: Option<Initial>,
}

/// What locations hold at first, with the word INIT before its sign or without.
#[derive(Drop)]
pub struct Initial {
    pub at: Pos,
    pub init: bool,
    pub value: Box<Expr>,
}
