// What the names of a program stand for.
use crate::definition::Definition;
use chill_base::{List, Pos};

/// A use of a name, and the number of the definition that it stands for.
#[derive(Clone, Copy, Debug)]
pub struct Resolved {
    pub at: Pos,
    pub to: u32,
}

/// The definitions of a program in the order of the text with the predefined ones behind them, and what each used name
/// stands for.
#[derive(Debug, Drop)]
pub struct Names {
    pub definitions: List<Definition>,
    pub uses: List<Resolved>,
}
