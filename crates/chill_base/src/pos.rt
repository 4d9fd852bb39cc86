// Where something stands in a text.

/// A place in a text: a line from 1, and in it a column from 1, which counts bytes.
#[derive(Clone, Copy, Debug, PartialEq, Eq, PartialOrd, Ord)]
pub struct Pos {
    pub line: u32,
    pub column: u32,
}
