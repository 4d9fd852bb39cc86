// How far an expression is read.

/// How far an expression is read: where a piece of it begins and isn't whole, whether there is none at all, or the
/// piece is left out.
#[derive(Clone, Copy)]
pub enum Extent {
    /// In a whole text nothing goes on as an expression does, so a piece that begins has to be whole.
    Whole,
    /// The longest expression at a place ends before the first piece that isn't whole.
    Longest,
}
