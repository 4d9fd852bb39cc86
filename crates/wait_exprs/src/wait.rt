// What actions that wait have besides.
use chill_tree::tree::Expr;

/// A location that takes an instance, or a priority.
#[derive(Clone, Copy)]
pub enum Wait<'a> {
    Set(&'a Expr),
    Priority(&'a Expr),
}
