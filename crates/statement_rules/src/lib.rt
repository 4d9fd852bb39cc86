//! The rules on the statements of a program (Z.200, chapters on actions and on exception handling): S1 to S12, L4 and L6.
//!
//! It stands on `expr_rules`, which tells what expressions and locations break by themselves and for what receives them; this
//! crate walks through modulions, bodies, statements and handlers. The checks of statements stand above it.
#![tactic(auto)]

mod around;
mod choices;
mod exceptions;
mod heads;
mod local_scalars;
mod locals;
mod loops;
mod modulions;
mod simple;
mod statements;
mod walk;
mod written;

pub use modulions::tell_statements;
