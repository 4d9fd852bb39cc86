//! A program that breaks no rule, with numbers in place of names: its locations, bodies, events, buffers and signals, and
//! the statements and expressions of each body. Constants are folded, and each expression has its class.
//!
//! `elaborate` makes it of a tree and its names; layouts, the compiler and the reports read it. It stands on `modes`.
#![tactic(auto)]

mod expr;
mod program;
mod statement;

pub use expr::{
    Argument, Base, Binary, Call, Expr, Location, Operation, Part, Prefix, Range, Received,
    Routine, Start,
};
pub use program::{
    Body, BufferRow, Checked, Definition, EventRow, Inside, LocalRow, LocationRow, ModulionRow,
    Parameter, Passing, SignalRow, Sort,
};
pub use statement::{
    Action, CaseAlternative, Choice, Control, DelayAlternative, Handler, HandlerAlternative,
    ReceiveAlternative, Sent, Statement,
};
