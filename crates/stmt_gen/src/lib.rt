//! The code of statements that hold others, of handlers and of modulions.
//!
//! It meets the scheme of `docs/MACHINE.md`, one function for each construct. It stands on the code of actions in `action_gen`;
//! the code of bodies stands on it. Statements begin and end with nothing on the stack. Code is appended to a `Draft`, and
//! nothing is mended later.
#![tactic(auto)]

mod again;
mod going_on;
mod handlers;
mod items;
mod joining;
mod kinds;
mod sizes;
mod statements;

pub use again::{Span, put_again, raised_and_listed, raised_between};
pub use going_on::{go_on, some_handler_goes_on};
pub use items::put_items;
pub use sizes::{statement_size, statements_size};
pub use statements::{put_handler, put_statement, put_statements};
