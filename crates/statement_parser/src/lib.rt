//! Actions and statements are read from tokens, as `rules_model` says of reading from the front.
//!
//! It stands on the parsers of expressions (`expr_parser`) and of definitions (`mode_parser`), and the parser of whole
//! texts stands on it.
#![tactic(auto)]

mod alternative;
mod bracketed;
mod clause;
mod closing;
mod control;
mod handler;
mod head;
mod mark;
mod named;
mod simple;
mod statement;

pub use clause::name_clause;
pub use closing::read_closing;
pub use handler::read_handler;
pub use mark::{begins_label, begins_local, begins_statement};
pub use statement::{read_actions, read_body, read_statement};
