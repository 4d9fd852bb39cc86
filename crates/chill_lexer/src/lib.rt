//! The lexer: the tokens of a text, read byte by byte.
//!
//! It meets the definition of the tokens of a text in `rules_model`, and gives the parser the tokens of `chill_tree`.
#![tactic(auto)]

mod front;
mod lexer;
mod literal;
mod name_bytes;
mod put;
mod run;

pub use lexer::{LexRefusal, lex};
