//! What a text is made of: its tokens with their spellings, and its syntax tree.
//!
//! It stands on `chill_base`, and below `rules_model`, which says which tokens a text has and which tree its tokens
//! have. A contract sees a tree of the program as a plain tree of `specs/`, without where it lies in memory.
#![tactic(auto)]

mod name_text;
mod places;
mod spelling;
mod text_literal;
mod token;
pub mod tree;

pub use name_text::NameText;
pub use text_literal::TextLiteral;
pub use token::{Sign, Token, TokenKind, Tokens, Word};
