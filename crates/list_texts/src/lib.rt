//! The texts that `list` writes: the layout of a program's locations, and its code.
//!
//! It meets the definitions of `specs/`. It stands on `layout_map` and `checked_program`, and on `code_types`; the top call
//! stands on it.
#![tactic(auto)]

mod code_lines;
mod instructions;
mod layout_lines;
mod paths;

pub use code_lines::code_text;
pub use instructions::Operands;
pub use layout_lines::layout_text;
