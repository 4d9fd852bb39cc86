//! A program becomes code: its bodies, one behind the other. Besides, the facts of a program: what its run starts from.
//!
//! It meets the scheme of `docs/MACHINE.md`. It stands on the code of statements in `stmt_gen`, on `layout_map` and on the
//! facts in `kernel_base`; the top call stands on it.
#![tactic(auto)]

mod bodies;
mod compiling;
mod facts;
mod refusal;
mod rows;

pub use compiling::compile;
pub use facts::facts_of;
pub use refusal::{CodeRefusal, FactsRefusal};
