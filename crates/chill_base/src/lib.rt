//! What all the crates of `chill` share: the one list, places in a text, the places of scalars in words, and the one
//! answer that every call which allocates may give.
//!
//! It stands on no crate of the repository. Every list is one generic type, which contracts see as the list of
//! its items. Diagnostics stand on it in `diagnostics`, what processes and the kernel tell one another in `kernel_base`.
#![tactic(auto)]

mod layout;
mod list;
mod memory;
mod pos;

pub use layout::{Bits, Layout, Layouts, Lengths};
pub use list::{Item, List, Numbers, Scalars, Text};
pub use memory::Memory;
pub use pos::Pos;
