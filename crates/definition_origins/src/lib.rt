//! What each definition of a program is defined by, in the order of the text; and what is told of a phase, as it is found.
//!
//! It stands on `names_model`, whose names say what each use stands for.
#![tactic(auto)]

mod check_rule;
mod items;
mod locals;
mod mode_elements;
mod origin;
mod origin_list;
mod statements;
mod told;
mod uses;

pub use check_rule::CheckRule;
pub use class_operators::{PREDEFINED, Predefined};
pub use items::origins;
pub use origin::{Element, Origin, Owner};
pub use origin_list::Origins;
pub use told::Told;
pub use uses::{number_at, places};
