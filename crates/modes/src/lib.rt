//! The modes of the language and the classes of its values: which modes are similar, v-equivalent and equivalent,
//! what goes with what, the root, the novelty, the bounds and the lowest value of a mode, and how many scalars it has.
//!
//! It meets the definitions of its own `specs/`, each a recursion over one tree of a mode. It stands on `chill_base`,
//! below the layout of modes and all that checks or compiles texts. Contracts see a mode as its tree, without where
//! it lies in memory.
#![tactic(auto)]

mod class;
mod discrete;
mod form;
mod language;
mod laws;
mod lowest;
mod mode;
mod roots;
mod scalars;
mod similarity;

pub use class::{compatible, goes_with};
pub use discrete::{bounds, is_discrete, number_of_values};
pub use form::{Form, form_of};
pub use language::is_of_language;
pub use laws::{class_law, equivalent_law, similar_law};
pub use lowest::add_lowest;
pub use mode::{Bounds, Class, Field, Fields, Mode, Spread};
pub use roots::{holds_read, is_read, novelty, root};
pub use scalars::{number_of_leaves, number_of_scalars};
pub use similarity::{equivalent, similar, v_equivalent};
