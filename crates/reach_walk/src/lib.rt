//! What the parts of a program tell, depend on and use: `find_in_program` meets the definitions of `names_model`.
//!
//! It stands on `reach_tables`, whose tables say what each reach sees, and below `visibility`, which makes the answer of the
//! phase of names of what is found here. One walk goes over all parts with the tables of the reaches around. At each part
//! `note_here` tells which rules on names are broken, and notes what depends on what and what each use stands for. A rule of a
//! later phase that is told of one part is told there too, by a function of its own that `note_here` calls.
#![tactic(auto)]

mod findings;
mod groups;
mod laws;
mod told;
mod uses;
mod walk;

pub use findings::Findings;
pub use laws::{fits_law, size_law};
pub use walk::find_in_program;
