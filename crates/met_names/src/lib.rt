//! What processes meet at under the names of a program (Z.200, chapter on concurrent execution), and the rule on the names
//! from which expressions receive.
//!
//! It stands on `names_model`'s rows of names and on `checks_model`, whose definition of the rule it meets. The walk over
//! statements and items stands above it.
#![tactic(auto)]

mod meeting;
mod meetings;
mod purpose;
mod rows;
mod values;

pub use meeting::{Meeting, met_in};
pub use meetings::Meetings;
pub use purpose::Purpose;
pub use rows::Rows;
