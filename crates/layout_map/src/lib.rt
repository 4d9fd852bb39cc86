//! Where the scalars of a mode lie: the layout of a mode, and numbers in the bits of words.
//!
//! It meets the definition of the spots of a mode in its own `specs/`. It stands on `modes`, below the checks, the
//! compiler and the store.
#![tactic(auto)]

mod bits;
mod laws;
mod lay;
mod layouts;
mod numbered;
mod overlap;
mod place;
mod scalar;

pub use bits::{get_bits, put_bits, words};
pub use laws::{spot_law, width_law, word_law};
pub use layouts::{LayoutRefusal, layout};
pub use place::{is_possible, is_possible_step, share_a_bit};
pub use scalar::{Scalar, scalar_of};
