// Entries of reaches (Z.200, chapter on general semantic properties, visibility).
use chill_base::{Numbers, Pos};

/// The definitions that one place enters into a reach, each under its own name.
#[derive(Debug, Drop)]
pub struct Entry {
    pub at: Pos,
    pub numbers: Numbers,
}
