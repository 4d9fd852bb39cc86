// Places that enter one definition.
use chill_base::Pos;

/// The entry of one definition. It takes no memory.
#[derive(Clone, Copy)]
pub struct Place {
    pub at: Pos,
    pub number: u32,
}
