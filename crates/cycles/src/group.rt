// Groups of nodes.
use chill_base::Numbers;

/// Each of the first nodes depends on each of the second.
#[derive(Drop)]
pub struct Group {
    pub from: Numbers,
    pub to: Numbers,
}
