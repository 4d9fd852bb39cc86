// What a commit or a pause comes to, and the processes that were started.
use chill_base::Scalars;
use kernel_base::Answer;

/// What a commit or a pause comes to.
#[derive(Drop)]
pub enum Reply {
    /// The request was answered.
    Now(Answer),
    /// The request waits.
    Later,
    /// The run was over before.
    Over,
    /// The instance may not ask: it isn't active, its last answer wasn't fetched, or its request doesn't fit the facts.
    Stranger,
}

/// A process that was started.
#[derive(Drop)]
pub struct New {
    pub instance: u32,
    pub process: u32,
    pub scalars: Scalars,
}
