// What actions are for.

/// What an action is for.
#[derive(Clone, Copy, PartialEq, Eq)]
pub enum Purpose {
    /// DELAY, DELAY CASE and CONTINUE.
    Events,
    /// RECEIVE, RECEIVE CASE, and SEND to whoever receives.
    Messages,
    /// SEND with the instance that is to receive.
    Signals,
}
