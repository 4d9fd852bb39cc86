// What ends a process, and what ends a run.

/// An exception: one of the seven of the language, or one that a text names, by its number in the text.
#[derive(Clone, Copy, PartialEq, Eq)]
pub enum Exc {
    Overflow,
    Rangefail,
    Empty,
    Assertfail,
    Delayfail,
    Spacefail,
    Extinct,
    User(u32),
}

/// How a process ended.
#[derive(Clone, Copy, PartialEq, Eq)]
pub enum How {
    /// It came to the end of its body.
    Normal,
    /// By STOP.
    Stopped,
    /// By an exception that nobody handled.
    Raised(Exc),
}

/// How a run was over.
#[derive(Clone, Copy, PartialEq, Eq)]
pub enum Over {
    /// Every process has ended.
    AllEnded,
    /// Nobody can go on, and somebody hasn't ended.
    Still,
    /// The journal's units have reached the budget.
    Spent,
}
