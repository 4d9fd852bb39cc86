// What comes of a command, and how far it comes without a run.
use chill_base::Text;
use diagnostics::Diagnostics;
use journal_verdict::Judgement;
use kernel_base::Facts;
use serial_run::Driven;
use text_to_code::Built;

/// A run, and the program and the code that it is of.
#[derive(Drop)]
pub struct Ran {
    pub built: Box<Built>,
    pub driven: Box<Driven>,
}

/// What comes of words and of the text that they name.
#[derive(Drop)]
pub enum Plan {
    /// The words are no command.
    Usage,
    /// The text is refused.
    Refused(Diagnostics),
    /// The text is accepted, and isn't to be run.
    Accepted,
    /// Its layout and its code are written.
    Listed(Box<Built>),
    /// This canonical text is written.
    Formatted(Text),
    /// The input is too long.
    InputTooLong,
    /// The text was run.
    Ran(Ran),
    /// The journal has too many bytes.
    JournalTooLong,
    /// The journal was held against the text.
    Judged(Judgement),
}

/// A program that is to be run, and the sound facts from which it is.
#[derive(Drop)]
pub(crate) struct Ready {
    pub built: Box<Built>,
    pub facts: Facts,
}

/// How far a command comes without a run.
#[derive(Drop)]
pub(crate) enum Stage {
    /// There is nothing to be run.
    Decided(Plan),
    Ready(Ready),
}
