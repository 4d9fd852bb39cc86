// What a run has come to (Z.200, chapter on concurrent execution).
use chill_base::{List, Numbers, Scalars, Text};
use kernel_base::{Answer, How, Request};

/// How far an instance has come.
#[derive(Drop)]
pub enum Phase {
    /// It may ask.
    Active,
    /// Its request waits, for anything but a region. `send` is the number of the value that it sends, and `back` the
    /// region that it freed and has to lock again.
    Waiting {
        request: Request,
        send: Option<u32>,
        back: Option<u32>,
    },
    /// Its answer has come. It goes on once `back`, if any, is free.
    Chosen {
        answer: Answer,
        back: Option<u32>,
    },
    /// It has ended.
    Ended {
        how: How,
    },
}

/// A value that was sent and not yet received.
#[derive(Drop)]
pub struct StoredValue {
    pub send: u32,
    pub sender: u32,
    pub scalars: Scalars,
    pub priority: u32,
}

/// A signal that was sent and not yet received.
#[derive(Drop)]
pub struct PendingSignal {
    pub signal: u32,
    /// The one instance that may receive it, if it was sent to one.
    pub to: Option<u32>,
    pub value: StoredValue,
}

/// The world of all processes. Lists by instance have an item for instance 0, which is none and has ended.
#[derive(Drop)]
pub struct World {
    /// The process of each instance, and its arguments.
    pub processes: Numbers,
    pub arguments: List<Scalars>,
    pub phases: List<Phase>,
    /// The regions that each instance holds, in the order of locking.
    pub held: List<Numbers>,
    /// Who occupies each region.
    pub occupants: List<Option<u32>>,
    /// The flat scalars of each shared location.
    pub store: List<Scalars>,
    /// The values stored in each buffer, in no order that means anything.
    pub stored: List<List<StoredValue>>,
    /// The pending signals, in no order that means anything.
    pub pending: List<PendingSignal>,
    /// The input left, and the output so far.
    pub input: Text,
    pub output: Text,
    /// The last send number.
    pub sends: u32,
}
