// What the kernel keeps.
use crate::Seats;
use buffers_signals::{Buffers, Signals};
use chill_base::Scalars;
use event_queues::EventSets;
use journal_book::Journal;
use kernel_base::{Facts, Request};
use shared_store::Store;

/// The room for one commit: a copy of its request, and two buffers for the scalars of its answer.
#[derive(Drop)]
pub struct Ready {
    pub who: u32,
    pub request: Request,
    pub first: Vec<i64>,
    pub second: Vec<i64>,
}

/// Those that wait for events, buffers and signals, with the values and signals that were sent.
#[derive(Drop)]
pub struct Queues {
    pub events: EventSets,
    pub buffers: Buffers,
    pub signals: Signals,
    /// The last send number.
    pub sends: u32,
}

/// The journal, and what it leaves.
#[derive(Drop)]
pub struct State {
    pub facts: Facts,
    pub journal: Journal,
    pub seats: Seats,
    pub queues: Queues,
    pub store: Store,
    /// How many bytes of the input were taken.
    pub read: usize,
    /// The arguments of the instances that were started, and how many instances were taken.
    pub arguments: Vec<Scalars>,
    pub taken: u32,
    /// As many scalars as any message of the journal has, and no fewer.
    pub widest: usize,
    pub ready: Option<Ready>,
}
