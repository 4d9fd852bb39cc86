// What is kept of values and receivers, and what comes of sending and receiving.
use kernel_base::{Alternatives, Answer};
use world_model::StoredValue;

/// A value that lies in a buffer, or whose sender waits to send it to the buffer.
#[derive(Drop)]
pub struct Held {
    pub buffer: u32,
    pub value: StoredValue,
}

/// A process that waits to receive, and the buffers or signals that it lists.
#[derive(Drop)]
pub struct Receiver {
    pub who: u32,
    pub process: u32,
    pub things: Alternatives,
}

/// What comes of a send.
#[derive(Drop)]
pub enum Sent {
    /// The value goes straight to this process, which waited for it and has this answer now.
    Handed { to: u32, answer: Answer },
    /// The value is kept.
    Stored,
    /// The buffer is full, and the sender waits.
    Delayed,
}

/// What comes of a receive.
#[derive(Drop)]
pub enum Received {
    /// A value is taken. `refill` is the sender that waited and whose value took its place, or was the one taken.
    Got { answer: Answer, refill: Option<u32> },
    /// Nothing is there, and ELSE is written.
    Otherwise,
    /// Nothing is there, and the receiver waits.
    Delayed,
}
