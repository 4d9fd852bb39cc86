//! Where the program's texts and its input come from and where its output goes: libraries of files, feeds and sinks of bytes.
//! What looks on at a journal: watchers. And the gate that workers pass.
//!
//! A port tells its content or not, and always counts its faults, so that a caller can be told exactly when a
//! fault may be answered. It stands on `kernel_base`, for the events that watchers see; the top call is generic over these
//! ports, and the program puts real files and streams behind them.
#![tactic(auto)]

mod feed;
mod gate;
mod library;
mod memory_feed;
mod memory_library;
mod memory_sink;
mod sink;
mod watcher;

pub use feed::Feed;
pub use gate::{Gate, OpenGate};
pub use library::{Library, PortFault};
pub use memory_feed::MemoryFeed;
pub use memory_library::{File, Files, MemoryLibrary};
pub use memory_sink::MemorySink;
pub use sink::Sink;
pub use watcher::{WatchFault, Watcher};

#[cfg(test)]
mod tests;
