//! The values of the shared locations, each in the words of its layout.
//!
//! It stands on `packed_words`, which packs them, on `world_model`, whose store it is, and on `world_check`, which opens
//! it, and below `kernel_core`.
#![tactic(auto)]

mod store;

pub use store::Store;
