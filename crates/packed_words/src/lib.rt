//! A location's scalars, in the words of its layout: each scalar in bits of its own.
//!
//! It stands on `layout_map`, which gets and puts the numbers in bits, and on `kernel_base`, whose facts say when a layout
//! is sound, and below `shared_store`.
#![tactic(auto)]

mod packed;

pub use packed::Packed;
