//! The nodes of a graph in an order in which each stands behind those that it needs, if there is one.
#![tactic(auto)]

mod placed;
mod placing;
mod search;

pub use placing::ordered;
