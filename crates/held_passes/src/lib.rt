//! Gates for tests, at which one instance is held until another has passed.
//!
//! The tests of the workers and of the top call order processes by them. It proves that it returns, and stands on
//! `outside_ports`.
#![tactic(auto)]

mod behind;
mod meeting;
mod passes;

pub use behind::Behind;
pub use meeting::Meeting;
