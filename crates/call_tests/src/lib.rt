//! Tests of the top call over ports in memory: what no example of the program can show, since there no port fails, nobody
//! refuses an event and no gate holds a worker.
//!
//! It proves nothing of its own. Tests stand in a crate at the top because a crate with tests is proved twice.
#![tactic(auto)]

#[cfg(test)]
mod calls;
#[cfg(test)]
mod faults;
#[cfg(test)]
mod inputs;
#[cfg(test)]
mod journals;
#[cfg(test)]
mod order;
#[cfg(test)]
mod ports;
#[cfg(test)]
mod texts;
#[cfg(test)]
mod watched;
