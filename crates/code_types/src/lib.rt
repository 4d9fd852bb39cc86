//! The code of `chill`: its instructions, handlers and bodies, the steps that a process makes of it, and when a code
//! agrees.
//!
//! The definitions stand in `specs/`. The crate stands on `world_model`, whose sessions the steps are told in; the
//! compiler, the guard and the machine all stand on it.
#![tactic(auto)]

mod code;
mod instr;
mod laws;

pub use code::{BodyRow, BodyRows, Code, Handler, Handlers};
pub use instr::{Instr, Instrs};
pub use laws::{gives_law, leads_on_law, one_talk_law};
