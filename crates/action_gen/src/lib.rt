//! The code of actions that hold no statements, and of what goes before statements that others hold: the counting of loops, the
//! labels of alternatives, and waits.
//!
//! It meets the scheme of `docs/MACHINE.md`, one function for each construct. It stands on the code of expressions in
//! `expr_gen`; the code of statements, `stmt_gen`, stands on it.
#![tactic(auto)]

mod around;
mod assigning;
mod cases;
mod loops;
mod plain;
mod requests;
mod steps;
mod waits;
mod ways_out;

pub use around::{Around, with_exit};
pub use cases::{labels_size, put_labels, put_selector};
pub use loops::{control_size, locals_kept, put_before_turns, put_turn_test};
pub use plain::{plain_size, put_plain};
pub use waits::{
    Receives, chosen_local, delay_wait_size, put_delay_wait, put_is_chosen, put_receive_wait,
    receive_wait_size,
};
pub use ways_out::{critical_region, put_way_out, way_out_size};
