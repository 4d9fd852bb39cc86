//! The code of expressions: of values, locations, conditions and calls.
//!
//! It meets the scheme of `docs/MACHINE.md`, one function for each construct. It stands on the program in
//! `checked_program` and on the code in `code_types`; handlers and statements stand on it. Code is appended to a `Draft`,
//! and nothing is mended later: each jump's target is found from the sizes of what lies between.
#![tactic(auto)]

mod bounds;
mod building;
mod conditions;
mod copying;
mod frames;
mod locations;
mod operators;
mod refusal;
mod repeating;
mod sizes;
mod values;

pub use bounds::{INT, bounds_of_operator, bounds_of_value, bounds_to_test};
pub use building::{Draft, sum, uncapped};
pub use conditions::{Branch, branch_size, condition_size, put_branch, put_condition};
pub use copying::{keep_place, offsets_kept, put_kept, put_under};
pub use frames::{
    Site, call_results, declared_scalars, first_free, first_of_local, parameter_scalars,
    result_scalars,
};
pub use locations::{
    check_size, has_index, has_offset, put_again, put_check, put_contents, put_store,
};
pub use operators::{
    member_size, put_behind, put_between, put_member, put_routine, routine_size, size_behind,
    size_between,
};
pub use refusal::PartRefusal;
pub use repeating::{put_scalars, scalars_size};
pub use sizes::{call_size, expr_size, place_size, received_size, received_sizes};
pub use values::{
    put_all_received, put_call, put_expr, put_place, put_received, put_start, scalars_of,
};
