//! What the operators of the language make of single numbers: arithmetic on INT, truth values, and the members that one number
//! of a powerset tells of; and lists of numbers, compared.
//!
//! It stands on `scalar_operators`, whose definitions it meets for all numbers of 64 bits, and takes no memory.
#![tactic(auto)]

mod arithmetic;
mod lists;
mod truth;
mod words;

pub use arithmetic::{
    difference, int_or_none, magnitude_of, modulus_of, negation, predecessor, product, quotient_of,
    remainder_of, successor, sum,
};
pub use lists::{are_same, comes_first};
pub use truth::{is_true, truth_from};
pub use words::{
    all_members, common_members, count_members, greatest_member, has_at, has_offset_in, includes,
    least_member, members_without, missing_members, offsets_between, single_members,
};
