// The operators of the code on single numbers and on powersets. Each gives exactly what its definition in `code_types` says,
// for all numbers of 64 bits, and takes no memory.

mod arithmetic;
mod conversions;
mod lists;
mod powersets;

pub use arithmetic::{
    difference, index_offset, int_or_none, magnitude_of, modulus_of, negation, predecessor,
    product, quotient_of, remainder_of, successor, sum, within_bounds,
};
pub use conversions::{exception_with, is_true, number_of, offset_from, thing_from, truth_from};
pub use lists::{are_same, comes_first};
pub use powersets::{
    all_members, common_members, count_members, greatest_member, has_offset_in, includes,
    least_member, members_without, missing_members, offsets_between, single_members,
};
