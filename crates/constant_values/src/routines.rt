// The values of predefined routines in constants, by the flat scalars of their argument (Z.200, chapter on values).
ghost use Rattle.std.specs.Prelude.{◌≡◌, ℕ, ◌<◌, ◌≤◌, Bool, List, Some, pos, IsTrue, option_map, length};
ghost use Rattle.modes.specs.ModeTree.{ClassTree, class_tree, mode_tree};
ghost use Rattle.modes.specs.Form.{of_powerset};
ghost use Rattle.modes.specs.Bounds.{bounds_of, values_of};
ghost use Rattle.class_operators.specs.Predefined.{predefined_tree};
ghost use Rattle.checks_model.specs.ValueTrees as trees;
ghost use Rattle.checks_model.specs.ValueTrees.{ValueTree};
ghost use Rattle.checks_model.specs.Operations.{form_in};
ghost use Rattle.checks_model.specs.OperatorValues as model;
ghost use Rattle.constant_values.specs.Fits.{few_members};
ghost use Rattle.constant_values.specs.Operands.{IsArgument, IsSet};

use crate::forms::member_in;
use crate::numbers::first;
use crate::sets::{count, greatest, least};
use chill_base::Scalars;
use class_operators::Predefined;
use modes::{Bounds, Class, Mode, bounds, number_of_values};
use number_operators::{magnitude_of, predecessor, successor};

// The value of a routine of a number, or none where it raises an exception.
fn value_of_number(own: Predefined, class: &Class, number: i64) -> Option<i64>
    ensures { option_map trees.number result ≡ model.value_of_routine (predefined_tree own) (class_tree class.now) (trees.number number) }
{
    match own {
        Predefined::Num => Some(number),
        Predefined::Succ => match bounds_in(class) {
            None => None,
            Some(Bounds { high, .. }) => successor(high, number),
        },
        Predefined::Pred => match bounds_in(class) {
            None => None,
            Some(Bounds { low, .. }) => predecessor(low, number),
        },
        Predefined::Abs => magnitude_of(number),
        Predefined::Card
        | Predefined::Min
        | Predefined::Max
        | Predefined::Int
        | Predefined::Bool
        | Predefined::Char
        | Predefined::Instance
        | Predefined::True
        | Predefined::False
        | Predefined::Null
        | Predefined::Upper
        | Predefined::Lower
        | Predefined::Size
        | Predefined::PutInt
        | Predefined::PutText
        | Predefined::PutLine
        | Predefined::GetInt => None,
    }
}

// The bounds of the mode of a class.
fn bounds_in(class: &Class) -> Option<Bounds>
    ensures { result ≡ model.class_bounds (class_tree class.now) }
{
    match class {
        Class::Value(mode) => bounds(mode),
        Class::Derived(mode) => bounds(mode),
        Class::Null | Class::Nothing => None,
    }
}

// The number at an offset from the least of a mode.
#[tactic(auto, using(crate::proofs::Offsets::below_high))]
fn number_at(member: &Mode, offset: Option<u64>) -> Option<i64>
    ensures { ((k : ℕ) → offset ≡ Some k → k < values_of (mode_tree member.now)) → option_map trees.number result ≡ model.at_offset (bounds_of (mode_tree member.now)) offset }
{
    match (bounds(member), offset) {
        (Some(Bounds { low, .. }), Some(offset)) => low.checked_add_unsigned(offset),
        (None, _) | (_, None) => None,
    }
}

// A count as a number.
fn in_number(count: u64) -> Option<i64>
    ensures { count ≤ 4294967296 → result ≡ Some (pos count) }
{
    i64::try_from(count).ok()
}

// The value of a routine of a powerset of the values of a mode, or none where it raises an exception.
fn value_of_set(own: Predefined, member: &Mode, set: &Scalars) -> Option<i64>
    ensures { (c : ClassTree) (bs : List Bool) → form_in c ≡ Some (of_powerset (mode_tree member.now)) → IsSet bs (values_of (mode_tree member.now)) set.now → IsTrue (few_members (length bs)) →
        option_map trees.number result ≡ model.value_of_routine (predefined_tree own) c (trees.members bs) }
{
    let size = number_of_values(member);
    match own {
        Predefined::Card => in_number(count(set, size)),
        Predefined::Min => number_at(member, least(set, size)),
        Predefined::Max => number_at(member, greatest(set, size)),
        Predefined::Num
        | Predefined::Succ
        | Predefined::Pred
        | Predefined::Abs
        | Predefined::Int
        | Predefined::Bool
        | Predefined::Char
        | Predefined::Instance
        | Predefined::True
        | Predefined::False
        | Predefined::Null
        | Predefined::Upper
        | Predefined::Lower
        | Predefined::Size
        | Predefined::PutInt
        | Predefined::PutText
        | Predefined::PutLine
        | Predefined::GetInt => None,
    }
}

/// The value of a routine of one value that fits it, or none where it raises an exception.
pub fn value_of_routine(own: Predefined, class: &Class, value: &Scalars) -> Option<i64>
    ensures { (v : ValueTree) → IsArgument (predefined_tree own) (class_tree class.now) v value.now → option_map trees.number result ≡ model.value_of_routine (predefined_tree own) (class_tree class.now) v }
{
    if let Some(member) = member_in(class) {
        return value_of_set(own, member, value);
    }
    match first(value) {
        None => None,
        Some(number) => value_of_number(own, class, number),
    }
}
