// Operators on the numbers of constants (Z.200, chapter on values and operations).
ghost use Rattle.std.specs.Prelude.{◌≡◌, ◌∷◌, [], IfOk, option_map, slice_get};
ghost use Rattle.checks_model.specs.ValueTrees as trees;
ghost use Rattle.checks_model.specs.OperatorValues.{arithmetic, logic};
ghost use Rattle.constant_values.specs.Comparisons.{compared, value_on_numbers};

use chill_base::{Memory, Scalars};
use chill_tree::tree::Operator;
use class_operators::{is_arithmetic, is_logic};
use number_operators::{
    difference, is_true, modulus_of, product, quotient_of, remainder_of, sum, truth_from,
};
use std::alloc::Global;

/// The greatest number of INT.
pub const GREATEST: i64 = 2_147_483_647;

/// The result of an operator on two numbers of INT, or none where it raises an exception.
pub fn arithmetic(operator: Operator, left: i64, right: i64) -> Option<i64>
    ensures { option_map trees.number result ≡ arithmetic operator left right }
{
    match operator {
        Operator::Plus => sum(left, right),
        Operator::Minus => difference(left, right),
        Operator::Times => product(left, right),
        Operator::Divide => quotient_of(left, right),
        Operator::Rem => remainder_of(left, right),
        Operator::Mod => modulus_of(left, right),
        Operator::Or
        | Operator::Xor
        | Operator::OrIf
        | Operator::And
        | Operator::AndIf
        | Operator::Equal
        | Operator::NotEqual
        | Operator::Less
        | Operator::LessOrEqual
        | Operator::Greater
        | Operator::GreaterOrEqual
        | Operator::In => None,
    }
}

/// The result of an operator on two truth values. ORIF and ANDIF have both their operands looked at.
pub fn logic(operator: Operator, left: bool, right: bool) -> bool
    ensures { result ≡ logic operator left right }
{
    match operator {
        Operator::Or | Operator::OrIf => left || right,
        Operator::And | Operator::AndIf => left && right,
        Operator::Minus => left && !right,
        Operator::Xor
        | Operator::Equal
        | Operator::NotEqual
        | Operator::Less
        | Operator::LessOrEqual
        | Operator::Greater
        | Operator::GreaterOrEqual
        | Operator::In
        | Operator::Plus
        | Operator::Times
        | Operator::Divide
        | Operator::Mod
        | Operator::Rem => (left || right) && !(left && right),
    }
}

/// Whether a comparison holds between two values, of which the first is less, the same, or greater.
pub fn compared(operator: Operator, is_less: bool, is_same: bool, is_greater: bool) -> bool
    ensures { result ≡ compared operator is_less is_same is_greater }
{
    match operator {
        Operator::Equal => is_same,
        Operator::NotEqual => !is_same,
        Operator::Less => is_less,
        Operator::LessOrEqual => is_less || is_same,
        Operator::Greater => is_greater,
        Operator::GreaterOrEqual => is_greater || is_same,
        Operator::Plus
        | Operator::Minus
        | Operator::Times
        | Operator::Divide
        | Operator::Mod
        | Operator::Rem
        | Operator::Or
        | Operator::And
        | Operator::Xor
        | Operator::OrIf
        | Operator::AndIf
        | Operator::In => false,
    }
}

// Whether a comparison holds between two numbers.
fn compared_numbers(operator: Operator, left: i64, right: i64) -> bool
    ensures { result ≡ compared operator (trees.is_less (trees.number left) (trees.number right)) (trees.same_value (trees.number left) (trees.number right)) (trees.is_less (trees.number right) (trees.number left)) }
{
    let is_up = left <= right;
    let is_down = right <= left;
    compared(
        operator,
        is_up && !is_down,
        is_up && is_down,
        is_down && !is_up,
    )
}

/// The value of an operator on two numbers, or none where it raises an exception.
pub fn value_on_numbers(operator: Operator, left: i64, right: i64) -> Option<i64>
    ensures { option_map trees.number result ≡ value_on_numbers operator left right }
{
    if is_arithmetic(operator) {
        return arithmetic(operator, left, right);
    }
    if is_logic(operator) {
        return Some(truth_from(logic(operator, is_true(left), is_true(right))));
    }
    Some(truth_from(compared_numbers(operator, left, right)))
}

/// A list of one number.
pub fn single(alloc: Global, number: i64) -> Result<Scalars, Memory>
    ensures { IfOk result (λ r. r ≡ number ∷ []) }
{
    let mut found = Scalars::new(alloc);
    found.push(number)?;
    Ok(found)
}

/// The list of one number, where there is one.
pub fn some_single(alloc: Global, number: Option<i64>) -> Result<Option<Scalars>, Memory>
    ensures { IfOk result (λ r. r ≡ option_map (λ n. n ∷ []) number) }
{
    match number {
        None => Ok(None),
        Some(number) => Ok(Some(single(alloc, number)?)),
    }
}

/// The first number of a list.
pub fn first(numbers: &Scalars) -> Option<i64>
    ensures { result ≡ slice_get numbers.now 0 }
{
    numbers.as_slice().first().copied()
}
