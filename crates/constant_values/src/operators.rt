// The values of operators in constants, by the flat scalars of their operands (Z.200, chapter on operations).
ghost use Rattle.std.specs.Prelude.{◌≡◌, ◌&&◌, ◌∷◌, [], Some, List, Bool, ℤ, neg_ℤ, not, IfOk, IsTrue, is_some, option_map, length};
ghost use Rattle.chill_tree.specs.declared.tree.expr.Prefix.TheVariants as prefixes;
ghost use Rattle.modes.specs.ModeTree.{ClassTree, class_tree, mode_tree};
ghost use Rattle.modes.specs.Form.{of_powerset};
ghost use Rattle.modes.specs.Bounds.{bounds_of};
ghost use Rattle.scalar_operators.specs.Numbers.{truth_of, comes_before, same_numbers};
ghost use Rattle.checks_model.specs.ValueTrees as trees;
ghost use Rattle.checks_model.specs.ValueTrees.{ValueTree, members, scalars_in};
ghost use Rattle.checks_model.specs.Operations.{form_in};
ghost use Rattle.checks_model.specs.OperatorValues as model;
ghost use Rattle.checks_model.specs.OperatorValues.{is_in};
ghost use Rattle.constant_values.specs.Fits.{is_number};
ghost use Rattle.constant_values.specs.Comparisons as comparisons;
ghost use Rattle.constant_values.specs.Comparisons.{compared, compared_values, value_on_sets};
ghost use Rattle.constant_values.specs.Operands.{AreOperands, IsTaken, IsSet};

use crate::forms::{has_parts, is_membership, member_in};
use crate::numbers::{compared, first, some_single, value_on_numbers};
use crate::sets::{combined_sets, complement, has_number, is_included};
use checks_model::tests_law;
use chill_base::{Memory, Scalars};
use chill_tree::tree::{Operator, Prefix};
use class_operators::is_on_sets;
use modes::{Bounds, Class, Mode, bounds, number_of_values};
use number_operators::{are_same, comes_first, is_true, negation, truth_from};
use std::alloc::Global;

// Whether a value is a member of a powerset.
fn is_member(member: &Mode, left: &Scalars, right: &Scalars) -> bool
    ensures { (v : ValueTree) (bs : List Bool) → (IsTrue (is_some (bounds_of (mode_tree member.now))) → IsTrue (is_number v)) → scalars_in v ≡ left.now → scalars_in (members bs) ≡ right.now →
        result ≡ is_in v (bounds_of (mode_tree member.now)) (members bs) }
{
    match (first(left), bounds(member)) {
        (Some(number), Some(Bounds { low, .. })) => has_number(right, number, low),
        (None, _) | (_, None) => false,
    }
}

// Whether a comparison holds between two powersets, of which the one is in the other.
fn compared_by(operator: Operator, is_within: bool, is_around: bool) -> bool
    ensures { result ≡ compared operator (is_within && not (is_within && is_around)) (is_within && is_around) (is_around && not (is_within && is_around)) }
{
    let is_same = is_within && is_around;
    compared(
        operator,
        is_within && !is_same,
        is_same,
        is_around && !is_same,
    )
}

// Whether a comparison holds between two powersets of so many members.
fn compared_sets(operator: Operator, left: &Scalars, right: &Scalars, size: u64) -> bool
    ensures { (as' bs : List Bool) → IsSet as' size left.now → IsSet bs size right.now → result ≡ compared_values operator (members as') (members bs) }
{
    compared_by(
        operator,
        is_included(left, right, size),
        is_included(right, left, size),
    )
}

// The value of an operator between two powersets of so many members.
fn value_of_sets(
    alloc: Global,
    operator: Operator,
    left: &Scalars,
    right: &Scalars,
    size: u64,
) -> Result<Option<Scalars>, Memory>
    ensures { (as' bs : List Bool) → IsSet as' size left.now → IsSet bs size right.now → IfOk result (λ r. r ≡ option_map scalars_in (value_on_sets operator as' bs)) }
{
    if is_on_sets(operator) {
        return Ok(Some(combined_sets(alloc, operator, left, right)?));
    }
    some_single(
        alloc,
        Some(truth_from(compared_sets(operator, left, right, size))),
    )
}

// Whether a comparison holds between two texts, arrays or structures.
fn compared_parts(operator: Operator, left: &Scalars, right: &Scalars) -> bool
    ensures { length left.now ≡ length right.now → result ≡ compared operator (comes_before left.now right.now) (same_numbers left.now right.now) (comes_before right.now left.now) }
{
    let mine = left.as_slice();
    let theirs = right.as_slice();
    if mine.len() != theirs.len() {
        return false;
    }
    compared(
        operator,
        comes_first(mine, theirs),
        are_same(mine, theirs),
        comes_first(theirs, mine),
    )
}

// The value of an operator between a value and a powerset of the values of a mode.
fn value_with_set(
    alloc: Global,
    operator: Operator,
    member: &Mode,
    left: &Scalars,
    right: &Scalars,
) -> Result<Option<Scalars>, Memory>
    ensures { (c d : ClassTree) (v w : ValueTree) → form_in d ≡ Some (of_powerset (mode_tree member.now)) → AreOperands operator c d v w left.now right.now →
        IfOk result (λ r. r ≡ option_map scalars_in (model.value_of_binary operator d v w)) }
{
    tests_law();
    if is_membership(operator) {
        return some_single(alloc, Some(truth_from(is_member(member, left, right))));
    }
    value_of_sets(alloc, operator, left, right, number_of_values(member))
}

// The value of an operator between two numbers.
fn value_of_numbers(
    alloc: Global,
    operator: Operator,
    left: &Scalars,
    right: &Scalars,
) -> Result<Option<Scalars>, Memory>
    ensures { (a b : ℤ) → left.now ≡ a ∷ [] → right.now ≡ b ∷ [] → IfOk result (λ r. r ≡ option_map scalars_in (comparisons.value_on_numbers operator a b)) }
{
    match (first(left), first(right)) {
        (Some(one), Some(other)) => some_single(alloc, value_on_numbers(operator, one, other)),
        (None, _) | (_, None) => Ok(None),
    }
}

/// The value of an operator between two operands that fit it, the right one of a class, or none where it raises an exception.
pub fn value_of_binary(
    alloc: Global,
    operator: Operator,
    class: &Class,
    left: &Scalars,
    right: &Scalars,
) -> Result<Option<Scalars>, Memory>
    ensures { (c : ClassTree) (v w : ValueTree) → AreOperands operator c (class_tree class.now) v w left.now right.now → IfOk result (λ r. r ≡ option_map scalars_in (model.value_of_binary operator (class_tree class.now) v w)) }
{
    tests_law();
    if let Some(member) = member_in(class) {
        return value_with_set(alloc, operator, member, left, right);
    }
    if has_parts(class) {
        let holds = compared_parts(operator, left, right);
        return some_single(alloc, Some(truth_from(holds)));
    }
    value_of_numbers(alloc, operator, left, right)
}

// The number with its sign turned, where it is one of INT.
fn turned(number: Option<i64>) -> Option<i64>
    ensures { (n : ℤ) → number ≡ Some n → option_map trees.number result ≡ model.in_int (neg_ℤ n) }
{
    match number {
        None => None,
        Some(number) => negation(number),
    }
}

// The other truth value.
fn opposite(number: Option<i64>) -> Option<i64>
    ensures { (n : ℤ) → number ≡ Some n → option_map trees.number result ≡ Some (model.truth_value (not (truth_of n))) }
{
    match number {
        None => None,
        Some(number) => Some(truth_from(!is_true(number))),
    }
}

// NOT of an operand of a class.
fn negated(alloc: Global, class: &Class, operand: &Scalars) -> Result<Option<Scalars>, Memory>
    ensures { (v : ValueTree) → IsTaken prefixes.Not (class_tree class.now) v operand.now → IfOk result (λ r. r ≡ option_map scalars_in (model.value_of_unary prefixes.Not v)) }
{
    if let Some(member) = member_in(class) {
        return Ok(Some(complement(alloc, operand, number_of_values(member))?));
    }
    some_single(alloc, opposite(first(operand)))
}

/// The value of an operator before an operand that fits it, or none where it raises an exception.
pub fn value_of_unary(
    alloc: Global,
    operator: Prefix,
    class: &Class,
    operand: &Scalars,
) -> Result<Option<Scalars>, Memory>
    ensures { (v : ValueTree) → IsTaken operator (class_tree class.now) v operand.now → IfOk result (λ r. r ≡ option_map scalars_in (model.value_of_unary operator v)) }
{
    match operator {
        Prefix::Minus => some_single(alloc, turned(first(operand))),
        Prefix::Not => negated(alloc, class, operand),
    }
}
