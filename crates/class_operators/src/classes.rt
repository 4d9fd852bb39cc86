// The table of operators and routines: which operands fit, and the class of the result.
ghost use Rattle.std.specs.Prelude.{◌≡◌, not, IfOk, option_map};
ghost use Rattle.modes.specs.ModeTree.{mode_tree, class_tree, derived, boolean, int};
ghost use Rattle.modes.specs.Form.{form_of};
ghost use Rattle.checks_model.specs.Alike.{is_int, is_boolean, is_powerset, is_meeting, is_discrete, class_is, goes_with, are_compatible};
ghost use Rattle.checks_model.specs.Operations.{when, their_class, is_arithmetic, is_logic, is_on_sets, is_equality, is_order, has_order, takes, can_be_member, class_of_in, class_of_binary, class_of_unary, class_of_routine, form_in, member_class, measured_mode, class_of_measure};
ghost use Rattle.class_operators.specs.Predefined.{predefined_tree};

use crate::predefined::Predefined;
use checks_model::tests_law;
use chill_base::Memory;
use chill_tree::tree::{Operator, Prefix};
use modes::{Class, Form, Mode, bounds, compatible, form_of, goes_with, root};
use std::alloc::Global;
use std::rc::Rc;

/// Whether a class goes with a mode.
pub fn goes(class: &Class, mode: &Mode) -> bool
    ensures { result ≡ goes_with (class_tree class.now) (mode_tree mode.now) }
{
    tests_law();
    goes_with(class, mode)
}

// Whether two classes are compatible.
fn fit(left: &Class, right: &Class) -> bool
    ensures { result ≡ are_compatible (class_tree left.now) (class_tree right.now) }
{
    tests_law();
    compatible(left, right)
}

fn mode_is_int(mode: &Mode) -> bool
    ensures { result ≡ is_int (form_of (mode_tree mode.now)) }
{
    matches!(form_of(mode), Form::Int)
}

fn mode_is_boolean(mode: &Mode) -> bool
    ensures { result ≡ is_boolean (form_of (mode_tree mode.now)) }
{
    matches!(form_of(mode), Form::Bool)
}

fn mode_is_powerset(mode: &Mode) -> bool
    ensures { result ≡ is_powerset (form_of (mode_tree mode.now)) }
{
    matches!(form_of(mode), Form::Powerset(_))
}

/// Whether the mode is one of events or buffers.
pub fn mode_is_meeting(mode: &Mode) -> bool
    ensures { result ≡ is_meeting (form_of (mode_tree mode.now)) }
{
    matches!(form_of(mode), Form::Meeting)
}

/// Whether the mode is discrete.
pub fn mode_is_discrete(mode: &Mode) -> bool
    ensures { result ≡ is_discrete (form_of (mode_tree mode.now)) }
{
    matches!(
        form_of(mode),
        Form::Int | Form::Bool | Form::Char | Form::Set { .. }
    )
}

fn mode_has_order(mode: &Mode) -> bool
    ensures { result ≡ has_order (form_of (mode_tree mode.now)) }
{
    matches!(
        form_of(mode),
        Form::Int | Form::Bool | Form::Char | Form::Set { .. } | Form::Chars(_) | Form::Powerset(_)
    )
}

fn is_of_int(class: &Class) -> bool
    ensures { result ≡ class_is is_int (class_tree class.now) }
{
    match class {
        Class::Value(mode) => mode_is_int(mode),
        Class::Derived(mode) => mode_is_int(mode),
        Class::Null | Class::Nothing => false,
    }
}

fn is_of_boolean(class: &Class) -> bool
    ensures { result ≡ class_is is_boolean (class_tree class.now) }
{
    match class {
        Class::Value(mode) => mode_is_boolean(mode),
        Class::Derived(mode) => mode_is_boolean(mode),
        Class::Null | Class::Nothing => false,
    }
}

fn is_of_powerset(class: &Class) -> bool
    ensures { result ≡ class_is is_powerset (class_tree class.now) }
{
    match class {
        Class::Value(mode) => mode_is_powerset(mode),
        Class::Derived(mode) => mode_is_powerset(mode),
        Class::Null | Class::Nothing => false,
    }
}

fn is_of_meeting(class: &Class) -> bool
    ensures { result ≡ class_is is_meeting (class_tree class.now) }
{
    match class {
        Class::Value(mode) => mode_is_meeting(mode),
        Class::Derived(mode) => mode_is_meeting(mode),
        Class::Null | Class::Nothing => false,
    }
}

/// Whether a class has a discrete mode.
pub fn is_of_discrete(class: &Class) -> bool
    ensures { result ≡ class_is is_discrete (class_tree class.now) }
{
    match class {
        Class::Value(mode) => mode_is_discrete(mode),
        Class::Derived(mode) => mode_is_discrete(mode),
        Class::Null | Class::Nothing => false,
    }
}

fn is_of_order(class: &Class) -> bool
    ensures { result ≡ class_is has_order (class_tree class.now) }
{
    match class {
        Class::Value(mode) => mode_has_order(mode),
        Class::Derived(mode) => mode_has_order(mode),
        Class::Null | Class::Nothing => false,
    }
}

// Whether the operand goes with the member mode of a powerset.
fn goes_with_member(class: &Class, set: &Mode) -> bool
    ensures { result ≡ can_be_member (class_tree class.now) (derived (mode_tree set.now)) }
{
    match form_of(set) {
        Form::Powerset(member) => goes(class, member),
        Form::Int
        | Form::Bool
        | Form::Char
        | Form::Instance
        | Form::Set { .. }
        | Form::Chars(_)
        | Form::Array { .. }
        | Form::Struct { .. }
        | Form::Meeting => false,
    }
}

// Whether IN takes the operands.
fn can_be_member(left: &Class, right: &Class) -> bool
    ensures { result ≡ can_be_member (class_tree left.now) (class_tree right.now) }
{
    match right {
        Class::Value(mode) => goes_with_member(left, mode),
        Class::Derived(mode) => goes_with_member(left, mode),
        Class::Null | Class::Nothing => false,
    }
}

/// Whether an operator is one of `+ - * / MOD REM`.
pub fn is_arithmetic(operator: Operator) -> bool
    ensures { result ≡ is_arithmetic operator }
{
    matches!(
        operator,
        Operator::Plus
            | Operator::Minus
            | Operator::Times
            | Operator::Divide
            | Operator::Mod
            | Operator::Rem
    )
}

/// Whether an operator is one of `OR AND XOR ORIF ANDIF`.
pub fn is_logic(operator: Operator) -> bool
    ensures { result ≡ is_logic operator }
{
    matches!(
        operator,
        Operator::Or | Operator::Xor | Operator::OrIf | Operator::And | Operator::AndIf
    )
}

/// Whether an operator of two powersets gives one.
pub fn is_on_sets(operator: Operator) -> bool
    ensures { result ≡ is_on_sets operator }
{
    matches!(
        operator,
        Operator::Minus | Operator::Or | Operator::And | Operator::Xor
    )
}

fn is_equality(operator: Operator) -> bool
    ensures { result ≡ is_equality operator }
{
    matches!(operator, Operator::Equal | Operator::NotEqual)
}

fn is_order(operator: Operator) -> bool
    ensures { result ≡ is_order operator }
{
    matches!(
        operator,
        Operator::Less | Operator::LessOrEqual | Operator::Greater | Operator::GreaterOrEqual
    )
}

// Whether an operator takes operands of a class, and gives a result of theirs.
fn takes(operator: Operator, class: &Class) -> bool
    ensures { result ≡ takes operator (class_tree class.now) }
{
    (is_arithmetic(operator) && is_of_int(class))
        || ((is_on_sets(operator) && is_of_powerset(class))
            || (is_logic(operator) && is_of_boolean(class)))
}

// BOOL, where operands fit.
#[tactic(auto, using(modes::proofs::ModeViews::mode_built))]
fn truth_if(alloc: Global, holds: bool) -> Result<Option<Class>, Memory>
    ensures { IfOk result (λ c. option_map class_tree c ≡ when holds (derived boolean)) }
{
    if !holds {
        return Ok(None);
    }
    Ok(Some(Class::Derived(Rc::new(alloc, Mode::Bool)?)))
}

// INT, where an argument fits.
#[tactic(auto, using(modes::proofs::ModeViews::mode_built))]
fn int_if(alloc: Global, holds: bool) -> Result<Option<Class>, Memory>
    ensures { IfOk result (λ c. option_map class_tree c ≡ when holds (derived int)) }
{
    if !holds {
        return Ok(None);
    }
    Ok(Some(Class::Derived(Rc::new(alloc, Mode::Int)?)))
}

/// The class of a result that has its operands' class: Value of the root where one is Value, else Derived of it.
pub fn their_class(alloc: Global, left: &Class, right: &Class) -> Result<Option<Class>, Memory>
    ensures { IfOk result (λ c. option_map class_tree c ≡ their_class (class_tree left.now) (class_tree right.now)) }
{
    match (left, right) {
        (Class::Value(mode), _) => Ok(Some(Class::Value(root(alloc, mode)?))),
        (_, Class::Value(mode)) => Ok(Some(Class::Value(root(alloc, mode)?))),
        (Class::Derived(mode), _) => Ok(Some(Class::Derived(root(alloc, mode)?))),
        (Class::Null, _) | (Class::Nothing, _) => Ok(None),
    }
}

// IN.
fn class_of_in(
    alloc: Global,
    operator: Operator,
    left: &Class,
    right: &Class,
) -> Result<Option<Class>, Memory>
    ensures { IfOk result (λ c. option_map class_tree c ≡ class_of_in operator (class_tree left.now) (class_tree right.now)) }
{
    if operator != Operator::In {
        return Ok(None);
    }
    truth_if(alloc, can_be_member(left, right))
}

/// The class of the result of an operator between two operands, or none where they don't fit it.
pub fn class_of_binary(
    alloc: Global,
    operator: Operator,
    left: &Class,
    right: &Class,
) -> Result<Option<Class>, Memory>
    ensures { IfOk result (λ c. option_map class_tree c ≡ class_of_binary operator (class_tree left.now) (class_tree right.now)) }
{
    if is_equality(operator) {
        return truth_if(
            alloc,
            fit(left, right) && !(is_of_meeting(left) || is_of_meeting(right)),
        );
    }
    if is_order(operator) {
        return truth_if(alloc, fit(left, right) && is_of_order(left));
    }
    if takes(operator, left) && fit(left, right) {
        return their_class(alloc, left, right);
    }
    class_of_in(alloc, operator, left, right)
}

/// The class of the result of an operator before an operand, or none where it doesn't fit.
pub fn class_of_unary(
    alloc: Global,
    operator: Prefix,
    operand: &Class,
) -> Result<Option<Class>, Memory>
    ensures { IfOk result (λ c. option_map class_tree c ≡ class_of_unary operator (class_tree operand.now)) }
{
    let fits = match operator {
        Prefix::Minus => is_of_int(operand),
        Prefix::Not => is_of_boolean(operand) || is_of_powerset(operand),
    };
    if !fits {
        return Ok(None);
    }
    their_class(alloc, operand, operand)
}

/// An equal class.
pub fn copied(class: &Class) -> Result<Class, Memory>
    ensures { IfOk result (λ c. class_tree c ≡ class_tree class.now) }
{
    match class {
        Class::Value(mode) => Ok(Class::Value(mode.clone()?)),
        Class::Derived(mode) => Ok(Class::Derived(mode.clone()?)),
        Class::Null => Ok(Class::Null),
        Class::Nothing => Ok(Class::Nothing),
    }
}

// The class of an argument, where that fits.
fn copied_if(holds: bool, class: &Class) -> Result<Option<Class>, Memory>
    ensures { IfOk result (λ c. option_map class_tree c ≡ when holds (class_tree class.now)) }
{
    if !holds {
        return Ok(None);
    }
    Ok(Some(copied(class)?))
}

// The class of the members of a powerset.
fn class_of_members(set: &Mode) -> Result<Option<Class>, Memory>
    ensures { IfOk result (λ c. option_map class_tree c ≡ member_class (form_in (derived (mode_tree set.now)))) }
{
    match form_of(set) {
        Form::Powerset(member) => Ok(Some(Class::Value(member.clone()?))),
        Form::Int
        | Form::Bool
        | Form::Char
        | Form::Instance
        | Form::Set { .. }
        | Form::Chars(_)
        | Form::Array { .. }
        | Form::Struct { .. }
        | Form::Meeting => Ok(None),
    }
}

// The class of the least or the greatest member.
fn member_class(class: &Class) -> Result<Option<Class>, Memory>
    ensures { IfOk result (λ c. option_map class_tree c ≡ member_class (form_in (class_tree class.now))) }
{
    match class {
        Class::Value(mode) => class_of_members(mode),
        Class::Derived(mode) => class_of_members(mode),
        Class::Null | Class::Nothing => Ok(None),
    }
}

/// The class of the result of a routine of one value, or none where the argument doesn't fit.
pub fn class_of_routine(
    alloc: Global,
    own: Predefined,
    arg: &Class,
) -> Result<Option<Class>, Memory>
    ensures { IfOk result (λ c. option_map class_tree c ≡ class_of_routine (predefined_tree own) (class_tree arg.now)) }
{
    match own {
        Predefined::Num => int_if(alloc, is_of_discrete(arg)),
        Predefined::Succ | Predefined::Pred => copied_if(is_of_discrete(arg), arg),
        Predefined::Abs => {
            if !is_of_int(arg) {
                return Ok(None);
            }
            their_class(alloc, arg, arg)
        }
        Predefined::Card => int_if(alloc, is_of_powerset(arg)),
        Predefined::Min | Predefined::Max => member_class(arg),
        Predefined::Int
        | Predefined::Bool
        | Predefined::Char
        | Predefined::Instance
        | Predefined::True
        | Predefined::False
        | Predefined::Null
        | Predefined::Upper
        | Predefined::Lower
        | Predefined::Size
        | Predefined::PutInt
        | Predefined::PutText
        | Predefined::PutLine
        | Predefined::GetInt => Ok(None),
    }
}

// INT where SIZE measures the mode: any but one of events or buffers.
fn class_of_size(alloc: Global, mode: &Mode) -> Result<Option<Class>, Memory>
    ensures { IfOk result (λ c. option_map class_tree c ≡ when (not (is_meeting (form_of (mode_tree mode.now)))) (derived int)) }
{
    int_if(alloc, !mode_is_meeting(mode))
}

/// What UPPER and LOWER measure: the index mode of an array, else the mode itself.
pub fn measured_mode(mode: &Rc<Mode>) -> &Rc<Mode>
    ensures { mode_tree result.now.value ≡ measured_mode (mode_tree mode.now.value) (form_of (mode_tree mode.now.value)) }
{
    match form_of(mode) {
        Form::Array { index, .. } => index,
        Form::Int
        | Form::Bool
        | Form::Char
        | Form::Instance
        | Form::Set { .. }
        | Form::Powerset(_)
        | Form::Chars(_)
        | Form::Struct { .. }
        | Form::Meeting => mode,
    }
}

/// The class of UPPER, LOWER or SIZE of a mode, or none where the mode doesn't fit.
pub fn class_of_measure(
    alloc: Global,
    own: Predefined,
    mode: &Rc<Mode>,
) -> Result<Option<Class>, Memory>
    ensures { IfOk result (λ c. option_map class_tree c ≡ class_of_measure (predefined_tree own) (mode_tree mode.now.value)) }
{
    if own == Predefined::Size {
        return class_of_size(alloc, mode);
    }
    let of = measured_mode(mode);
    match bounds(of) {
        None => Ok(None),
        Some(_) => Ok(Some(Class::Derived(of.clone()?))),
    }
}
