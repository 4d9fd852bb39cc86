// Which values need no test: those whose own bounds lie in those of what takes them.
ghost use Rattle.std.specs.Prelude.{◌≡◌};
ghost use Rattle.modes.specs.ModeTree.{mode_tree, class_tree};
ghost use Rattle.modes.specs.Bounds.{bounds_of};
ghost use Rattle.modes.specs.Roots.{root_of};
ghost use Rattle.program_trees.specs.ExprTree.{root_bounds, expr_tree, received_tree};
ghost use Rattle.code_scheme.specs.Pieces.{bounds_to_test, bounds_of_value, bounds_of_constant, bounds_of_operator, tested};

use checked_program::{Binary, Expr, Operation, Received};
use modes::{Bounds, Class, Mode, bounds};

/// The values of INT.
pub const INT: Bounds = Bounds {
    low: -2147483648,
    high: 2147483647,
};

/// The bounds that a value has to be tested against: those of what takes it, or none where its own lie in them.
pub fn bounds_to_test(taker: Option<Bounds>, own: Option<Bounds>) -> Option<Bounds>
    ensures { result ≡ bounds_to_test taker own }
{
    match taker {
        Some(taker) => match own {
            Some(own) if taker.low <= own.low && own.high <= taker.high => None,
            Some(_) | None => Some(taker),
        },
        None => None,
    }
}

/// The bounds that a value has to be tested against that something takes.
#[tactic(auto, using(crate::proofs::Views::tree_built))]
pub fn tested(received: &Received) -> Option<Bounds>
    ensures { result ≡ tested (received_tree received.now) }
{
    bounds_to_test(received.bounds, bounds_of_value(&received.value))
}

/// The bounds in which a value lies by what it is: a constant's own number, else the bounds of the root of its mode.
#[tactic(auto, using(crate::proofs::Views::tree_built))]
pub fn bounds_of_value(value: &Expr) -> Option<Bounds>
    ensures { result ≡ bounds_of_value (expr_tree value.now) }
{
    match &value.operation {
        Operation::Constant(scalars) => bounds_of_constant(scalars.as_slice()),
        Operation::This | Operation::Contents(_) | Operation::PartOf { .. } => {
            bounds_of_class(&value.class)
        }
        Operation::Receive { .. } | Operation::Start(_) | Operation::Call(_) => {
            bounds_of_class(&value.class)
        }
        Operation::Powerset { .. } | Operation::Parts(_) | Operation::Uniform { .. } => {
            bounds_of_class(&value.class)
        }
        Operation::Routine { .. } | Operation::GetInt => bounds_of_class(&value.class),
        Operation::Prefixed { .. } | Operation::Binary { .. } => bounds_of_class(&value.class),
    }
}

// The bounds in which a constant lies: its number, where it is one.
fn bounds_of_constant(scalars: &[i64]) -> Option<Bounds>
    ensures { result ≡ bounds_of_constant scalars.now }
{
    match scalars {
        [number] => Some(Bounds {
            low: *number,
            high: *number,
        }),
        _ => None,
    }
}

// The bounds of the root of a class's mode.
fn bounds_of_class(class: &Class) -> Option<Bounds>
    ensures { result ≡ root_bounds (class_tree class.now) }
{
    match class {
        Class::Value(mode) | Class::Derived(mode) => bounds_of_root(mode),
        Class::Null | Class::Nothing => None,
    }
}

// The bounds of a mode's root, where it is discrete.
#[tactic(auto, using(modes::proofs::ModeViews::mode_built))]
fn bounds_of_root(mode: &Mode) -> Option<Bounds>
    ensures { result ≡ bounds_of (root_of (mode_tree mode.now)) }
{
    match mode {
        Mode::Range { parent, .. } => bounds_of_root(parent),
        Mode::Read { of } | Mode::Named { of, .. } => bounds_of_root(of),
        Mode::Int | Mode::Bool | Mode::Char | Mode::Instance | Mode::Set { .. } => bounds(mode),
        Mode::Powerset { .. } | Mode::Chars { .. } | Mode::Array { .. } => bounds(mode),
        Mode::Struct { .. } | Mode::Event { .. } | Mode::Buffer { .. } => bounds(mode),
    }
}

/// The bounds in which the value of an operator lies: INT for those on numbers, 0 and 1 for those on Booleans.
pub fn bounds_of_operator(operator: Binary) -> Option<Bounds>
    ensures { result ≡ bounds_of_operator operator }
{
    match operator {
        Binary::Add | Binary::Subtract | Binary::Multiply => Some(INT),
        Binary::Divide | Binary::Modulo | Binary::Remainder => Some(INT),
        Binary::And | Binary::Or | Binary::Xor => Some(Bounds { low: 0, high: 1 }),
        _ => None,
    }
}
