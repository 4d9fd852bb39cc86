// Operators and routines of the language, and those of the elaborated program, by the classes of their operands (Z.200,
// chapter on operations).
use checked_program::{Binary, Prefix, Routine};
use chill_tree::tree::{Operator, Prefix as WrittenPrefix};
use class_operators::{form_in, mode_in};
use modes::{Class, Form, Mode, bounds, number_of_values};
use program_numbers::Predefined;

/// The operator between operands of these classes, or none where it takes no such operands.
pub fn operator_between(operator: Operator, left: &Class, right: &Class) -> Option<Binary> {
    match operator {
        Operator::Equal => Some(Binary::Equal),
        Operator::NotEqual => Some(Binary::NotEqual),
        Operator::In => member_of(right),
        _ => match form_in(left) {
            Some(Form::Powerset(_)) => between_powersets(operator),
            _ => between_numbers(operator),
        },
    }
}

// IN a powerset.
fn member_of(set: &Class) -> Option<Binary> {
    match form_in(set) {
        Some(Form::Powerset(member)) => match bounds(member) {
            None => None,
            Some(bounds) => Some(Binary::Member(bounds)),
        },
        _ => None,
    }
}

// An operator between two powersets.
fn between_powersets(operator: Operator) -> Option<Binary> {
    match operator {
        Operator::Or => Some(Binary::Union),
        Operator::And => Some(Binary::Intersection),
        Operator::Xor => Some(Binary::SymmetricDifference),
        Operator::Minus => Some(Binary::Difference),
        Operator::LessOrEqual => Some(Binary::Included),
        Operator::Less => Some(Binary::ProperlyIncluded),
        Operator::GreaterOrEqual => Some(Binary::Includes),
        Operator::Greater => Some(Binary::ProperlyIncludes),
        Operator::Equal
        | Operator::NotEqual
        | Operator::In
        | Operator::OrIf
        | Operator::AndIf
        | Operator::Plus
        | Operator::Times
        | Operator::Divide
        | Operator::Mod
        | Operator::Rem => None,
    }
}

// An operator between two values of other modes, which fit it.
fn between_numbers(operator: Operator) -> Option<Binary> {
    match operator {
        Operator::Or => Some(Binary::Or),
        Operator::Xor => Some(Binary::Xor),
        Operator::OrIf => Some(Binary::OrIf),
        Operator::And => Some(Binary::And),
        Operator::AndIf => Some(Binary::AndIf),
        Operator::Less => Some(Binary::Less),
        Operator::LessOrEqual => Some(Binary::LessOrEqual),
        Operator::Greater => Some(Binary::Greater),
        Operator::GreaterOrEqual => Some(Binary::GreaterOrEqual),
        Operator::Plus => Some(Binary::Add),
        Operator::Minus => Some(Binary::Subtract),
        Operator::Times => Some(Binary::Multiply),
        Operator::Divide => Some(Binary::Divide),
        Operator::Mod => Some(Binary::Modulo),
        Operator::Rem => Some(Binary::Remainder),
        Operator::Equal | Operator::NotEqual | Operator::In => None,
    }
}

/// The operator before an operand of this class.
pub fn operator_before(operator: WrittenPrefix, operand: &Class) -> Prefix {
    match (operator, form_in(operand)) {
        (WrittenPrefix::Minus, _) => Prefix::Minus,
        (WrittenPrefix::Not, Some(Form::Powerset(member))) => Prefix::Complement {
            members: number_of_members(member),
        },
        (WrittenPrefix::Not, _) => Prefix::Not,
    }
}

// How many members a powerset of a mode's values may have.
fn number_of_members(member: &Mode) -> u32 {
    u32::try_from(number_of_values(member)).unwrap_or(u32::MAX)
}

/// The routine of an argument of this class, or none where it isn't one of a value or takes no such argument.
pub fn routine_on(own: Predefined, argument: &Class) -> Option<Routine> {
    match own {
        Predefined::Num => Some(Routine::Number),
        Predefined::Abs => Some(Routine::Absolute),
        Predefined::Card => Some(Routine::Cardinality),
        Predefined::Succ => {
            let high = bounds(mode_in(argument)?)?.high;
            Some(Routine::Successor { high })
        }
        Predefined::Pred => {
            let low = bounds(mode_in(argument)?)?.low;
            Some(Routine::Predecessor { low })
        }
        Predefined::Min => {
            let low = low_of_members(argument)?;
            Some(Routine::Least { low })
        }
        Predefined::Max => {
            let low = low_of_members(argument)?;
            Some(Routine::Greatest { low })
        }
        _ => None,
    }
}

// The number from which the members of a powerset are counted.
fn low_of_members(set: &Class) -> Option<i64> {
    match form_in(set)? {
        Form::Powerset(member) => Some(bounds(member)?.low),
        _ => None,
    }
}
