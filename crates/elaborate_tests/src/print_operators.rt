// Operators and routines of an elaborated program as texts.
use crate::page::Page;
use checked_program::{Binary, Prefix, Routine};
use chill_base::Memory;

/// Puts a routine, with the bound that it tests or counts from.
pub fn put_routine(page: &mut Page, routine: Routine) -> Result<(), Memory> {
    match routine {
        Routine::Number => page.put("NUM"),
        Routine::Absolute => page.put("ABS"),
        Routine::Cardinality => page.put("CARD"),
        Routine::Successor { high } => put_bounded(page, "SUCC to ", high),
        Routine::Predecessor { low } => put_bounded(page, "PRED to ", low),
        Routine::Least { low } => put_bounded(page, "MIN from ", low),
        Routine::Greatest { low } => put_bounded(page, "MAX from ", low),
    }
}

fn put_bounded(page: &mut Page, word: &str, bound: i64) -> Result<(), Memory> {
    page.put(word)?;
    page.put_number(bound)
}

/// Puts an operator before its operand.
pub fn put_prefix(page: &mut Page, operator: Prefix) -> Result<(), Memory> {
    match operator {
        Prefix::Minus => page.put("minus"),
        Prefix::Not => page.put("not"),
        Prefix::Complement { members } => page.put_with("complement of ", members),
    }
}

/// Puts an operator between two operands.
pub fn put_binary(page: &mut Page, operator: Binary) -> Result<(), Memory> {
    match operator {
        Binary::Add => page.put("add"),
        Binary::Subtract => page.put("subtract"),
        Binary::Multiply => page.put("multiply"),
        Binary::Divide => page.put("divide"),
        Binary::Modulo => page.put("modulo"),
        Binary::Remainder => page.put("remainder"),
        Binary::And => page.put("and"),
        Binary::Or => page.put("or"),
        Binary::Xor => page.put("xor"),
        Binary::AndIf => page.put("andif"),
        Binary::OrIf => page.put("orif"),
        Binary::Equal => page.put("equal"),
        Binary::NotEqual => page.put("not equal"),
        Binary::Less => page.put("less"),
        Binary::LessOrEqual => page.put("less or equal"),
        Binary::Greater => page.put("greater"),
        Binary::GreaterOrEqual => page.put("greater or equal"),
        Binary::Union => page.put("union"),
        Binary::Intersection => page.put("intersection"),
        Binary::SymmetricDifference => page.put("symmetric difference"),
        Binary::Difference => page.put("difference"),
        Binary::Included => page.put("included"),
        Binary::ProperlyIncluded => page.put("properly included"),
        Binary::Includes => page.put("includes"),
        Binary::ProperlyIncludes => page.put("properly includes"),
        Binary::Member(bounds) => page.put_some_bounds("member of ", Some(bounds)),
    }
}
