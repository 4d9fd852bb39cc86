// The order of diagnostics, and the list in that order.
ghost use Rattle.std.specs.Prelude.{◌≡◌, List};
ghost use Rattle.std.specs.List.Sorted.{IsStrictlySortedBy};
ghost use Rattle.diagnostics.specs.declared.diagnostic.Diagnostic.{Diagnostic};
ghost use Rattle.diagnostics.specs.Listing.{SameMembers, listed};
ghost use Rattle.diagnostics.specs.Order.{diagnostic_cmp, rule_number};

use crate::{Diagnostic, Rule};
use std::cmp::Ordering;

// How two diagnostics stand to each other: by line, column, rule, first name and second name.
fn compare(left: &Diagnostic, right: &Diagnostic) -> Ordering
    ensures { result ≡ diagnostic_cmp left.now right.now }
{
    let lines = left.at.line.cmp(&right.at.line);
    let columns = left.at.column.cmp(&right.at.column);
    let rules = number(left.rule).cmp(&number(right.rule));
    let firsts = left.first.as_slice().cmp(&right.first.as_slice());
    let seconds = left.second.as_slice().cmp(&right.second.as_slice());
    lines.then(columns).then(rules).then(firsts).then(seconds)
}

// A rule's place in the table.
fn number(rule: Rule) -> u8
    ensures { result ≡ rule_number rule }
{
    rule as u8
}

/// Puts diagnostics in order and keeps each once. It takes no memory and copies no text.
pub fn list_once(diagnostics: &mut Vec<Diagnostic>)
    ensures { diagnostics.new.items ≡ listed diagnostic_cmp diagnostics.old.items }
{
    diagnostics.sort_unstable_by(compare);
    diagnostics.dedup_by(|later, kept| compare(later, kept).is_eq());
}

/// Diagnostics that were collected in another order, or more than once, have the same list.
pub fn same_list_law()
    ensures { (xs ys : List Diagnostic) → SameMembers xs ys → listed diagnostic_cmp xs ≡ listed diagnostic_cmp ys }
{}

/// The list of diagnostics is strictly in order, and has the members that were collected and no others.
pub fn listed_law()
    ensures ordered { (xs : List Diagnostic) → IsStrictlySortedBy diagnostic_cmp (listed diagnostic_cmp xs) }
    ensures members { (xs : List Diagnostic) → SameMembers xs (listed diagnostic_cmp xs) }
{}
