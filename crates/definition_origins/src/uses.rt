// What the names of a program stand for, by their places.
ghost use Rattle.std.specs.Prelude.{◌≡◌, ◌+◌, IfOk};
ghost use Rattle.names_laws.specs.Rising.{Rise, use_places};
ghost use Rattle.checks_model.specs.Ground.{number_at};
ghost use Rattle.checks_model.specs.Table.{numbered};
ghost use Rattle.definition_origins.specs.Uses.{precedes, first_at, text_of};

use chill_base::{List, Memory, Pos};
use class_operators::PREDEFINED;
use names_model::{Definition, Resolved};
use std::alloc::Global;

// Whether a place stands before another.
fn precedes(first: Pos, second: Pos) -> bool
    ensures { result ≡ precedes first second }
{
    first.line < second.line || (first.line == second.line && first.column < second.column)
}

// The number of the first row, where it stands at a place.
fn first_at(rows: &[Resolved], at: Pos) -> Option<u32>
    ensures { result ≡ first_at rows.now at }
{
    match rows.first() {
        None => None,
        Some(row) => {
            if row.at.line == at.line && row.at.column == at.column {
                Some(row.to)
            } else {
                None
            }
        }
    }
}

/// The number that stands with a place, where the places rise.
pub fn number_at(numbers: &[Resolved], at: Pos) -> Option<u32>
    ensures { Rise (use_places numbers.now) → result ≡ number_at numbers.now at }
{
    let first = numbers.partition_point(|own| precedes(own.at, at));
    first_at(&numbers[first..], at)
}

// The number behind another. No `u32` is behind the last.
fn number_behind(number: u32) -> Result<u32, Memory>
    ensures { IfOk result (λ next. next ≡ number + 1) }
{
    match number.checked_add(1) {
        None => Err(Memory),
        Some(next) => Ok(next),
    }
}

// The places of definitions, with their numbers from 0 on.
fn numbered(alloc: Global, definitions: &[Definition]) -> Result<List<Resolved>, Memory>
    ensures { IfOk result (λ found. found ≡ numbered 0 definitions.now) }
{
    let mut found = List::new(alloc);
    let mut to = 0_u32;
    for own in definitions {
        found.push(Resolved {
            at: own.name.at,
            to,
        })?;
        to = number_behind(to)?;
    }
    Ok(found)
}

/// The places of the definitions of a text, with their numbers; the predefined ones behind them have no place. It answers
/// `Memory` also where no `u32` numbers all definitions.
pub fn places(alloc: Global, definitions: &[Definition]) -> Result<List<Resolved>, Memory>
    ensures { IfOk result (λ found. found ≡ numbered 0 (text_of definitions.now)) }
{
    let count = definitions.len().saturating_sub(2 * PREDEFINED.len());
    numbered(alloc, &definitions[..count])
}
