// What processes meet at under each definition of a program, by the definitions' numbers.
ghost use Rattle.std.specs.Prelude.{◌≡◌, IfOk, map, option_map};
ghost use Rattle.process_checks.specs.MetByNumber.{declared_as, declared_by, used_as, used_from};

use chill_base::{List, Memory};
use constant_operators::{Entry, Evaluation};
use definition_origins::Origin;
use met_names::{Meeting, met_in};

// What the mode is of that is known of a definition, if one is known.
fn declared_as(entry: &Entry) -> Option<Meeting>
    ensures { result ≡ declared_as entry.now }
{
    match &entry.mode {
        None => None,
        Some(mode) => Some(met_in(mode)),
    }
}

fn declared_by(known: Option<&Entry>) -> Option<Meeting>
    ensures { result ≡ declared_by (option_map (λ k. k.now) known.entry) }
{
    match known {
        None => None,
        Some(entry) => declared_as(entry),
    }
}

// What processes meet at where a definition is used, or none where that isn't known.
fn used_as(origin: &Origin<'_>, known: Option<&Entry>) -> Option<Meeting>
    ensures { result ≡ used_as origin.now (option_map (λ k. k.now) known.entry) }
{
    match origin {
        Origin::Signal(_) => Some(Meeting::Signal),
        Origin::Location { .. } => declared_by(known),
        Origin::Synonym { .. }
        | Origin::SynMode(_)
        | Origin::NewMode(_)
        | Origin::Element(_)
        | Origin::Parameter { .. }
        | Origin::Counter(_)
        | Origin::Received { .. }
        | Origin::Procedure(_)
        | Origin::Process(_)
        | Origin::Modulion(_)
        | Origin::Predefined(_) => None,
    }
}

/// What processes meet at where each definition is used.
pub fn used_meetings(evaluation: &Evaluation<'_>) -> Result<List<Option<Meeting>>, Memory>
    ensures { IfOk result (λ found. found ≡ used_from evaluation.now.entries.items 0 evaluation.now.origins) }
{
    let mut found = List::new(evaluation.alloc);
    for origin in evaluation.origins.as_slice() {
        let known = evaluation.entries.get(found.len());
        found.push(used_as(origin, known))?;
    }
    Ok(found)
}

/// What the mode of each definition is of.
pub fn declared_meetings(evaluation: &Evaluation<'_>) -> Result<List<Option<Meeting>>, Memory>
    ensures { IfOk result (λ found. found ≡ map declared_as evaluation.now.entries.items) }
{
    let mut found = List::new(evaluation.alloc);
    for entry in evaluation.entries.as_slice() {
        found.push(declared_as(entry))?;
    }
    Ok(found)
}
