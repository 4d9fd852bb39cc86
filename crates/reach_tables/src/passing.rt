// What passes the border of a modulion.
ghost use Rattle.std.specs.Prelude.{◌≡◌, ◌++◌, ◌∷◌, [], OnOk, flat_map, if◌then◌else◌};
ghost use Rattle.names_model.specs.Definitions.{spelling_at};
ghost use Rattle.names_model.specs.Entries.{along, given_all, is_among, passed};
ghost use Rattle.reach_tables.specs.Scopes.{told_by};

use crate::among::among;
use crate::book::Book;
use crate::entries::push_all;
use crate::source::Source;
use chill_base::{Memory, Numbers};
use names_model::Spelling;

// Puts an element behind others, where the source tells of it.
fn push_element(
    book: &Book,
    source: &Source,
    element: usize,
    out: &mut Numbers,
) -> Result<(), Memory>
    ensures { OnOk result (out.new ≡ out.old ++ (if is_among element (told_by source.now (spelling_at book.now.all.items element)) then element ∷ [] else [])) }
{
    if let Some(number) = among(element, source.find(book.spelling(element))) {
        out.push(number)?;
    }
    Ok(())
}

/// The elements that go with a definition.
fn push_along(book: &Book, source: &Source, number: u32, out: &mut Numbers) -> Result<(), Memory>
    ensures { OnOk result (out.new ≡ out.old ++ along book.now.all.items (told_by source.now) number) }
{
    let first = number as usize + 1;
    for step in 0..book.elements(number) {
        push_element(book, source, first + step as usize, out)?;
    }
    Ok(())
}

// The elements that go with definitions.
fn push_along_all(
    book: &Book,
    source: &Source,
    numbers: &[u32],
    out: &mut Numbers,
) -> Result<(), Memory>
    ensures { OnOk result (out.new ≡ out.old ++ flat_map (along book.now.all.items (told_by source.now)) numbers.now) }
{
    for number in numbers {
        push_along(book, source, *number, out)?;
    }
    Ok(())
}

/// What passes under a name, with the elements that go along.
pub fn push_passed(
    book: &Book,
    source: &Source,
    name: &Spelling,
    out: &mut Numbers,
) -> Result<(), Memory>
    ensures { OnOk result (out.new ≡ out.old ++ passed book.now.all.items (told_by source.now) name.now) }
{
    let numbers = source.find(name);
    push_all(numbers, out)?;
    push_along_all(book, source, numbers, out)?;
    Ok(())
}

/// What GRANT ALL gives; a region keeps its locations.
pub fn push_given_all(
    book: &Book,
    region: bool,
    own: &[u32],
    out: &mut Numbers,
) -> Result<(), Memory>
    ensures { OnOk result (out.new ≡ out.old ++ given_all book.now.all.items region own.now) }
{
    for number in own {
        if !(region && book.is_location(*number)) {
            out.push(*number)?;
        }
    }
    Ok(())
}

/// A modulion seen from around it: whether it is a region, what it has, and what is defined directly in it.
#[derive(Drop)]
pub struct Giver<'a> {
    pub region: bool,
    pub has: Source<'a>,
    pub own: &'a [u32],
}
