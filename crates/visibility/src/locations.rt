// What depends on what among locations alone.
ghost use Rattle.std.specs.Prelude.{◌≡◌, ◌++◌, IfOk, map};
ghost use Rattle.names_model.specs.Dependence.{among_locations, group, locations_in};

use chill_base::{Memory, Numbers};
use cycles::Group;
use reach_tables::Book;
use std::alloc::Global;

// The locations among some definitions.
fn locations_in(alloc: Global, book: &Book, numbers: &Numbers) -> Result<Numbers, Memory>
    ensures { IfOk result (λ l. l ≡ locations_in book.now.all.items numbers.now) }
{
    let mut locations = Numbers::new(alloc);
    for number in numbers.as_slice() {
        if book.is_location(*number) {
            locations.push(*number)?;
        }
    }
    Ok(locations)
}

// The locations of a group.
fn location_group(alloc: Global, book: &Book, whole: &Group) -> Result<Group, Memory>
    ensures { IfOk result (λ g. g ≡ group (locations_in book.now.all.items whole.now.from) (locations_in book.now.all.items whole.now.to)) }
{
    Ok(Group {
        from: locations_in(alloc, book, &whole.from)?,
        to: locations_in(alloc, book, &whole.to)?,
    })
}

/// What depends on what among locations alone.
pub fn among_locations(alloc: Global, book: &Book, groups: &[Group]) -> Result<Vec<Group>, Memory>
    ensures { IfOk result (λ v. v.items ≡ among_locations book.now.all.items groups.now) }
{
    let mut among = Vec::new(alloc);
    for group in groups {
        among.push(location_group(alloc, book, group)?)?;
    }
    Ok(among)
}
