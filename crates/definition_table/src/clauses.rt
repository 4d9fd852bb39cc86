// Definitions of one clause: all but the first have what is known of the first.
ghost use Rattle.std.specs.Prelude.{◌≡◌, Some, IfOk, slice_get, option_map, option_and_then};
ghost use Rattle.modes.specs.ModeTree.{class_tree};
ghost use Rattle.definition_origins.specs.Firsts.{first_of};
ghost use Rattle.definition_order.specs.Needs.{other_first};
ghost use Rattle.definition_table.specs.Entries.{IsSameBut};

use chill_base::{Item, Memory};
use class_operators::copied;
use constant_operators::{Entry, Evaluation, shared};
use definition_origins::Origin;
use modes::Class;

// The first definition of a clause that may define several.
fn first_of(origin: Origin<'_>) -> Option<u32>
    ensures { result ≡ first_of origin.entry }
{
    match origin {
        Origin::Synonym { first, .. }
        | Origin::Location { first, .. }
        | Origin::Parameter { first, .. } => Some(first),
        Origin::SynMode(_)
        | Origin::NewMode(_)
        | Origin::Element(_)
        | Origin::Counter(_)
        | Origin::Received { .. }
        | Origin::Procedure(_)
        | Origin::Process(_)
        | Origin::Signal(_)
        | Origin::Modulion(_)
        | Origin::Predefined(_) => None,
    }
}

/// The first definition of a clause, where that is another.
pub(crate) fn other_first(number: u32, origin: Origin<'_>) -> Option<u32>
    ensures { result ≡ other_first number (first_of origin.entry) }
{
    match first_of(origin) {
        None => None,
        Some(first) => { if first == number { None } else { Some(first) } }
    }
}

// The same class once more.
fn same_class(class: &Option<Class>) -> Result<Option<Class>, Memory>
    ensures { IfOk result (λ c. option_map class_tree c ≡ option_map class_tree class.now) }
{
    match class {
        None => Ok(None),
        Some(class) => Ok(Some(copied(class)?)),
    }
}

/// The same mode, class and value once more.
pub(crate) fn same_entry(ground: &Evaluation<'_>, own: &Entry) -> Result<Entry, Memory>
    ensures { IfOk result (IsSameBut own.now) }
{
    let mut entry = Entry::unknown(ground.alloc);
    entry.mode = shared(own.mode.as_ref())?;
    entry.class = same_class(&own.class)?;
    entry.value = match &own.value {
        None => None,
        Some(value) => Some(value.copy()?),
    };
    Ok(entry)
}
