// Rule L7: the scalars of shared locations become too many.
ghost use Rattle.std.specs.Prelude.{◌≡◌, ◌≤◌, ◌++◌, min, map, OnOk, option_map, option_and_then, slice_get};
ghost use Rattle.chill_tree.specs.LocalTree.{declaration_tree, local_tree};
ghost use Rattle.chill_tree.specs.ItemTree.{item_tree, item_trees, item_nodes, modulion_tree, modulion_item};
ghost use Rattle.modes.specs.ModeTree.{mode_tree, field_tree, field_trees, field_nodes};
ghost use Rattle.modes.specs.Bounds.{values_of};
ghost use Rattle.modes.specs.Scalars.{numbers_of, scalars_of, scalars_in_fields};
ghost use Rattle.checks_model.specs.Ground.{mode_of_entry, number_at};
ghost use Rattle.checks_model.specs.Limits.{scalars_in_mode};
ghost use Rattle.constant_operators.specs.Grounds.{entry_tree, ground_of, HasGround};
ghost use Rattle.mode_rules.specs.Ready.{IsReady};
ghost use Rattle.mode_rules.specs.Shared.{scalars_at, told_places, places_of, declared_places, local_places, shared_places, each_shared, all_shared};

use chill_base::{List, Memory, Pos};
use chill_tree::tree::{Declaration, Item, Local, Modulion, Name};
use constant_operators::{Entry, Evaluation};
use definition_origins::{CheckRule, Told};
use modes::{Field, Mode, number_of_values};
use std::rc::Rc;

// How many numbers tell the members of a powerset of this member mode, 32 members each.
fn number_of_numbers(member: &Mode) -> u64
    ensures { result ≡ numbers_of (values_of (mode_tree member.now)) }
{
    let members = number_of_values(member);
    if members % 32 == 0 {
        members / 32
    } else {
        members / 32 + 1
    }
}

// How many scalars a mode has, or 65,537 where it has more than 65,536.
#[tactic(auto, using(crate::proofs::Capped::counted))]
#[cycle(counting)]
fn scalars_in(mode: &Mode) -> u64
    ensures { result ≡ min (scalars_of (mode_tree mode.now)) 65537 }
{
    match mode {
        Mode::Int
        | Mode::Bool
        | Mode::Char
        | Mode::Instance
        | Mode::Set { .. }
        | Mode::Range { .. } => 1,
        Mode::Powerset { member } => number_of_numbers(member).min(65_537),
        Mode::Chars { length } => u64::from(*length).min(65_537),
        Mode::Array { index, element, .. } => {
            (number_of_values(index).min(65_537) * scalars_in(element)).min(65_537)
        }
        Mode::Struct { fields, .. } => scalars_in_fields(fields.as_slice()),
        Mode::Event { .. } | Mode::Buffer { .. } => 0,
        Mode::Read { of } | Mode::Named { of, .. } => scalars_in(of),
    }
}

// How many scalars the fields have.
#[cycle(counting)]
fn scalars_in_fields(fields: &[Field]) -> u64
    ensures { result ≡ min (scalars_in_fields 0 (field_nodes (field_trees fields.now))) 65537 }
{
    let mut count = 0_u64;
    for field in fields {
        count = (count + scalars_in_field(field)).min(65_537);
    }
    count
}

// How many scalars the field has.
#[tactic(auto, using(modes::proofs::ModeViews::mode_built))]
#[cycle(counting)]
fn scalars_in_field(field: &Field) -> u64
    ensures { result ≡ min (scalars_of (field_tree field.now).mode) 65537 }
{
    scalars_in(&field.mode)
}

// The mode of what is known of a definition.
fn mode_in(entry: Option<&Entry>) -> Option<&Rc<Mode>>
    ensures { option_map (λ m. mode_tree m.now.value) result ≡ mode_of_entry (option_map (λ e. entry_tree e.now) entry.entry) }
{
    match entry {
        None => None,
        Some(entry) => match &entry.mode {
            None => None,
            Some(mode) => Some(mode),
        },
    }
}

// What is known of what the name that stands at a place defines.
#[tactic(auto, using(constant_operators::proofs::Grounds::looked_up))]
fn entry_at<'g>(ground: &'g Evaluation<'_>, at: Pos) -> Option<&'g Entry>
    ensures { HasGround ground.now → option_map (λ e. entry_tree e.now) result ≡ option_and_then (slice_get (ground_of ground.now).entries) (number_at (ground_of ground.now).defined at) }
{
    match ground.defined_at(at) {
        None => None,
        Some(number) => ground.entry(number),
    }
}

// How many scalars a mode has that may be there.
fn scalars_in_some(mode: Option<&Rc<Mode>>) -> u64
    ensures { result ≡ min (scalars_in_mode (option_map (λ m. mode_tree m.now.value) mode.entry)) 65537 }
{
    match mode {
        None => 0,
        Some(mode) => scalars_in(mode),
    }
}

// How many scalars the location has whose name stands at a place.
fn scalars_at(ground: &Evaluation<'_>, at: Pos) -> u64
    ensures few { result ≤ 65537 }
    ensures count { HasGround ground.now → result ≡ min (scalars_at (ground_of ground.now) at) 65537 }
{
    let entry = entry_at(ground, at);
    let mode = mode_in(entry);
    scalars_in_some(mode)
}

// Tells of the first place at which the scalars become more than 65,536.
#[tactic(auto, using(crate::proofs::SharedPlaces::over_there, crate::proofs::SharedPlaces::within_there))]
fn tell_behind(ground: &Evaluation<'_>, places: &[Pos], told: &mut Told) -> Result<(), Memory>
    ensures { IsReady ground.now → OnOk result (told.new ≡ told.old ++ told_places (ground_of ground.now) 0 places.now) }
{
    let mut sum = 0_u64;
    for at in places {
        let more = scalars_at(ground, *at);
        if sum + more > 65_536 {
            told.tell(CheckRule::L7, *at)?;
            return Ok(());
        }
        sum += more;
    }
    Ok(())
}

fn add_names(names: &[Name], found: &mut List<Pos>) -> Result<(), Memory>
    ensures { OnOk result (found.new ≡ found.old ++ places_of names.now) }
{
    for name in names {
        found.push(name.at)?;
    }
    Ok(())
}

fn add_declarations(declarations: &[Declaration], found: &mut List<Pos>) -> Result<(), Memory>
    ensures { OnOk result (found.new ≡ found.old ++ declared_places (map declaration_tree declarations.now)) }
{
    for own in declarations {
        add_names(own.names.as_slice(), found)?;
    }
    Ok(())
}

fn add_local(local: &Local, found: &mut List<Pos>) -> Result<(), Memory>
    ensures { OnOk result (found.new ≡ found.old ++ local_places (local_tree local.now)) }
{
    match local {
        Local::Synonyms { .. } | Local::SynModes { .. } | Local::NewModes { .. } => Ok(()),
        Local::Locations { declarations, .. } => add_declarations(declarations.as_slice(), found),
    }
}

#[tactic(auto, using(crate::proofs::BodyViews::item_views))]
#[cycle(item)]
fn add_item(item: &Item, found: &mut List<Pos>) -> Result<(), Memory>
    ensures { OnOk result (found.new ≡ found.old ++ shared_places (item_tree item.now)) }
{
    match item {
        Item::Local(local) => add_local(local, found),
        Item::Modulion(modulion) => add_modulion(modulion, found),
        Item::Seize { .. }
        | Item::Grant { .. }
        | Item::Signals { .. }
        | Item::Procedure(_)
        | Item::Process(_)
        | Item::Statement(_) => Ok(()),
    }
}

#[cycle(item)]
fn add_items(items: &[Item], found: &mut List<Pos>) -> Result<(), Memory>
    ensures { OnOk result (found.new ≡ found.old ++ each_shared (item_nodes (item_trees items.now))) }
{
    for item in items {
        add_item(item, found)?;
    }
    Ok(())
}

#[tactic(auto, using(crate::proofs::BodyViews::item_views))]
#[cycle(item)]
fn add_modulion(modulion: &Modulion, found: &mut List<Pos>) -> Result<(), Memory>
    ensures { OnOk result (found.new ≡ found.old ++ shared_places (modulion_item (modulion_tree modulion.now))) }
{
    add_items(modulion.items.as_slice(), found)
}

fn add_modulions(modulions: &[Modulion], found: &mut List<Pos>) -> Result<(), Memory>
    ensures { OnOk result (found.new ≡ found.old ++ all_shared (map modulion_tree modulions.now)) }
{
    for modulion in modulions {
        add_modulion(modulion, found)?;
    }
    Ok(())
}

/// Rule L7: the location with which the scalars of all shared locations become too many.
pub fn tell_too_many_shared(
    ground: &Evaluation<'_>,
    modulions: &[Modulion],
    told: &mut Told,
) -> Result<(), Memory>
    ensures { IsReady ground.now → OnOk result (told.new ≡ told.old ++ told_places (ground_of ground.now) 0 (all_shared (map modulion_tree modulions.now))) }
{
    let mut places = List::new(ground.alloc);
    add_modulions(modulions, &mut places)?;
    tell_behind(ground, places.as_slice(), told)
}
