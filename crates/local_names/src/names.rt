// The names that one declaration, one loop or one alternative gives.
ghost use Rattle.std.specs.Prelude.{◌≡◌, ◌++◌, OnOk, map, flat_map};
ghost use Rattle.chill_tree.specs.LocalTree.{declaration_tree, local_tree};
ghost use Rattle.chill_tree.specs.SimpleTree.{control_tree};
ghost use Rattle.checks_model.specs.Sites.{declared_in, counter_in, names_received};
ghost use Rattle.local_names.specs.Found.{names_found};

use chill_base::{List, Memory};
use chill_tree::tree::{Control, Declaration, Local, Name};

/// Adds names.
pub fn add_names<'a>(names: &'a [Name], found: &mut List<&'a Name>) -> Result<(), Memory>
    ensures { OnOk result (names_found found.new ≡ names_found found.old ++ names.now) }
{
    for name in names {
        found.push(name)?;
    }
    Ok(())
}

fn add_declarations<'a>(
    declarations: &'a [Declaration],
    found: &mut List<&'a Name>,
) -> Result<(), Memory>
    ensures { OnOk result (names_found found.new ≡ names_found found.old ++ flat_map (λ d. d.names) (map declaration_tree declarations.now)) }
{
    for declaration in declarations {
        add_names(declaration.names.as_slice(), found)?;
    }
    Ok(())
}

/// Adds the locations that a definition statement declares.
pub fn add_declared<'a>(local: &'a Local, found: &mut List<&'a Name>) -> Result<(), Memory>
    ensures { OnOk result (names_found found.new ≡ names_found found.old ++ declared_in (local_tree local.now)) }
{
    match local {
        Local::Synonyms { .. } | Local::SynModes { .. } | Local::NewModes { .. } => Ok(()),
        Local::Locations { declarations, .. } => add_declarations(declarations.as_slice(), found),
    }
}

/// Adds the counter of a loop.
pub fn add_counter<'a>(control: &'a Control, found: &mut List<&'a Name>) -> Result<(), Memory>
    ensures { OnOk result (names_found found.new ≡ names_found found.old ++ counter_in (control_tree control.now)) }
{
    match control {
        Control::While { .. } | Control::Forever { .. } => Ok(()),
        Control::Members { counter, .. } => found.push(counter),
        Control::Steps { counter, .. } => found.push(counter),
    }
}

/// Adds the names that an alternative of a RECEIVE CASE receives.
pub fn add_received<'a>(
    received: &'a Option<List<Name>>,
    found: &mut List<&'a Name>,
) -> Result<(), Memory>
    ensures { OnOk result (names_found found.new ≡ names_found found.old ++ names_received received.now) }
{
    match received {
        None => Ok(()),
        Some(names) => add_names(names.as_slice(), found),
    }
}
