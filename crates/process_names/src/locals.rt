// What is told in definitions that stand in a modulion or a body.
ghost use Rattle.std.specs.Prelude.{◌≡◌, ◌++◌, OnOk, option_map, map, flat_map};
ghost use Rattle.chill_tree.specs.LocalTree.{synonym_tree, mode_definition_tree, initial_tree, declaration_tree, local_tree};
ghost use Rattle.process_names.specs.Walk.{over_synonym, over_definition, over_initial, over_declaration, over_local, declared_names, over_declared_names, over_local_of_body};

use crate::rules::tell_local;
use chill_base::Memory;
use chill_tree::tree::{Declaration, Initial, Local, ModeDefinition, Name, Synonym};
use definition_origins::Told;
use met_names::Meetings;

fn tell_in_synonyms(
    meetings: &Meetings<'_>,
    synonyms: &[Synonym],
    told: &mut Told,
) -> Result<(), Memory>
    ensures { OnOk result (told.new ≡ told.old ++ flat_map (over_synonym meetings.now) (map synonym_tree synonyms.now)) }
{
    for synonym in synonyms {
        tell_in_synonym(meetings, synonym, told)?;
    }
    Ok(())
}

fn tell_in_synonym(meetings: &Meetings<'_>, own: &Synonym, told: &mut Told) -> Result<(), Memory>
    ensures { OnOk result (told.new ≡ told.old ++ over_synonym meetings.now (synonym_tree own.now)) }
{
    meetings.tell_in_some_mode(&own.mode, told)?;
    meetings.tell_in(&own.value, told)
}

fn tell_in_modes(
    meetings: &Meetings<'_>,
    modes: &[ModeDefinition],
    told: &mut Told,
) -> Result<(), Memory>
    ensures { OnOk result (told.new ≡ told.old ++ flat_map (over_definition meetings.now) (map mode_definition_tree modes.now)) }
{
    for own in modes {
        meetings.tell_in_mode(&own.mode, told)?;
    }
    Ok(())
}

fn tell_in_declarations(
    meetings: &Meetings<'_>,
    declarations: &[Declaration],
    told: &mut Told,
) -> Result<(), Memory>
    ensures { OnOk result (told.new ≡ told.old ++ flat_map (over_declaration meetings.now) (map declaration_tree declarations.now)) }
{
    for own in declarations {
        tell_in_declaration(meetings, own, told)?;
    }
    Ok(())
}

fn tell_in_declaration(
    meetings: &Meetings<'_>,
    own: &Declaration,
    told: &mut Told,
) -> Result<(), Memory>
    ensures { OnOk result (told.new ≡ told.old ++ over_declaration meetings.now (declaration_tree own.now)) }
{
    meetings.tell_in_mode(&own.mode, told)?;
    tell_in_initial(meetings, &own.initial, told)
}

fn tell_in_initial(
    meetings: &Meetings<'_>,
    own: &Option<Initial>,
    told: &mut Told,
) -> Result<(), Memory>
    ensures { OnOk result (told.new ≡ told.old ++ over_initial meetings.now (option_map initial_tree own.now)) }
{
    match own {
        None => Ok(()),
        Some(own) => meetings.tell_in(&own.value, told),
    }
}

/// What is told in definitions.
pub fn tell_in_local(meetings: &Meetings<'_>, local: &Local, told: &mut Told) -> Result<(), Memory>
    ensures { OnOk result (told.new ≡ told.old ++ over_local meetings.now (local_tree local.now)) }
{
    match local {
        Local::Synonyms { synonyms, .. } => tell_in_synonyms(meetings, synonyms.as_slice(), told),
        Local::SynModes { modes, .. } | Local::NewModes { modes, .. } => {
            tell_in_modes(meetings, modes.as_slice(), told)
        }
        Local::Locations { declarations, .. } => {
            tell_in_declarations(meetings, declarations.as_slice(), told)
        }
    }
}

fn tell_declared_names(
    meetings: &Meetings<'_>,
    names: &[Name],
    told: &mut Told,
) -> Result<(), Memory>
    ensures { OnOk result (told.new ≡ told.old ++ declared_names meetings.now names.now) }
{
    for name in names {
        tell_local(meetings, name, told)?;
    }
    Ok(())
}

fn tell_all_declared(
    meetings: &Meetings<'_>,
    declarations: &[Declaration],
    told: &mut Told,
) -> Result<(), Memory>
    ensures { OnOk result (told.new ≡ told.old ++ flat_map (λ d. declared_names meetings.now d.names) (map declaration_tree declarations.now)) }
{
    for own in declarations {
        tell_declared_names(meetings, own.names.as_slice(), told)?;
    }
    Ok(())
}

fn tell_declared(meetings: &Meetings<'_>, local: &Local, told: &mut Told) -> Result<(), Memory>
    ensures { OnOk result (told.new ≡ told.old ++ over_declared_names meetings.now (local_tree local.now)) }
{
    match local {
        Local::Synonyms { .. } | Local::SynModes { .. } | Local::NewModes { .. } => Ok(()),
        Local::Locations { declarations, .. } => {
            tell_all_declared(meetings, declarations.as_slice(), told)
        }
    }
}

/// What is told in definitions in a body.
pub fn tell_in_local_of_body(
    meetings: &Meetings<'_>,
    local: &Local,
    told: &mut Told,
) -> Result<(), Memory>
    ensures { OnOk result (told.new ≡ told.old ++ over_local_of_body meetings.now (local_tree local.now)) }
{
    tell_declared(meetings, local, told)?;
    tell_in_local(meetings, local, told)
}
