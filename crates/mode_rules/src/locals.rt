// What is told in definitions that stand in a modulion or a body.
ghost use Rattle.std.specs.Prelude.{◌≡◌, ◌++◌, None, OnOk, option_map, map, flat_map};
ghost use Rattle.chill_tree.specs.LocalTree.{synonym_tree, mode_definition_tree, initial_tree, declaration_tree, local_tree};
ghost use Rattle.diagnostics.specs.declared.rule.Rule.TheVariants as rules;
ghost use Rattle.names_model.specs.NameRules.{tell};
ghost use Rattle.modes.specs.ModeTree.{mode_tree};
ghost use Rattle.modes.specs.Roots.{holds_read};
ghost use Rattle.checks_model.specs.Told.{told_if, holds_of};
ghost use Rattle.checks_model.specs.Phases.{mode_defined, told_without_value};
ghost use Rattle.constant_operators.specs.Grounds.{ground_of, HasGround};
ghost use Rattle.mode_rules.specs.Ready.{IsReady};
ghost use Rattle.mode_rules.specs.Walk.{over_synonym, over_definition, over_without_value, over_initial, over_declaration, over_local};

use crate::expressions::{tell_in, tell_in_mode};
use chill_base::Memory;
use chill_tree::tree::{Declaration, Initial, Local, ModeDefinition, Name, Synonym};
use constant_operators::Evaluation;
use definition_origins::{CheckRule, Told};
use definition_table::synonym_entry;
use modes::{Mode, holds_read};
use std::rc::Rc;
use written_modes::Standing;

fn tell_in_synonym(ground: &Evaluation<'_>, own: &Synonym, told: &mut Told) -> Result<(), Memory>
    ensures { IsReady ground.now → OnOk result (told.new ≡ told.old ++ over_synonym (ground_of ground.now) (synonym_tree own.now)) }
{
    let _entry = synonym_entry(ground, own, told)?;
    Ok(())
}

fn tell_in_synonyms(
    ground: &Evaluation<'_>,
    synonyms: &[Synonym],
    told: &mut Told,
) -> Result<(), Memory>
    ensures { IsReady ground.now → OnOk result (told.new ≡ told.old ++ flat_map (over_synonym (ground_of ground.now)) (map synonym_tree synonyms.now)) }
{
    for synonym in synonyms {
        tell_in_synonym(ground, synonym, told)?;
    }
    Ok(())
}

fn tell_in_modes(
    ground: &Evaluation<'_>,
    modes: &[ModeDefinition],
    told: &mut Told,
) -> Result<(), Memory>
    ensures { IsReady ground.now → OnOk result (told.new ≡ told.old ++ flat_map (over_definition (ground_of ground.now)) (map mode_definition_tree modes.now)) }
{
    for own in modes {
        tell_in_mode(ground, &own.mode, Standing::Whole, told)?;
    }
    Ok(())
}

// Whether what a name defines is only read.
fn is_read_alone(ground: &Evaluation<'_>, name: &Name) -> bool
    ensures { HasGround ground.now → result ≡ holds_of holds_read (mode_defined (ground_of ground.now) name.now) }
{
    holds_read_alone(ground.mode_defined(name))
}

// Whether a mode that is there is only read.
fn holds_read_alone(mode: Option<&Rc<Mode>>) -> bool
    ensures { result ≡ holds_of holds_read (option_map (λ m. mode_tree m.now.value) mode.entry) }
{
    match mode {
        None => false,
        Some(mode) => holds_read(mode),
    }
}

// Tells of a name, where a rule is broken at it.
fn tell_name_if(broken: bool, name: &Name, told: &mut Told) -> Result<(), Memory>
    ensures { OnOk result (told.new ≡ told.old ++ told_if broken (tell name.now.at rules.M9 name.now.text)) }
{
    if broken {
        return told.tell_name(CheckRule::M9, name.at, name.text.as_slice());
    }
    Ok(())
}

// Rule M9: a location that is only read, with no initialisation.
fn tell_read_alone(ground: &Evaluation<'_>, name: &Name, told: &mut Told) -> Result<(), Memory>
    ensures { IsReady ground.now → OnOk result (told.new ≡ told.old ++ told_without_value (ground_of ground.now) None name.now) }
{
    let broken = is_read_alone(ground, name);
    tell_name_if(broken, name, told)?;
    Ok(())
}

fn tell_without_value(
    ground: &Evaluation<'_>,
    given: &Option<Initial>,
    name: &Name,
    told: &mut Told,
) -> Result<(), Memory>
    ensures { IsReady ground.now → OnOk result (told.new ≡ told.old ++ told_without_value (ground_of ground.now) (option_map initial_tree given.now) name.now) }
{
    match given {
        None => tell_read_alone(ground, name, told),
        Some(_) => Ok(()),
    }
}

fn tell_names_without_value(
    ground: &Evaluation<'_>,
    given: &Option<Initial>,
    names: &[Name],
    told: &mut Told,
) -> Result<(), Memory>
    ensures { IsReady ground.now → OnOk result (told.new ≡ told.old ++ over_without_value (ground_of ground.now) (option_map initial_tree given.now) names.now) }
{
    for name in names {
        tell_without_value(ground, given, name, told)?;
    }
    Ok(())
}

fn tell_in_initial(
    ground: &Evaluation<'_>,
    own: &Option<Initial>,
    told: &mut Told,
) -> Result<(), Memory>
    ensures { IsReady ground.now → OnOk result (told.new ≡ told.old ++ over_initial (ground_of ground.now) (option_map initial_tree own.now)) }
{
    match own {
        None => Ok(()),
        Some(own) => tell_in(ground, &own.value, told),
    }
}

// The mode of locations, rule M9, and the value that they are given.
fn tell_in_declaration(
    ground: &Evaluation<'_>,
    own: &Declaration,
    told: &mut Told,
) -> Result<(), Memory>
    ensures { IsReady ground.now → OnOk result (told.new ≡ told.old ++ over_declaration (ground_of ground.now) (declaration_tree own.now)) }
{
    tell_in_mode(ground, &own.mode, Standing::Whole, told)?;
    tell_names_without_value(ground, &own.initial, own.names.as_slice(), told)?;
    tell_in_initial(ground, &own.initial, told)
}

fn tell_in_declarations(
    ground: &Evaluation<'_>,
    declarations: &[Declaration],
    told: &mut Told,
) -> Result<(), Memory>
    ensures { IsReady ground.now → OnOk result (told.new ≡ told.old ++ flat_map (over_declaration (ground_of ground.now)) (map declaration_tree declarations.now)) }
{
    for own in declarations {
        tell_in_declaration(ground, own, told)?;
    }
    Ok(())
}

/// What is told in definitions.
pub fn tell_in_local(ground: &Evaluation<'_>, local: &Local, told: &mut Told) -> Result<(), Memory>
    ensures { IsReady ground.now → OnOk result (told.new ≡ told.old ++ over_local (ground_of ground.now) (local_tree local.now)) }
{
    match local {
        Local::Synonyms { synonyms, .. } => tell_in_synonyms(ground, synonyms.as_slice(), told),
        Local::SynModes { modes, .. } | Local::NewModes { modes, .. } => {
            tell_in_modes(ground, modes.as_slice(), told)
        }
        Local::Locations { declarations, .. } => {
            tell_in_declarations(ground, declarations.as_slice(), told)
        }
    }
}
