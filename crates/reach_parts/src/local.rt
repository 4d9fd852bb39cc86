// The parts that definition statements are of their reach.
ghost use Rattle.std.specs.Prelude.{◌≡◌, ◌++◌, [], ◌∷◌, OnOk, map, flat_map, option_map};
ghost use Rattle.chill_tree.specs.LocalTree.{synonym_tree, mode_definition_tree, initial_tree, declaration_tree, local_tree};
ghost use Rattle.names_model.specs.Parts.{part_trees};
ghost use Rattle.names_model.specs.StatementParts.{synonym_part, mode_part, initial_parts, declaration_parts, local_parts};

use crate::clause::{clause_by_mode, clause_of, clause_of_one};
use crate::expr::add_expr;
use crate::mode::{add_mode, add_some_mode};
use crate::part::{add_part, mention_expr};
use chill_base::{List, Memory};
use chill_tree::tree::{Declaration, Initial, Local, ModeDefinition, Synonym};
use names_model::{Kind, Part};
use std::alloc::Global;

// Adds the definition of names for the value of a constant.
fn add_synonym(alloc: Global, synonym: &Synonym, out: &mut List<Part>) -> Result<(), Memory>
    ensures { OnOk result (part_trees out.new ≡ part_trees out.old ++ synonym_part (synonym_tree synonym.now) ∷ []) }
{
    let mut text = List::new(alloc);
    add_some_mode(alloc, &synonym.mode, &mut text)?;
    add_expr(alloc, &synonym.value, &mut text)?;
    let clause = clause_of(alloc, Kind::Synonym, synonym.names.as_slice(), text)?;
    add_part(Part::define(clause), out)
}

// Adds the definitions of names for the values of constants.
fn add_synonyms(alloc: Global, synonyms: &[Synonym], out: &mut List<Part>) -> Result<(), Memory>
    ensures { OnOk result (part_trees out.new ≡ part_trees out.old ++ map synonym_part (map synonym_tree synonyms.now)) }
{
    for synonym in synonyms {
        add_synonym(alloc, synonym, out)?;
    }
    Ok(())
}

// Adds the definition of a name for a mode.
fn add_mode_definition(
    alloc: Global,
    definition: &ModeDefinition,
    out: &mut List<Part>,
) -> Result<(), Memory>
    ensures { OnOk result (part_trees out.new ≡ part_trees out.old ++ mode_part (mode_definition_tree definition.now) ∷ []) }
{
    let mut text = List::new(alloc);
    add_mode(alloc, &definition.mode, &mut text)?;
    let clause = clause_of_one(alloc, Kind::Mode, &definition.name, text)?;
    add_part(Part::define(clause), out)
}

// Adds the definitions of names for modes.
fn add_mode_definitions(
    alloc: Global,
    definitions: &[ModeDefinition],
    out: &mut List<Part>,
) -> Result<(), Memory>
    ensures { OnOk result (part_trees out.new ≡ part_trees out.old ++ map mode_part (map mode_definition_tree definitions.now)) }
{
    for definition in definitions {
        add_mode_definition(alloc, definition, out)?;
    }
    Ok(())
}

// Adds the names in what locations hold at first.
fn add_initial(alloc: Global, initial: &Option<Initial>, out: &mut List<Part>) -> Result<(), Memory>
    ensures { OnOk result (part_trees out.new ≡ part_trees out.old ++ initial_parts (option_map initial_tree initial.now)) }
{
    match initial {
        None => Ok(()),
        Some(initial) => mention_expr(alloc, &initial.value, out),
    }
}

// Adds the definition of locations, and the names in what they hold at first.
fn add_declaration(
    alloc: Global,
    declaration: &Declaration,
    out: &mut List<Part>,
) -> Result<(), Memory>
    ensures { OnOk result (part_trees out.new ≡ part_trees out.old ++ declaration_parts (declaration_tree declaration.now)) }
{
    let names = declaration.names.as_slice();
    let clause = clause_by_mode(alloc, Kind::Location, names, &declaration.mode)?;
    add_part(Part::define(clause), out)?;
    add_initial(alloc, &declaration.initial, out)
}

// Adds the definitions of locations.
fn add_declarations(
    alloc: Global,
    declarations: &[Declaration],
    out: &mut List<Part>,
) -> Result<(), Memory>
    ensures { OnOk result (part_trees out.new ≡ part_trees out.old ++ flat_map declaration_parts (map declaration_tree declarations.now)) }
{
    for declaration in declarations {
        add_declaration(alloc, declaration, out)?;
    }
    Ok(())
}

/// Adds the parts of a definition statement.
pub(crate) fn add_local(alloc: Global, local: &Local, out: &mut List<Part>) -> Result<(), Memory>
    ensures { OnOk result (part_trees out.new ≡ part_trees out.old ++ local_parts (local_tree local.now)) }
{
    match local {
        Local::Synonyms { synonyms, .. } => add_synonyms(alloc, synonyms.as_slice(), out),
        Local::SynModes { modes, .. } | Local::NewModes { modes, .. } => {
            add_mode_definitions(alloc, modes.as_slice(), out)
        }
        Local::Locations { declarations, .. } => {
            add_declarations(alloc, declarations.as_slice(), out)
        }
    }
}
