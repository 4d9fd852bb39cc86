// The definitions of definition statements.
ghost use Rattle.std.specs.Prelude.{true, false, ◌≡◌, ◌++◌, OnOk, map, flat_map};
ghost use Rattle.chill_tree.specs.LocalTree.{synonym_tree, mode_definition_tree, declaration_tree, local_tree};
ghost use Rattle.checks_model.specs.Origins.{origins_of_synonym, origins_of_mode, origins_of_declaration, origins_of_local};
ghost use Rattle.definition_origins.specs.OriginTrees.{owner_tree, origin_trees};
ghost use Rattle.definition_origins.specs.Walks.{owner_by};

use crate::mode_elements::{add_mode, add_some_mode};
use crate::origin::{Origin, Owner};
use crate::origin_list::{Origins, add_names};
use chill_base::Memory;
use chill_tree::tree::{Declaration, Local, ModeDefinition, Synonym};

// Synonyms, and the elements in their mode.
fn add_synonym<'a>(synonym: &'a Synonym, found: &mut Origins<'a>) -> Result<(), Memory>
    ensures { OnOk result (origin_trees found.new ≡ origin_trees found.old ++ origins_of_synonym (synonym_tree synonym.now)) }
{
    let first = found.next()?;
    add_names(
        synonym.names.as_slice(),
        Origin::Synonym { synonym, first },
        found,
    )?;
    add_some_mode(&synonym.mode, found)
}

// Synonyms of several clauses.
fn add_synonyms<'a>(synonyms: &'a [Synonym], found: &mut Origins<'a>) -> Result<(), Memory>
    ensures { OnOk result (origin_trees found.new ≡ origin_trees found.old ++ flat_map origins_of_synonym (map synonym_tree synonyms.now)) }
{
    for synonym in synonyms {
        add_synonym(synonym, found)?;
    }
    Ok(())
}

// The name of a mode, for the elements of the SET that is the whole of it.
fn owner_of<'a>(own: &'a ModeDefinition, novel: bool) -> Option<Owner<'a>>
    ensures { owner_tree result ≡ owner_by novel (mode_definition_tree own.now) }
{
    Some(Owner {
        name: &own.name,
        novel,
    })
}

// A SYNMODE.
#[tactic(auto, using(crate::proofs::Views::owned_views))]
fn add_syn_mode<'a>(own: &'a ModeDefinition, found: &mut Origins<'a>) -> Result<(), Memory>
    ensures { OnOk result (origin_trees found.new ≡ origin_trees found.old ++ origins_of_mode false (mode_definition_tree own.now)) }
{
    found.push(Origin::SynMode(own))?;
    add_mode(&own.mode, owner_of(own, false), found)?;
    Ok(())
}

// A NEWMODE.
#[tactic(auto, using(crate::proofs::Views::owned_views))]
fn add_new_mode<'a>(own: &'a ModeDefinition, found: &mut Origins<'a>) -> Result<(), Memory>
    ensures { OnOk result (origin_trees found.new ≡ origin_trees found.old ++ origins_of_mode true (mode_definition_tree own.now)) }
{
    found.push(Origin::NewMode(own))?;
    add_mode(&own.mode, owner_of(own, true), found)?;
    Ok(())
}

// SYNMODEs.
fn add_syn_modes<'a>(modes: &'a [ModeDefinition], found: &mut Origins<'a>) -> Result<(), Memory>
    ensures { OnOk result (origin_trees found.new ≡ origin_trees found.old ++ flat_map (origins_of_mode false) (map mode_definition_tree modes.now)) }
{
    for own in modes {
        add_syn_mode(own, found)?;
    }
    Ok(())
}

// NEWMODEs.
fn add_new_modes<'a>(modes: &'a [ModeDefinition], found: &mut Origins<'a>) -> Result<(), Memory>
    ensures { OnOk result (origin_trees found.new ≡ origin_trees found.old ++ flat_map (origins_of_mode true) (map mode_definition_tree modes.now)) }
{
    for own in modes {
        add_new_mode(own, found)?;
    }
    Ok(())
}

// Locations, and the elements in their mode.
#[tactic(auto, using(crate::proofs::Views::owned_views))]
fn add_declaration<'a>(declaration: &'a Declaration, found: &mut Origins<'a>) -> Result<(), Memory>
    ensures { OnOk result (origin_trees found.new ≡ origin_trees found.old ++ origins_of_declaration (declaration_tree declaration.now)) }
{
    let first = found.next()?;
    let origin = Origin::Location { declaration, first };
    add_names(declaration.names.as_slice(), origin, found)?;
    add_mode(&declaration.mode, None, found)
}

// Locations of several modes.
fn add_declarations<'a>(
    declarations: &'a [Declaration],
    found: &mut Origins<'a>,
) -> Result<(), Memory>
    ensures { OnOk result (origin_trees found.new ≡ origin_trees found.old ++ flat_map origins_of_declaration (map declaration_tree declarations.now)) }
{
    for declaration in declarations {
        add_declaration(declaration, found)?;
    }
    Ok(())
}

/// The definitions of a definition statement.
pub fn add_local<'a>(local: &'a Local, found: &mut Origins<'a>) -> Result<(), Memory>
    ensures { OnOk result (origin_trees found.new ≡ origin_trees found.old ++ origins_of_local (local_tree local.now)) }
{
    match local {
        Local::Synonyms { synonyms, .. } => add_synonyms(synonyms.as_slice(), found),
        Local::SynModes { modes, .. } => add_syn_modes(modes.as_slice(), found),
        Local::NewModes { modes, .. } => add_new_modes(modes.as_slice(), found),
        Local::Locations { declarations, .. } => add_declarations(declarations.as_slice(), found),
    }
}
