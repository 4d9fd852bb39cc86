// Readers of definitions of synonyms, modes and locations (Z.200, chapters on modes, locations and values).
ghost use Rattle.std.specs.Prelude.{◌≡◌, map};
ghost use Rattle.chill_tree.specs.LocalTree.{local_tree};
ghost use Rattle.expr_parser.specs.Giving.{Gives};
ghost use Rattle.mode_parser.specs.LocalParts.{synonyms_at, syn_modes_at, new_modes_at, locations_at};
ghost use Rattle.rules_model.specs.ModeReading.{local_at};

use crate::declaration::read_declarations;
use crate::synonym::{read_mode_definitions, read_synonyms};
use chill_tree::tree::Local;
use chill_tree::{Sign, Token, Word};
use expr_parser::{ParseRefusal, read_sign, read_word, starts_with};
use std::alloc::Global;

/// Reads a definition statement, where `inner` levels of nesting are left behind its opening tokens.
#[tactic(auto, unfolding(rules_model::specs::ModeReading::local_at))]
pub fn read_local(
    alloc: Global,
    tokens: &[Token],
    inner: usize,
) -> Result<(Local, &[Token]), ParseRefusal>
    ensures { Gives (λ x. (local_tree x.0, x.1.now)) result (local_at inner tokens.now) }
{
    if starts_with(tokens, Word::Syn) {
        return synonyms(alloc, tokens, inner);
    }
    if starts_with(tokens, Word::SynMode) {
        return syn_modes(alloc, tokens, inner);
    }
    if starts_with(tokens, Word::NewMode) {
        return new_modes(alloc, tokens, inner);
    }
    locations(alloc, tokens, inner)
}

// Reads names for values.
fn synonyms(
    alloc: Global,
    tokens: &[Token],
    inner: usize,
) -> Result<(Local, &[Token]), ParseRefusal>
    ensures { Gives (λ x. (local_tree x.0, x.1.now)) result (synonyms_at inner tokens.now) }
{
    let (at, rest) = read_word(tokens, Word::Syn)?;
    let (synonyms, rest) = read_synonyms(alloc, rest, inner)?;
    let (_, rest) = read_sign(rest, Sign::Semicolon)?;
    Ok((Local::Synonyms { at, synonyms }, rest))
}

// Reads names for modes that are the same modes.
fn syn_modes(
    alloc: Global,
    tokens: &[Token],
    inner: usize,
) -> Result<(Local, &[Token]), ParseRefusal>
    ensures { Gives (λ x. (local_tree x.0, x.1.now)) result (syn_modes_at inner tokens.now) }
{
    let (at, rest) = read_word(tokens, Word::SynMode)?;
    let (modes, rest) = read_mode_definitions(alloc, rest, inner)?;
    let (_, rest) = read_sign(rest, Sign::Semicolon)?;
    Ok((Local::SynModes { at, modes }, rest))
}

// Reads names for new modes.
fn new_modes(
    alloc: Global,
    tokens: &[Token],
    inner: usize,
) -> Result<(Local, &[Token]), ParseRefusal>
    ensures { Gives (λ x. (local_tree x.0, x.1.now)) result (new_modes_at inner tokens.now) }
{
    let (at, rest) = read_word(tokens, Word::NewMode)?;
    let (modes, rest) = read_mode_definitions(alloc, rest, inner)?;
    let (_, rest) = read_sign(rest, Sign::Semicolon)?;
    Ok((Local::NewModes { at, modes }, rest))
}

// Reads declarations of locations.
fn locations(
    alloc: Global,
    tokens: &[Token],
    inner: usize,
) -> Result<(Local, &[Token]), ParseRefusal>
    ensures { Gives (λ x. (local_tree x.0, x.1.now)) result (locations_at inner tokens.now) }
{
    let (at, rest) = read_word(tokens, Word::Dcl)?;
    let (declarations, rest) = read_declarations(alloc, rest, inner)?;
    let (_, rest) = read_sign(rest, Sign::Semicolon)?;
    Ok((Local::Locations { at, declarations }, rest))
}
