// Readers of names for values and for modes.
ghost use Rattle.std.specs.Prelude.{map, option_map};
ghost use Rattle.chill_tree.specs.ModeTree.{mode_tree};
ghost use Rattle.chill_tree.specs.LocalTree.{synonym_tree, mode_definition_tree};
ghost use Rattle.expr_parser.specs.Giving.{Gives};
ghost use Rattle.rules_model.specs.Reading.{listed_at};
ghost use Rattle.rules_model.specs.ModeReading.{written_mode_at, synonym_at, mode_definition_at};

use crate::mode::read_mode;
use chill_base::List;
use chill_tree::tree::{Mode, ModeDefinition, Synonym};
use chill_tree::{Sign, Token};
use expr_parser::{
    Listed, ParseRefusal, read_list, read_name, read_names, read_sign, read_value, starts,
};
use std::alloc::Global;

// Names for values, where so many levels of nesting are left behind their opening tokens.
#[derive(Drop)]
struct Synonyms {
    inner: usize,
}

impl Listed for Synonyms {
    type Item = Synonym;

    ghost use Rattle.chill_tree.specs.LocalTree.{SynonymTree};

    ghost Tree = { SynonymTree };

    ghost tree = { synonym_tree };

    ghost reads = { λ s. synonym_at s.inner };
}

/// Reads names for values with commas between them, at least one.
pub fn read_synonyms(
    alloc: Global,
    tokens: &[Token],
    inner: usize,
) -> Result<(List<Synonym>, &[Token]), ParseRefusal>
    ensures { Gives (λ x. (map synonym_tree x.0, x.1.now)) result (listed_at (synonym_at inner) tokens.now) }
{
    read_list(alloc, tokens, &Synonyms { inner }, |item| {
        synonym(alloc, item, inner)
    })
}

// Reads names for the value of a constant.
#[tactic(auto, unfolding(rules_model::specs::ModeReading::synonym_at))]
fn synonym(
    alloc: Global,
    tokens: &[Token],
    inner: usize,
) -> Result<(Synonym, &[Token]), ParseRefusal>
    ensures { Gives (λ x. (synonym_tree x.0, x.1.now)) result (synonym_at inner tokens.now) }
{
    let (names, rest) = read_names(alloc, tokens)?;
    let (mode, rest) = written_mode(alloc, rest, inner)?;
    let (_, rest) = read_sign(rest, Sign::Equal)?;
    let (value, rest) = read_value(alloc, rest, inner)?;
    Ok((Synonym { names, mode, value }, rest))
}

// Reads a mode, unless the sign behind it is there.
#[tactic(auto, unfolding(rules_model::specs::ModeReading::written_mode_at))]
fn written_mode(
    alloc: Global,
    tokens: &[Token],
    inner: usize,
) -> Result<(Option<Mode>, &[Token]), ParseRefusal>
    ensures { Gives (λ x. (option_map mode_tree x.0, x.1.now)) result (written_mode_at inner tokens.now) }
{
    if starts(tokens, Sign::Equal) {
        return Ok((None, tokens));
    }
    let (mode, rest) = read_mode(alloc, tokens, inner)?;
    Ok((Some(mode), rest))
}

// Names for modes, where so many levels of nesting are left behind their opening tokens.
#[derive(Drop)]
struct ModeDefinitions {
    inner: usize,
}

impl Listed for ModeDefinitions {
    type Item = ModeDefinition;

    ghost use Rattle.chill_tree.specs.LocalTree.{ModeDefinitionTree};

    ghost Tree = { ModeDefinitionTree };

    ghost tree = { mode_definition_tree };

    ghost reads = { λ s. mode_definition_at s.inner };
}

/// Reads names for modes with commas between them, at least one.
pub fn read_mode_definitions(
    alloc: Global,
    tokens: &[Token],
    inner: usize,
) -> Result<(List<ModeDefinition>, &[Token]), ParseRefusal>
    ensures { Gives (λ x. (map mode_definition_tree x.0, x.1.now)) result (listed_at (mode_definition_at inner) tokens.now) }
{
    read_list(alloc, tokens, &ModeDefinitions { inner }, |item| {
        mode_definition(alloc, item, inner)
    })
}

// Reads a name for a mode.
#[tactic(auto, unfolding(rules_model::specs::ModeReading::mode_definition_at))]
fn mode_definition(
    alloc: Global,
    tokens: &[Token],
    inner: usize,
) -> Result<(ModeDefinition, &[Token]), ParseRefusal>
    ensures { Gives (λ x. (mode_definition_tree x.0, x.1.now)) result (mode_definition_at inner tokens.now) }
{
    let (name, rest) = read_name(tokens)?;
    let (_, rest) = read_sign(rest, Sign::Equal)?;
    let (mode, rest) = read_mode(alloc, rest, inner)?;
    Ok((ModeDefinition { name, mode }, rest))
}
