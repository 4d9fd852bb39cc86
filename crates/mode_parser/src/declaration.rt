// Readers of declarations of locations.
ghost use Rattle.std.specs.Prelude.{map, option_map};
ghost use Rattle.chill_tree.specs.LocalTree.{initial_tree, declaration_tree};
ghost use Rattle.expr_parser.specs.Giving.{Gives};
ghost use Rattle.mode_parser.specs.LocalParts.{by_sign_at, by_word_at};
ghost use Rattle.rules_model.specs.Reading.{listed_at};
ghost use Rattle.rules_model.specs.ModeReading.{initial_at, declaration_at};

use crate::mode::read_mode;
use chill_base::List;
use chill_tree::tree::{Declaration, Initial};
use chill_tree::{Sign, Token, Word};
use expr_parser::{
    Listed, ParseRefusal, read_list, read_names, read_sign, read_value, read_word, starts,
    starts_with,
};
use std::alloc::Global;

// Declarations, where so many levels of nesting are left behind their opening tokens.
#[derive(Drop)]
struct Declarations {
    inner: usize,
}

impl Listed for Declarations {
    type Item = Declaration;

    ghost use Rattle.chill_tree.specs.LocalTree.{DeclarationTree};

    ghost Tree = { DeclarationTree };

    ghost tree = { declaration_tree };

    ghost reads = { λ s. declaration_at s.inner };
}

/// Reads declarations with commas between them, at least one.
pub fn read_declarations(
    alloc: Global,
    tokens: &[Token],
    inner: usize,
) -> Result<(List<Declaration>, &[Token]), ParseRefusal>
    ensures { Gives (λ x. (map declaration_tree x.0, x.1.now)) result (listed_at (declaration_at inner) tokens.now) }
{
    read_list(alloc, tokens, &Declarations { inner }, |item| {
        declaration(alloc, item, inner)
    })
}

// Reads names for locations, their mode, and what they hold at first where it is written.
#[tactic(auto, unfolding(rules_model::specs::ModeReading::declaration_at))]
fn declaration(
    alloc: Global,
    tokens: &[Token],
    inner: usize,
) -> Result<(Declaration, &[Token]), ParseRefusal>
    ensures { Gives (λ x. (declaration_tree x.0, x.1.now)) result (declaration_at inner tokens.now) }
{
    let (names, rest) = read_names(alloc, tokens)?;
    let (mode, rest) = read_mode(alloc, rest, inner)?;
    let (initial, rest) = initial(alloc, rest, inner)?;
    let declaration = Declaration {
        names,
        mode,
        initial,
    };
    Ok((declaration, rest))
}

// Reads what locations hold at first, if it is written.
#[tactic(auto, unfolding(rules_model::specs::ModeReading::initial_at))]
fn initial(
    alloc: Global,
    tokens: &[Token],
    inner: usize,
) -> Result<(Option<Initial>, &[Token]), ParseRefusal>
    ensures { Gives (λ x. (option_map initial_tree x.0, x.1.now)) result (initial_at inner tokens.now) }
{
    if starts(tokens, Sign::Becomes) {
        return by_sign(alloc, tokens, inner);
    }
    if starts_with(tokens, Word::Init) {
        return by_word(alloc, tokens, inner);
    }
    Ok((None, tokens))
}

// Reads what locations hold at first, from its sign on.
fn by_sign(
    alloc: Global,
    tokens: &[Token],
    inner: usize,
) -> Result<(Option<Initial>, &[Token]), ParseRefusal>
    ensures { Gives (λ x. (option_map initial_tree x.0, x.1.now)) result (by_sign_at inner tokens.now) }
{
    let (at, rest) = read_sign(tokens, Sign::Becomes)?;
    let (value, rest) = read_value(alloc, rest, inner)?;
    let initial = Initial {
        at,
        init: false,
        value,
    };
    Ok((Some(initial), rest))
}

// Reads what locations hold at first, from the word INIT on.
fn by_word(
    alloc: Global,
    tokens: &[Token],
    inner: usize,
) -> Result<(Option<Initial>, &[Token]), ParseRefusal>
    ensures { Gives (λ x. (option_map initial_tree x.0, x.1.now)) result (by_word_at inner tokens.now) }
{
    let (at, rest) = read_word(tokens, Word::Init)?;
    let (_, rest) = read_sign(rest, Sign::Becomes)?;
    let (value, rest) = read_value(alloc, rest, inner)?;
    let initial = Initial {
        at,
        init: true,
        value,
    };
    Ok((Some(initial), rest))
}
