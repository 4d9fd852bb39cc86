// Words that may be left out, with what they ask for.
ghost use Rattle.std.specs.Prelude.{option_map};
ghost use Rattle.chill_tree.specs.ExprTree.{boxed_expr};
ghost use Rattle.expr_parser.specs.Giving.{Gives};
ghost use Rattle.rules_model.specs.Reading.{name_at, listed_at};
ghost use Rattle.rules_model.specs.ModeReading.{value_at};
ghost use Rattle.rules_model.specs.SimpleReading.{clause_at, flag_at};

use chill_base::List;
use chill_tree::tree::{Expr, Name};
use chill_tree::{Token, Word};
use expr_parser::{ParseRefusal, read_name, read_names, read_value, read_word, starts_with};
use std::alloc::Global;

/// Reads a word and an expression, if the word is there; `inner` levels of nesting are left behind an opening token.
#[tactic(auto, unfolding(rules_model::specs::SimpleReading::clause_at))]
pub fn value_clause(
    alloc: Global,
    tokens: &[Token],
    word: Word,
    inner: usize,
) -> Result<(Option<Box<Expr>>, &[Token]), ParseRefusal>
    ensures { Gives (λ x. (option_map boxed_expr x.0, x.1.now)) result (clause_at word (value_at inner) tokens.now) }
{
    if !starts_with(tokens, word) {
        return Ok((None, tokens));
    }
    let (_, rest) = read_word(tokens, word)?;
    let (value, rest) = read_value(alloc, rest, inner)?;
    Ok((Some(value), rest))
}

/// Reads a word and a name, if the word is there.
#[tactic(auto, unfolding(rules_model::specs::SimpleReading::clause_at))]
pub fn name_clause(tokens: &[Token], word: Word) -> Result<(Option<Name>, &[Token]), ParseRefusal>
    ensures { Gives (λ x. (x.0, x.1.now)) result (clause_at word name_at tokens.now) }
{
    if !starts_with(tokens, word) {
        return Ok((None, tokens));
    }
    let (_, rest) = read_word(tokens, word)?;
    let (name, rest) = read_name(rest)?;
    Ok((Some(name), rest))
}

/// Reads a word and names with commas between them, if the word is there.
#[tactic(auto, unfolding(rules_model::specs::SimpleReading::clause_at))]
pub fn names_clause(
    alloc: Global,
    tokens: &[Token],
    word: Word,
) -> Result<(Option<List<Name>>, &[Token]), ParseRefusal>
    ensures { Gives (λ x. (x.0, x.1.now)) result (clause_at word (listed_at name_at) tokens.now) }
{
    if !starts_with(tokens, word) {
        return Ok((None, tokens));
    }
    let (_, rest) = read_word(tokens, word)?;
    let (names, rest) = read_names(alloc, rest)?;
    Ok((Some(names), rest))
}

/// Reads a word if it is there, and says whether it was.
#[tactic(auto, unfolding(rules_model::specs::SimpleReading::flag_at))]
pub fn flag(tokens: &[Token], word: Word) -> Result<(bool, &[Token]), ParseRefusal>
    ensures { Gives (λ x. (x.0, x.1.now)) result (flag_at word tokens.now) }
{
    if !starts_with(tokens, word) {
        return Ok((false, tokens));
    }
    let (_, rest) = read_word(tokens, word)?;
    Ok((true, rest))
}
