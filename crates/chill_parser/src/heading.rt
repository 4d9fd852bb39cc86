// The heads of items: the names that pass a border, which way a parameter passes its value, how a block begins.
ghost use Rattle.std.specs.Prelude.{◌≡◌};
ghost use Rattle.expr_parser.specs.Giving.{Gives};
ghost use Rattle.rules_model.specs.ItemReading.{kind_at, passed_at, passing_at};
ghost use Rattle.rules_model.specs.ItemReading as reading;

use chill_base::Pos;
use chill_tree::tree::{ModulionKind, Passed, Passing};
use chill_tree::{Token, Word};
use expr_parser::{ParseRefusal, behind, read_names, read_word, starts_with};
use statement_parser::begins_label;
use std::alloc::Global;

/// Whether a name, a colon and the word stand at the front.
pub(crate) fn begins_block(tokens: &[Token], word: Word) -> bool
    ensures { result ≡ reading.begins_block word tokens.now }
{
    begins_label(tokens) && starts_with(behind(behind(tokens)), word)
}

/// Reads the names that pass a border, or the word ALL.
#[tactic(auto, unfolding(rules_model::specs::ItemReading::passed_at))]
pub(crate) fn read_passed(
    alloc: Global,
    tokens: &[Token],
) -> Result<(Passed, &[Token]), ParseRefusal>
    ensures { Gives (λ x. (x.0, x.1.now)) result (passed_at tokens.now) }
{
    if starts_with(tokens, Word::All) {
        let (at, rest) = read_word(tokens, Word::All)?;
        return Ok((Passed::All(at), rest));
    }
    let (names, rest) = read_names(alloc, tokens)?;
    Ok((Passed::Names(names), rest))
}

/// Reads which way a parameter passes its value, where that is written.
#[tactic(auto, unfolding(rules_model::specs::ItemReading::passing_at))]
pub(crate) fn read_passing(tokens: &[Token]) -> Result<(Option<Passing>, &[Token]), ParseRefusal>
    ensures { Gives (λ x. (x.0, x.1.now)) result (passing_at tokens.now) }
{
    if starts_with(tokens, Word::In) {
        let (_, rest) = read_word(tokens, Word::In)?;
        return Ok((Some(Passing::In), rest));
    }
    if starts_with(tokens, Word::Out) {
        let (_, rest) = read_word(tokens, Word::Out)?;
        return Ok((Some(Passing::Out), rest));
    }
    if starts_with(tokens, Word::InOut) {
        let (_, rest) = read_word(tokens, Word::InOut)?;
        return Ok((Some(Passing::InOut), rest));
    }
    Ok((None, tokens))
}

/// Reads which kind a modulion has, and gives the place of that word.
#[tactic(auto, unfolding(rules_model::specs::ItemReading::kind_at))]
pub(crate) fn read_kind(tokens: &[Token]) -> Result<(Pos, ModulionKind, &[Token]), ParseRefusal>
    ensures { Gives (λ x. ((x.0, x.1), x.2.now)) result (kind_at tokens.now) }
{
    if starts_with(tokens, Word::Module) {
        let (at, rest) = read_word(tokens, Word::Module)?;
        return Ok((at, ModulionKind::Module, rest));
    }
    let (at, rest) = read_word(tokens, Word::Region)?;
    Ok((at, ModulionKind::Region, rest))
}
