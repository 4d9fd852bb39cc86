// The reader of handlers (Z.200, chapter on exception handling).
ghost use Rattle.std.specs.Prelude.{◌≡◌, map, option_map};
ghost use Rattle.chill_tree.specs.StatementTree.{statement_trees, named_tree, boxed_handler};
ghost use Rattle.expr_parser.specs.Giving.{Gives};
ghost use Rattle.rules_model.specs.StatementGrammar as grammar;
ghost use Rattle.rules_model.specs.StatementReading.{handler_at, actions_at};

use crate::alternative::{read_alternatives, read_otherwise};
use chill_base::List;
use chill_tree::tree::{Handler, NamedAlternative, Statement};
use chill_tree::{Token, Word};
use expr_parser::{ParseRefusal, place, read_word, starts_with};
use std::alloc::Global;

/// Reads a handler, if one stands there; `inner` levels of nesting are left in it.
#[cycle(statement)]
#[tactic(auto, unfolding(rules_model::specs::StatementReading::handler_at))]
pub fn read_handler(
    alloc: Global,
    tokens: &[Token],
    inner: usize,
) -> Result<(Option<Box<Handler>>, &[Token]), ParseRefusal>
    ensures { Gives (λ x. (option_map boxed_handler x.0, x.1.now)) result (handler_at (actions_at inner) tokens.now) }
{
    if !starts_with(tokens, Word::On) {
        return Ok((None, tokens));
    }
    let (at, rest) = read_word(tokens, Word::On)?;
    let (alternatives, rest) = read_alternatives(alloc, rest, inner, at)?;
    let (otherwise, rest) = read_otherwise(alloc, rest, inner, at)?;
    if !handles(&alternatives, &otherwise) {
        return Err(ParseRefusal::NoProgram { at: place(rest) });
    }
    let (_, rest) = read_word(rest, Word::End)?;
    let handler = Handler::new(alloc, at, alternatives, otherwise)?;
    Ok((Some(handler), rest))
}

// Whether a handler has an alternative or an ELSE.
fn handles(alternatives: &List<NamedAlternative>, otherwise: &Option<List<Statement>>) -> bool
    ensures { result ≡ grammar.handles (map named_tree alternatives.now) (option_map statement_trees otherwise.now) }
{
    match alternatives.as_slice() {
        [_, ..] => true,
        [] => match otherwise {
            Some(_) => true,
            None => false,
        },
    }
}
