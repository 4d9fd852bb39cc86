// The name of an action or a block at its end.
ghost use Rattle.std.specs.Prelude.{◌≡◌, option_map};
ghost use Rattle.expr_parser.specs.Giving.{Gives};
ghost use Rattle.rules_model.specs.StatementReading as reading;

use chill_base::Item;
use chill_tree::tree::Name;
use chill_tree::{NameText, Token, TokenKind};
use expr_parser::ParseRefusal;

/// Reads the name again, if a name stands there.
#[tactic(auto, unfolding(rules_model::specs::StatementReading::closing_at))]
pub fn read_closing<'a>(
    tokens: &'a [Token],
    name: Option<&Name>,
) -> Result<(Option<Name>, &'a [Token]), ParseRefusal>
    ensures { Gives (λ x. (x.0, x.1.now)) result (reading.closing_at (option_map (λ n. n.now) name.entry) tokens.now) }
{
    match tokens {
        [token, rest @ ..] => match &token.kind {
            TokenKind::Name(text) => closed(name, token, text, rest),
            _ => Ok((None, tokens)),
        },
        [] => Ok((None, tokens)),
    }
}

// The name at the end, where it has to be the one given.
fn closed<'a>(
    name: Option<&Name>,
    token: &Token,
    text: &NameText,
    rest: &'a [Token],
) -> Result<(Option<Name>, &'a [Token]), ParseRefusal>
    ensures { Gives (λ x. (x.0, x.1.now)) result (reading.closed_at (option_map (λ n. n.now) name.entry) token.now text.now rest.now) }
{
    let refused = ParseRefusal::NoProgram { at: Some(token.at) };
    match name {
        Some(label) => {
            if !same_name(text, &label.text) {
                return Err(refused);
            }
            let text = text.copy()?;
            Ok((Some(Name { at: token.at, text }), rest))
        }
        None => Err(refused),
    }
}

// Whether two names are one.
fn same_name(text: &NameText, other: &NameText) -> bool
    ensures { result ≡ reading.same_name text.now other.now }
{
    text.equals(other)
}
