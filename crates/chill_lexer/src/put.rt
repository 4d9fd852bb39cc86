// Tokens are put behind the others as soon as it is known what they are, so that each is made where it is to lie. The
// caller makes room before, in one place.
ghost use Rattle.std.specs.Prelude.{◌≡◌, ◌<◌, ◌∷◌, ◌++◌, [], OnOk, vec_len, vec_capacity};
ghost use Rattle.chill_lexer.specs.Runs.{as_token, IsPut};

use chill_base::{Memory, Pos};
use chill_tree::{Token, TokenKind};

// Makes room for one more token.
#[inline(always)]
pub(crate) fn make_room(tokens: &mut Vec<Token>) -> Result<(), Memory>
    ensures same { tokens.new.items ≡ tokens.old.items }
    ensures room { OnOk result (vec_len tokens.new < vec_capacity tokens.new) }
{
    Ok(tokens.reserve(1)?)
}

// Puts a token.
#[inline(always)]
pub(crate) fn put(tokens: &mut Vec<Token>, at: Pos, kind: TokenKind)
    requires { vec_len tokens.old < vec_capacity tokens.old }
    ensures { tokens.new.items ≡ tokens.old.items ++ record { at = at; kind = kind } ∷ [] }
{
    tokens.push_reserved(Token { at, kind });
}

// Puts the token that was found, if any, and tells how many bytes it has.
#[inline(always)]
pub(crate) fn put_found(
    tokens: &mut Vec<Token>,
    at: Pos,
    found: Option<(TokenKind, usize)>,
) -> Option<usize>
    requires { vec_len tokens.old < vec_capacity tokens.old }
    ensures { IsPut at (as_token found) tokens.old.items tokens.new.items result }
{
    match found {
        Some((kind, length)) => {
            put(tokens, at, kind);
            Some(length)
        }
        None => None,
    }
}
