// The tokens of a whole text.
ghost use Rattle.std.specs.Prelude.{◌≡◌, ◌-◌, ◌^◌, ◌<◌, [], length, IfOk, IfErr};
ghost use Rattle.rules_model.specs.TokensCut.{AreTokensOf};
ghost use Rattle.chill_lexer.specs.Lexer.{IsRefusal, IsNoToken};

use crate::front::{self, Front};
use crate::put;
use chill_base::{Memory, Pos, Text};
use chill_tree::{Token, Tokens};
use diagnostics::{Diagnostic, Rule};
use std::alloc::Global;

/// Why a text has no tokens.
#[derive(Drop)]
pub enum LexRefusal {
    /// A byte begins no token.
    Bad(Diagnostic),
    Memory,
}

impl From<Memory> for LexRefusal {
    ghost use Rattle.chill_lexer.specs.declared.lexer.LexRefusal.TheVariants as refusals;

    ghost from_gives = { λ _ refusal. refusal ≡ refusals.Memory };

    fn from(_: Memory) -> LexRefusal {
        LexRefusal::Memory
    }
}

/// The tokens of a text, or the first place where a byte begins none (Z.200, chapter on the lexical elements).
pub fn lex(alloc: Global, text: &[u8]) -> Result<Tokens, LexRefusal>
    requires { length text.now < 2 ^ 32 - 1 }
    ensures tokens { IfOk result (λ tokens. AreTokensOf text.now tokens) }
    ensures refused { IfErr result (λ refusal. IsRefusal text.now refusal) }
{
    let mut tokens = with_room(alloc, text.len())?;
    let mut at = Pos { line: 1, column: 1 };
    let mut rest = text;
    while !rest.is_empty() {
        put::make_room(&mut tokens)?;
        if let Some(length) = front::along(at, rest, &mut tokens) {
            at = front::right(at, length);
            rest = rest.split_at(length).1;
            continue;
        }
        if rest[0] == b'\n' {
            at = front::next_line(at);
            rest = &rest[1..];
            continue;
        }
        match front::any_front(alloc, at, rest, &mut tokens)? {
            Front::Between { length, behind } => {
                at = behind;
                rest = rest.split_at(length).1;
            }
            Front::Token { length } => {
                at = front::right(at, length);
                rest = rest.split_at(length).1;
            }
            Front::Bad => return Err(LexRefusal::Bad(no_token(alloc, at))),
        }
    }
    Ok(Tokens::from_vec(tokens))
}

// No tokens yet, and room for those of a dense text of that length: one for three bytes.
fn with_room(alloc: Global, length: usize) -> Result<Vec<Token>, Memory>
    ensures { IfOk result (λ tokens. tokens.items ≡ []) }
{
    Ok(Vec::with_capacity(alloc, length / 3)?)
}

// What is told of a byte that begins no token.
fn no_token(alloc: Global, at: Pos) -> Diagnostic
    ensures { IsNoToken at result }
{
    Diagnostic {
        at,
        rule: Rule::T1,
        first: Text::new(alloc),
        second: Text::new(alloc),
    }
}
