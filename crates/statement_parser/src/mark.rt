// How statements and definitions begin.
ghost use Rattle.std.specs.Prelude.{◌≡◌};
ghost use Rattle.rules_model.specs.StatementReading as reading;

use chill_tree::{Sign, Token, TokenKind, Word};
use expr_parser::{starts, starts_with};

/// Whether a label stands at the front: a name and a colon.
pub fn begins_label(tokens: &[Token]) -> bool
    ensures { result ≡ reading.begins_label tokens.now }
{
    match tokens {
        [token, rest @ ..] => match &token.kind {
            TokenKind::Name(_) => starts(rest, Sign::Colon),
            _ => false,
        },
        [] => false,
    }
}

/// Whether an action that holds others stands at the front. No other action begins with RECEIVE, and one that begins
/// with DELAY holds others where CASE follows.
pub fn begins_bracketed(tokens: &[Token]) -> bool
    ensures { result ≡ reading.begins_bracketed tokens.now }
{
    match tokens {
        [token, rest @ ..] => match &token.kind {
            TokenKind::Word(Word::If | Word::Case | Word::Do | Word::Begin | Word::Receive) => true,
            TokenKind::Word(Word::Delay) => starts_with(rest, Word::Case),
            _ => false,
        },
        [] => false,
    }
}

/// Whether a statement may begin with the first token.
pub fn begins_statement(tokens: &[Token]) -> bool
    ensures { result ≡ reading.begins_statement tokens.now }
{
    match tokens {
        [token, ..] => match &token.kind {
            TokenKind::Name(_) => true,
            TokenKind::Sign(Sign::Semicolon) => true,
            TokenKind::Word(Word::If | Word::Case | Word::Do | Word::Begin) => true,
            TokenKind::Word(Word::Delay | Word::Receive | Word::Call | Word::Exit) => true,
            TokenKind::Word(Word::Return | Word::Result | Word::Assert | Word::Cause) => true,
            TokenKind::Word(Word::Stop | Word::Start | Word::Continue | Word::Send) => true,
            _ => false,
        },
        [] => false,
    }
}

/// Whether definitions begin with the first token.
pub fn begins_local(tokens: &[Token]) -> bool
    ensures { result ≡ reading.begins_local tokens.now }
{
    match tokens {
        [token, ..] => match &token.kind {
            TokenKind::Word(Word::Syn | Word::SynMode | Word::NewMode | Word::Dcl) => true,
            _ => false,
        },
        [] => false,
    }
}
