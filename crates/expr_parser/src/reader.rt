// Readers of what stands at the front of a list of tokens: signs, words and names.
ghost use Rattle.std.specs.Prelude.{◌≡◌, IfOk};
ghost use Rattle.expr_parser.specs.Giving.{Gives};
ghost use Rattle.rules_model.specs.Marks as marks;
ghost use Rattle.rules_model.specs.Nesting as nesting;
ghost use Rattle.rules_model.specs.Reading.{sign_at, word_at, name_at};

use crate::ParseRefusal;
use chill_base::{Item, Memory, Pos};
use chill_tree::tree::{Name, Operator};
use chill_tree::{Sign, Token, TokenKind, Word};
use std::alloc::Global;

/// Whether a sign stands at the front.
pub fn starts(tokens: &[Token], sign: Sign) -> bool
    ensures { result ≡ marks.begins sign tokens.now }
{
    match tokens.first() {
        Some(token) => is_sign(&token.kind, sign),
        None => false,
    }
}

/// Whether a word stands at the front.
pub fn starts_with(tokens: &[Token], word: Word) -> bool
    ensures { result ≡ marks.begins_with word tokens.now }
{
    match tokens.first() {
        Some(token) => is_word(&token.kind, word),
        None => false,
    }
}

/// Whether a name stands at the front.
pub fn starts_name(tokens: &[Token]) -> bool
    ensures { result ≡ marks.begins_name tokens.now }
{
    match tokens {
        [token, ..] => match &token.kind {
            TokenKind::Name(_) => true,
            _ => false,
        },
        [] => false,
    }
}

/// Whether an expression may begin with the first token.
pub fn starts_expr(tokens: &[Token]) -> bool
    ensures { result ≡ marks.begins_expr tokens.now }
{
    match tokens.first() {
        Some(token) => begins_expr(&token.kind),
        None => false,
    }
}

/// The place of the first token, or none at the end.
pub fn place(tokens: &[Token]) -> Option<Pos>
    ensures { result ≡ marks.front tokens.now }
{
    match tokens.first() {
        Some(token) => Some(token.at),
        None => None,
    }
}

/// The tokens behind the first.
pub fn behind(tokens: &[Token]) -> &[Token]
    ensures { result.now ≡ marks.behind tokens.now }
{
    match tokens {
        [_, rest @ ..] => rest,
        [] => tokens,
    }
}

/// The levels of nesting that are left behind one more opening token.
pub fn less(levels: usize) -> usize
    ensures { result ≡ nesting.less levels }
{
    if levels == 0 { 0 } else { levels - 1 }
}

/// The operator between two operands that a token is.
pub fn operator_of(kind: &TokenKind) -> Option<Operator>
    ensures { result ≡ marks.operator_of kind.now }
{
    match kind {
        TokenKind::Word(Word::Or) => Some(Operator::Or),
        TokenKind::Word(Word::Xor) => Some(Operator::Xor),
        TokenKind::Word(Word::OrIf) => Some(Operator::OrIf),
        TokenKind::Word(Word::And) => Some(Operator::And),
        TokenKind::Word(Word::AndIf) => Some(Operator::AndIf),
        TokenKind::Word(Word::In) => Some(Operator::In),
        TokenKind::Word(Word::Mod) => Some(Operator::Mod),
        TokenKind::Word(Word::Rem) => Some(Operator::Rem),
        TokenKind::Sign(Sign::Equal) => Some(Operator::Equal),
        TokenKind::Sign(Sign::NotEqual) => Some(Operator::NotEqual),
        TokenKind::Sign(Sign::Less) => Some(Operator::Less),
        TokenKind::Sign(Sign::LessOrEqual) => Some(Operator::LessOrEqual),
        TokenKind::Sign(Sign::Greater) => Some(Operator::Greater),
        TokenKind::Sign(Sign::GreaterOrEqual) => Some(Operator::GreaterOrEqual),
        TokenKind::Sign(Sign::Plus) => Some(Operator::Plus),
        TokenKind::Sign(Sign::Minus) => Some(Operator::Minus),
        TokenKind::Sign(Sign::Times) => Some(Operator::Times),
        TokenKind::Sign(Sign::Divide) => Some(Operator::Divide),
        _ => None,
    }
}

/// Reads a sign: its place, and the tokens behind it.
#[tactic(auto, unfolding(rules_model::specs::Reading::sign_at))]
pub fn read_sign(tokens: &[Token], sign: Sign) -> Result<(Pos, &[Token]), ParseRefusal>
    ensures { Gives (λ x. (x.0, x.1.now)) result (sign_at sign tokens.now) }
{
    match tokens {
        [token, rest @ ..] => {
            if is_sign(&token.kind, sign) {
                Ok((token.at, rest))
            } else {
                Err(ParseRefusal::NoProgram { at: Some(token.at) })
            }
        }
        [] => Err(ParseRefusal::NoProgram { at: None }),
    }
}

/// Reads a word: its place, and the tokens behind it.
#[tactic(auto, unfolding(rules_model::specs::Reading::word_at))]
pub fn read_word(tokens: &[Token], word: Word) -> Result<(Pos, &[Token]), ParseRefusal>
    ensures { Gives (λ x. (x.0, x.1.now)) result (word_at word tokens.now) }
{
    match tokens {
        [token, rest @ ..] => {
            if is_word(&token.kind, word) {
                Ok((token.at, rest))
            } else {
                Err(ParseRefusal::NoProgram { at: Some(token.at) })
            }
        }
        [] => Err(ParseRefusal::NoProgram { at: None }),
    }
}

/// Reads a name, and gives the tokens behind it.
#[tactic(auto, unfolding(rules_model::specs::Reading::name_at))]
pub fn read_name(tokens: &[Token]) -> Result<(Name, &[Token]), ParseRefusal>
    ensures { Gives (λ x. (x.0, x.1.now)) result (name_at tokens.now) }
{
    match tokens {
        [token, rest @ ..] => match &token.kind {
            TokenKind::Name(text) => {
                let text = text.copy()?;
                Ok((Name { at: token.at, text }, rest))
            }
            _ => Err(ParseRefusal::NoProgram { at: Some(token.at) }),
        },
        [] => Err(ParseRefusal::NoProgram { at: None }),
    }
}

// Whether a token is a sign.
fn is_sign(kind: &TokenKind, sign: Sign) -> bool
    ensures { result ≡ marks.is_sign sign kind.now }
{
    match kind {
        TokenKind::Sign(own) => *own == sign,
        _ => false,
    }
}

// Whether a token is a word.
fn is_word(kind: &TokenKind, word: Word) -> bool
    ensures { result ≡ marks.is_word word kind.now }
{
    match kind {
        TokenKind::Word(own) => *own == word,
        _ => false,
    }
}

// Whether an expression may begin with a token.
fn begins_expr(kind: &TokenKind) -> bool
    ensures { result ≡ marks.starts_expr kind.now }
{
    match kind {
        TokenKind::Whole(_) => true,
        TokenKind::Char(_) => true,
        TokenKind::Text(_) => true,
        TokenKind::Name(_) => true,
        TokenKind::Word(Word::This | Word::Receive | Word::Start | Word::Not) => true,
        TokenKind::Sign(Sign::Open | Sign::OpenBracket | Sign::Minus) => true,
        _ => false,
    }
}

/// A node in a box.
pub fn boxed<T: Drop>(alloc: Global, node: T) -> Result<Box<T>, Memory>
    ensures { IfOk result (λ own. own.value ≡ node) }
{
    Ok(Box::new(alloc, node)?)
}
