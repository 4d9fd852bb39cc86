// Tokens written in the one way that is canonical.
ghost use Rattle.std.specs.Prelude.{◌≡◌, ◌++◌, IfOk, OnOk};
ghost use Rattle.chill_tree.specs.declared.token.TokenKind.TheVariants as kinds;
ghost use Rattle.chill_tree.specs.declared.token.Sign.TheVariants as signs;
ghost use Rattle.rules_model.specs.TokensShapes.{quoted};
ghost use Rattle.rules_model.specs.Marks.{is_sign};
ghost use Rattle.tree_print.specs.Canonical.{token_kinds, kind_text, gap_behind, canonical_text};

use chill_base::{Memory, Text};
use chill_tree::{Sign, Token, TokenKind};
use std::alloc::Global;

/// The canonical text of tokens (our own choice): reserved words in upper case, whole literals in decimal digits, one
/// blank between two tokens, and in its place a line feed behind each `;`. Comments aren't kept.
pub fn print(alloc: Global, tokens: &[Token]) -> Result<Text, Memory>
    ensures { IfOk result (λ text. text ≡ canonical_text (token_kinds tokens.now)) }
{
    let mut text = Vec::new(alloc);
    let mut rest = tokens;
    while let [token, behind @ ..] = rest {
        push_kind(alloc, &mut text, &token.kind)?;
        push_gap(&mut text, &token.kind, behind)?;
        rest = behind;
    }
    Ok(Text::from_vec(text))
}

// What stands behind a token, where these others follow.
fn push_gap(text: &mut Vec<u8>, kind: &TokenKind, following: &[Token]) -> Result<(), Memory>
    ensures { OnOk result (text.new.items ≡ text.old.items ++ gap_behind kind.now (token_kinds following.now)) }
{
    if is_semicolon(kind) {
        text.push(b'\n')?;
    } else if let [_, ..] = following {
        text.push(b' ')?;
    }
    Ok(())
}

fn is_semicolon(kind: &TokenKind) -> bool
    ensures { result ≡ is_sign signs.Semicolon kind.now }
{
    matches!(kind, TokenKind::Sign(Sign::Semicolon))
}

fn push_kind(alloc: Global, text: &mut Vec<u8>, kind: &TokenKind) -> Result<(), Memory>
    ensures { OnOk result (text.new.items ≡ text.old.items ++ kind_text kind.now) }
{
    match kind {
        TokenKind::Word(word) => text.extend_from_slice(word.spelling().as_bytes())?,
        TokenKind::Name(name) => text.extend_from_slice(name.as_slice())?,
        TokenKind::Whole(number) => push_decimal(alloc, text, *number)?,
        TokenKind::Char(byte) => push_character(text, *byte)?,
        TokenKind::Text(literal) => push_text(text, literal.as_text().as_slice())?,
        TokenKind::Sign(sign) => text.extend_from_slice(sign.spelling().as_bytes())?,
    }
    Ok(())
}

fn push_decimal(alloc: Global, text: &mut Vec<u8>, number: u64) -> Result<(), Memory>
    ensures { OnOk result (text.new.items ≡ text.old.items ++ kind_text (kinds.Whole number)) }
{
    let digits = format!(in alloc; "{number}")?;
    text.extend_from_slice(digits.as_bytes())?;
    Ok(())
}

// A character literal: the apostrophe is written twice.
fn push_character(text: &mut Vec<u8>, byte: u8) -> Result<(), Memory>
    ensures { OnOk result (text.new.items ≡ text.old.items ++ kind_text (kinds.Char byte)) }
{
    text.push(b'\'')?;
    if byte == b'\'' {
        text.push(b'\'')?;
    }
    text.push(byte)?;
    text.push(b'\'')?;
    Ok(())
}

fn push_text(text: &mut Vec<u8>, value: &[u8]) -> Result<(), Memory>
    ensures { OnOk result (text.new.items ≡ text.old.items ++ kind_text (kinds.Text value.now)) }
{
    text.push(b'"')?;
    push_quoted(text, value)?;
    text.push(b'"')?;
    Ok(())
}

// What stands between the quotes: each `"` twice.
fn push_quoted(text: &mut Vec<u8>, value: &[u8]) -> Result<(), Memory>
    ensures { OnOk result (text.new.items ≡ text.old.items ++ quoted value.now) }
{
    let mut rest = value;
    while let [byte, behind @ ..] = rest {
        if *byte == b'"' {
            text.push(b'"')?;
        }
        text.push(*byte)?;
        rest = behind;
    }
    Ok(())
}
