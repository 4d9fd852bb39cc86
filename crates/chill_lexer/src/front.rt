// What stands at the front of a text.
ghost use Rattle.std.specs.Prelude.{◌≡◌, ◌+◌, ◌^◌, ◌<◌, length, true, false, slice_index, IfOk, IfSome, IfNone, vec_len, vec_capacity};
ghost use Rattle.rules_model.specs.TokensShapes.{is_separator, is_letter, is_decimal};
ghost use Rattle.rules_model.specs.TokensReading.{piece_at, limited, character_at, quoted_at, text_length};
ghost use Rattle.chill_lexer.specs.Front.{IsFront, IsBetween, IsAlong, of_token, starts, goes_on};
ghost use Rattle.chill_lexer.specs.Runs.{IsPut};

use crate::put::{put, put_found};
use crate::{literal, run};
use chill_base::{Memory, Pos};
use chill_tree::{Token, TokenKind};
use std::alloc::Global;

/// What stood at the front of a text, and how many bytes it has.
#[derive(Drop)]
pub(crate) enum Front {
    /// A separator or a comment, and the place behind it.
    Between { length: usize, behind: Pos },
    /// A token, which now stands behind the others.
    Token { length: usize },
    /// No piece begins.
    Bad,
}

// How many bytes the piece at the front of a text has, where it is a token or a blank that most texts are full of. The
// caller's loop has this in its own code. A token is put behind the others.
#[inline(always)]
pub(crate) fn along(at: Pos, text: &[u8], tokens: &mut Vec<Token>) -> Option<usize>
    requires { vec_len tokens.old < vec_capacity tokens.old }
    ensures found { IfSome result (λ length. IsAlong at text.now tokens.old.items tokens.new.items length) }
    ensures none { IfNone result (tokens.new ≡ tokens.old) }
{
    let [first, second, ..] = text else {
        return None
    };
    if run::is_letter(*first) && *second != b'\'' {
        return literal::short_name(at, text, tokens);
    }
    if *first == b' ' {
        return Some(1);
    }
    if run::is_decimal(*first) && !run::is_name_byte(*second) {
        put(tokens, at, TokenKind::Whole(run::digit_of(*first)));
        return Some(1);
    }
    if goes_on(*second) {
        return None;
    }
    let (kind, length) = literal::lone_sign(*first)?;
    put(tokens, at, kind);
    Some(length)
}

// The place behind a line feed.
pub(crate) fn next_line(at: Pos) -> Pos
    requires { at.line + 1 < 2 ^ 32 }
    ensures { result ≡ record { line = at.line + 1; column = 1 } }
{
    Pos {
        line: at.line + 1,
        column: 1,
    }
}

// What stands at the front of a text that begins at a place, whatever it is. A token is put behind the others.
#[inline(never)]
pub(crate) fn any_front(
    alloc: Global,
    at: Pos,
    text: &[u8],
    tokens: &mut Vec<Token>,
) -> Result<Front, Memory>
    requires line { at.line + length text.now < 2 ^ 32 }
    requires column { at.column + length text.now < 2 ^ 32 }
    requires room { vec_len tokens.old < vec_capacity tokens.old }
    ensures { IfOk result (λ front. IsFront at text.now tokens.old.items tokens.new.items front) }
{
    let [first, behind @ ..] = text else {
        return Ok(Front::Bad)
    };
    if run::is_letter(*first) {
        return Ok(of_token(literal::word(alloc, at, text, tokens)?));
    }
    if is_separator(*first) {
        return Ok(Front::Between {
            length: 1,
            behind: run::behind(at, *first),
        });
    }
    if run::is_decimal(*first) {
        return Ok(of_token(put_found(tokens, at, literal::whole(text))));
    }
    if *first == b'-' && literal::begins_with(behind, b'-') {
        return Ok(line_comment(at, text));
    }
    if *first == b'/' && literal::begins_with(behind, b'*') {
        return Ok(comment(at, text));
    }
    Ok(of_token(other(alloc, at, text, tokens)?))
}

// A token of so many bytes, or none.
#[inline(always)]
fn of_token(length: Option<usize>) -> Front
    ensures { result ≡ of_token length }
{
    let Some(length) = length else {
        return Front::Bad
    };
    Front::Token { length }
}

// `--` and what is left of the line.
fn line_comment(at: Pos, text: &[u8]) -> Front
    requires column { at.column + length text.now < 2 ^ 32 }
    requires starts { starts 45 45 text.now ≡ true }
    ensures { IsBetween at text.now result }
{
    let length = 2 + run::line_length(&text[2..]);
    Front::Between {
        length,
        behind: right(at, length),
    }
}

// `/*` up to the next `*/`.
fn comment(at: Pos, text: &[u8]) -> Front
    requires line { at.line + length text.now < 2 ^ 32 }
    requires column { at.column + length text.now < 2 ^ 32 }
    requires starts { starts 47 42 text.now ≡ true }
    ensures { IsBetween at text.now result }
{
    match run::closing(&text[2..], right(at, 2)) {
        Some((length, behind)) => Front::Between {
            length: length + 2,
            behind,
        },
        None => Front::Bad,
    }
}

/// The place behind some bytes of one line.
pub(crate) fn right(at: Pos, length: usize) -> Pos
    requires { at.column + length < 2 ^ 32 }
    ensures { result ≡ record at { column = at.column + length } }
{
    Pos {
        line: at.line,
        column: at.column + length as u32,
    }
}

// Whether two bytes can be a sign of two, or begin a comment, where the second is this.
fn goes_on(second: u8) -> bool
    ensures { result ≡ goes_on second }
{
    matches!(second, b'=' | b'-' | b'*')
}

// Blank, tab, line feed, carriage return.
fn is_separator(byte: u8) -> bool
    ensures { result ≡ is_separator byte }
{
    matches!(byte, b' ' | b'\t' | b'\n' | b'\r')
}

// A literal in quotes or a sign, where nothing else can stand.
#[inline(always)]
fn other(
    alloc: Global,
    at: Pos,
    text: &[u8],
    tokens: &mut Vec<Token>,
) -> Result<Option<usize>, Memory>
    requires small { length text.now < 2 ^ 32 }
    requires no_letter { is_letter (slice_index text.now 0) ≡ false }
    requires no_separator { is_separator (slice_index text.now 0) ≡ false }
    requires no_decimal { is_decimal (slice_index text.now 0) ≡ false }
    requires no_line { starts 45 45 text.now ≡ false }
    requires no_comment { starts 47 42 text.now ≡ false }
    requires room { vec_len tokens.old < vec_capacity tokens.old }
    ensures { IfOk result (λ length. IsPut at (piece_at text.now) tokens.old.items tokens.new.items length) }
{
    let [first, behind @ ..] = text else {
        return Ok(None)
    };
    match *first {
        b'\'' => Ok(put_character(tokens, at, behind)),
        b'"' => put_text(alloc, at, behind, tokens),
        first => Ok(put_found(tokens, at, literal::sign(first, behind))),
    }
}

// Puts a character literal behind its first `'`.
fn put_character(tokens: &mut Vec<Token>, at: Pos, text: &[u8]) -> Option<usize>
    requires { vec_len tokens.old < vec_capacity tokens.old }
    ensures { IsPut at (limited (character_at text.now)) tokens.old.items tokens.new.items result }
{
    put_found(tokens, at, literal::character(text))
}

// Puts a text literal behind its first `"`.
fn put_text(
    alloc: Global,
    at: Pos,
    text: &[u8],
    tokens: &mut Vec<Token>,
) -> Result<Option<usize>, Memory>
    requires small { length text.now < 2 ^ 32 }
    requires room { vec_len tokens.old < vec_capacity tokens.old }
    ensures { IfOk result (λ length.
        IsPut at (limited (quoted_at text.now (text_length text.now))) tokens.old.items tokens.new.items length) }
{
    let found = literal::text(alloc, text)?;
    Ok(put_found(tokens, at, found))
}
