// Names, literals and signs at the front of a text, each with the number of its bytes. None begins where a limit is
// passed.
ghost use Rattle.std.specs.Prelude.{◌≡◌, ◌+◌, ◌^◌, ◌<◌, ◌≤◌, ◌∷◌, ◌++◌, [], length, take, true, false, slice_index, IfOk, OnOk, Some, IfSome, IfNone, SomeIff, vec_len, vec_capacity};
ghost use Rattle.rules_model.specs.TokensShapes.{base_of, number_of};
ghost use Rattle.rules_model.specs.TokensReading.{is_digit, numeral_length, unquoted, name_at, whole_at, digits_at, based_at, begins_with, character_at, quoted_at, sign_at, limited, text_length};
ghost use Rattle.chill_tree.specs.declared.token.TokenKind.TheVariants as kinds;
ghost use Rattle.chill_lexer.specs.Runs.{as_token, IsPut, begins_numeral, begins_other};

use crate::put::{put, put_found};
use crate::run;
use chill_base::{Memory, Pos, Text};
use chill_tree::{NameText, Sign, TextLiteral, Token, TokenKind, Word};
use std::alloc::Global;

/// How many bytes a name has at most.
const NAME_BYTES: usize = 64;

/// How many bytes a text literal stands for at most.
const TEXT_BYTES: usize = 256;

// Puts a reserved word or a short name, unless the text ends soon.
#[inline(always)]
pub(crate) fn short_name(at: Pos, text: &[u8], tokens: &mut Vec<Token>) -> Option<usize>
    requires { vec_len tokens.old < vec_capacity tokens.old }
    ensures found { IfSome result (λ length. IsPut at (limited (name_at text.now)) tokens.old.items tokens.new.items (Some length)) }
    ensures none { IfNone result (tokens.new ≡ tokens.old) }
{
    let Some((bytes, _)) = text.split_first_chunk() else {
        return None
    };
    let length = run::name_length(bytes);
    if length >= NameText::INLINE_BYTES {
        return None;
    }
    match Word::spelled(&text[..length]) {
        Some(word) => put(tokens, at, TokenKind::Word(word)),
        None => put(
            tokens,
            at,
            TokenKind::Name(NameText::inline(copied(bytes), length)),
        ),
    }
    Some(length)
}

// The same bytes, one by one: where LLVM copies the array whole, it does so by way of the stack.
#[inline(always)]
fn copied(bytes: &[u8; 14]) -> [u8; 14]
    ensures { result ≡ bytes.now }
{
    let [a, b, c, d, e, f, g, h, i, j, k, l, m, n] = *bytes;
    [a, b, c, d, e, f, g, h, i, j, k, l, m, n]
}

// Puts a literal of a base, or a name, at a letter.
#[inline(always)]
pub(crate) fn word(
    alloc: Global,
    at: Pos,
    text: &[u8],
    tokens: &mut Vec<Token>,
) -> Result<Option<usize>, Memory>
    requires small { length text.now < 2 ^ 32 }
    requires room { vec_len tokens.old < vec_capacity tokens.old }
    ensures { IfOk result (λ length.
        IsPut at (limited (based_at (base_of (slice_index text.now 0)) text.now)) tokens.old.items tokens.new.items length) }
{
    let [letter, mark, digits @ ..] = text else {
        return name(alloc, at, text, tokens)
    };
    if *mark != b'\'' {
        return name(alloc, at, text, tokens);
    }
    match base_of(*letter) {
        Some(base) if begins_numeral(base, digits) => Ok(put_based(tokens, at, base, digits)),
        _ => name(alloc, at, text, tokens),
    }
}

// Puts a literal of a base.
fn put_based(tokens: &mut Vec<Token>, at: Pos, base: u64, digits: &[u8]) -> Option<usize>
    requires begins { begins_numeral base digits.now ≡ true }
    requires small { base ≤ 16 }
    requires short { length digits.now < 2 ^ 32 }
    requires room { vec_len tokens.old < vec_capacity tokens.old }
    ensures { IsPut at (limited (digits_at base digits.now)) tokens.old.items tokens.new.items result }
{
    put_found(tokens, at, based(base, digits))
}

// The base that a letter before `'` names.
fn base_of(letter: u8) -> Option<u64>
    ensures { result ≡ base_of letter }
{
    match letter {
        b'D' | b'd' => Some(10),
        b'H' | b'h' => Some(16),
        b'O' | b'o' => Some(8),
        b'B' | b'b' => Some(2),
        _ => None,
    }
}

// Puts a name or a reserved word.
#[inline(always)]
fn name(
    alloc: Global,
    at: Pos,
    text: &[u8],
    tokens: &mut Vec<Token>,
) -> Result<Option<usize>, Memory>
    requires { vec_len tokens.old < vec_capacity tokens.old }
    ensures { IfOk result (λ length. IsPut at (limited (name_at text.now)) tokens.old.items tokens.new.items length) }
{
    let length = run::name_length(text);
    if length > NAME_BYTES {
        return Ok(None);
    }
    let name = &text[..length];
    let kind = match Word::spelled(name) {
        Some(word) => TokenKind::Word(word),
        None => TokenKind::Name(NameText::from_bytes(alloc, name)?),
    };
    put(tokens, at, kind);
    Ok(Some(length))
}

// Whether a numeral begins.
fn begins_numeral(base: u64, text: &[u8]) -> bool
    ensures { result ≡ begins_numeral base text.now }
{
    match text {
        [digit, ..] => run::digit_of(*digit) < base,
        [] => false,
    }
}

// A whole literal in decimal digits.
pub(crate) fn whole(text: &[u8]) -> Option<(TokenKind, usize)>
    requires begins { begins_numeral 10 text.now ≡ true }
    requires room { length text.now < 2 ^ 32 }
    ensures { as_token result ≡ limited (whole_at text.now) }
{
    let (number, length) = numeral(10, text)?;
    Some((TokenKind::Whole(number), length))
}

// A whole literal behind the letter of its base and `'`.
fn based(base: u64, text: &[u8]) -> Option<(TokenKind, usize)>
    requires begins { begins_numeral base text.now ≡ true }
    requires small { base ≤ 16 }
    requires room { length text.now < 2 ^ 32 }
    ensures { as_token result ≡ limited (digits_at base text.now) }
{
    let (number, length) = numeral(base, text)?;
    Some((TokenKind::Whole(number), length + 2))
}

// A number, and how many bytes its numeral has.
fn numeral(base: u64, text: &[u8]) -> Option<(u64, usize)>
    requires begins { begins_numeral base text.now ≡ true }
    requires small { base ≤ 16 }
    requires room { length text.now < 2 ^ 32 }
    ensures within { IfSome result (λ found. found.1 ≤ length text.now) }
    ensures value { let number = number_of base (take (numeral_length base text.now) text.now) in
        let length = numeral_length base text.now in
        SomeIff result (number < 2 ^ 64) (record { 0 = number; 1 = length }) }
{
    let [digit, behind @ ..] = text else {
        return None
    };
    let (length, number) = run::numeral(base, run::digit_of(*digit), behind);
    Some((number?, length + 1))
}

// A character literal behind its first `'`.
pub(crate) fn character(text: &[u8]) -> Option<(TokenKind, usize)>
    ensures { as_token result ≡ limited (character_at text.now) }
{
    match text {
        [b'\'', b'\'', b'\'', ..] => Some((TokenKind::Char(b'\''), 4)),
        [b'\'' | b'\n', ..] => None,
        [byte, b'\'', ..] => Some((TokenKind::Char(*byte), 3)),
        _ => None,
    }
}

// A text literal behind its first `"`.
pub(crate) fn text(alloc: Global, text: &[u8]) -> Result<Option<(TokenKind, usize)>, Memory>
    requires { length text.now < 2 ^ 32 }
    ensures { IfOk result (λ found.
        as_token found ≡ limited (quoted_at text.now (text_length text.now))) }
{
    let Some(length) = run::text_length(text) else {
        return Ok(None)
    };
    let value = unquoted(alloc, &text[..length - 1])?;
    if value.len() > TEXT_BYTES {
        return Ok(None);
    }
    let value = TextLiteral::new(alloc, value)?;
    Ok(Some((TokenKind::Text(value), length + 1)))
}

// The value of what stands between the quotes: of two `"` one is left.
fn unquoted(alloc: Global, text: &[u8]) -> Result<Text, Memory>
    ensures { IfOk result (λ value. value ≡ unquoted text.now) }
{
    let mut value = Text::new(alloc);
    let mut doubled = false;
    for byte in text {
        if doubled {
            doubled = false;
        } else {
            value.push(*byte)?;
            doubled = *byte == b'"';
        }
    }
    Ok(value)
}

// A sign: of two that begin alike the longer.
#[inline(always)]
pub(crate) fn sign(first: u8, behind: &[u8]) -> Option<(TokenKind, usize)>
    ensures { as_token result ≡ limited (sign_at first behind.now) }
{
    let equal = begins_with(behind, b'=');
    let (sign, length) = match first {
        b'(' => (Sign::Open, 1),
        b')' => (Sign::Close, 1),
        b'[' => (Sign::OpenBracket, 1),
        b']' => (Sign::CloseBracket, 1),
        b',' => (Sign::Comma, 1),
        b';' => (Sign::Semicolon, 1),
        b':' if equal => (Sign::Becomes, 2),
        b':' => (Sign::Colon, 1),
        b'.' => (Sign::Dot, 1),
        b'+' => (Sign::Plus, 1),
        b'-' => (Sign::Minus, 1),
        b'*' => (Sign::Times, 1),
        b'/' if equal => (Sign::NotEqual, 2),
        b'/' => (Sign::Divide, 1),
        b'=' => (Sign::Equal, 1),
        b'<' if equal => (Sign::LessOrEqual, 2),
        b'<' => (Sign::Less, 1),
        b'>' if equal => (Sign::GreaterOrEqual, 2),
        b'>' => (Sign::Greater, 1),
        _ => return None,
    };
    Some((TokenKind::Sign(sign), length))
}

// A sign of one byte. It stands alone where no other goes on with it.
#[inline(always)]
pub(crate) fn lone_sign(first: u8) -> Option<(TokenKind, usize)>
    ensures found { as_token result ≡ limited (sign_at first []) }
    ensures apart { IfSome result (λ _. begins_other first ≡ false) }
{
    sign(first, &[])
}

// Whether a byte stands at the front.
pub(crate) fn begins_with(text: &[u8], byte: u8) -> bool
    ensures { result ≡ begins_with byte text.now }
{
    match text {
        [first, ..] => *first == byte,
        [] => false,
    }
}
