// How far names, lines, numerals, texts and comments go on from a place.
ghost use Rattle.std.specs.Prelude.{◌≡◌, ℕ, ◌+◌, ◌*◌, ◌^◌, ◌<◌, ◌≤◌, length, take, IfSome, SomeIff, option_map, fold};
ghost use Rattle.std.specs.List.{prefix_len};
ghost use Rattle.rules_model.specs.TokensShapes.{is_letter, is_decimal, is_name_byte, is_in_line, digit_of, with_digit};
ghost use Rattle.rules_model.specs.TokensCut.{behind, behind_all};
ghost use Rattle.rules_model.specs.TokensReading.{more_length, closing_length, text_length};
ghost use Rattle.chill_lexer.specs.Runs.{is_apart};

use crate::name_bytes::NAME_BYTES;
use chill_base::Pos;

// Whether a name may begin with the byte.
pub(crate) fn is_letter(byte: u8) -> bool
    ensures { result ≡ is_letter byte }
{
    matches!(byte, b'A'..=b'Z' | b'a'..=b'z')
}

// Whether the byte is a decimal digit.
pub(crate) fn is_decimal(byte: u8) -> bool
    ensures { result ≡ is_decimal byte }
{
    matches!(byte, b'0'..=b'9')
}

// Whether a name may go on with the byte.
pub(crate) fn is_name_byte(byte: u8) -> bool
    ensures { result ≡ is_name_byte byte }
{
    NAME_BYTES[byte as usize]
}

// What a digit counts, or 16.
pub(crate) fn digit_of(byte: u8) -> u64
    ensures { result ≡ digit_of byte }
{
    match byte {
        b'0'..=b'9' => u64::from(byte - b'0'),
        b'A'..=b'F' => u64::from(byte - b'A') + 10,
        b'a'..=b'f' => u64::from(byte - b'a') + 10,
        _ => 16,
    }
}

// How many bytes go on with a name.
pub(crate) fn name_length(text: &[u8]) -> usize
    ensures { result ≡ prefix_len is_name_byte text.now }
{
    text.iter().take_while(|byte| is_name_byte(**byte)).count()
}

// How many bytes are left of the line.
pub(crate) fn line_length(text: &[u8]) -> usize
    ensures { result ≡ prefix_len is_in_line text.now }
{
    text.iter().take_while(|byte| **byte != b'\n').count()
}

// How many bytes go on with a numeral, and its number, whose first digits count `first`: none above 2^64 - 1.
pub(crate) fn numeral(base: u64, first: u64, text: &[u8]) -> (usize, Option<u64>)
    requires some { 0 < base }
    requires small { base ≤ 16 }
    ensures length { result.0 ≡ more_length base text.now }
    ensures value { let number = fold (with_digit base) first (take (more_length base text.now) text.now) in
        SomeIff result.1 (number < 2 ^ 64) number }
{
    let mut value = Some(first);
    let mut length = 0;
    while length < text.len() {
        let digit = digit_of(text[length]);
        if digit < base {
            value = with_digit(base, value, digit);
        } else if !is_apart(base, &text[length..]) {
            break;
        }
        length += 1;
    }
    (length, value)
}

// Whether a `_` stands at the front, and a digit behind it.
fn is_apart(base: u64, text: &[u8]) -> bool
    ensures { result ≡ is_apart base text.now }
{
    match text {
        [b'_', next, ..] => digit_of(*next) < base,
        _ => false,
    }
}

// A number with one more digit: none above 2^64 - 1.
fn with_digit(base: u64, value: Option<u64>, digit: u64) -> Option<u64>
    requires { 0 < base }
    ensures { (n : ℕ) → SomeIff value (n < 2 ^ 64) n
        → SomeIff result (n * base + digit < 2 ^ 64) (n * base + digit) }
{
    value?.checked_mul(base)?.checked_add(digit)
}

// How many bytes there are behind a `"` up to and with the one that closes the text.
pub(crate) fn text_length(text: &[u8]) -> Option<usize>
    ensures { result ≡ text_length text.now }
{
    let mut found = None;
    let mut length = 0;
    while length < text.len() {
        match text[length] {
            b'\n' => return found,
            b'"' => {
                found = Some(length + 1);
                if length + 1 == text.len() || text[length + 1] != b'"' {
                    return found;
                }
                length += 2;
            }
            _ => length += 1,
        }
    }
    found
}

// The place behind a byte.
pub(crate) fn behind(at: Pos, byte: u8) -> Pos
    requires line { at.line + 1 < 2 ^ 32 }
    requires column { at.column + 1 < 2 ^ 32 }
    ensures { result ≡ behind at byte }
{
    if byte == b'\n' {
        Pos {
            line: at.line + 1,
            column: 1,
        }
    } else {
        Pos {
            line: at.line,
            column: at.column + 1,
        }
    }
}

// How many bytes there are up to and with the first `*/`, and the place behind it.
pub(crate) fn closing(text: &[u8], start: Pos) -> Option<(usize, Pos)>
    requires line { start.line + length text.now < 2 ^ 32 }
    requires column { start.column + length text.now < 2 ^ 32 }
    ensures length { option_map (λ found. found.0) result ≡ closing_length text.now }
    ensures place { IfSome result (λ found. found.1 ≡ behind_all start (take found.0 text.now)) }
{
    let mut at = start;
    let mut length = 0;
    while length + 1 < text.len() {
        if text[length] == b'*' && text[length + 1] == b'/' {
            return Some((length + 2, behind(behind(at, b'*'), b'/')));
        }
        at = behind(at, text[length]);
        length += 1;
    }
    None
}
