// What number GET_INT gives, and whether an answer tells it (our own choice). Digits have no bound: a number that is too large is read as one that is.
ghost use Rattle.std.specs.Prelude.{◌≡◌, ◌+◌, ◌-◌, ◌*◌, ◌≤◌, ◌↔◌, IsTrue, not, pos, neg_ℤ};
ghost use Rattle.std.specs.List.{list_all, take_while};
ghost use Rattle.std.specs.Option.{option_map};
ghost use Rattle.world_model.specs.Input as inputs;
ghost use Rattle.world_check.specs.Numbers as numbers;

use crate::requests::{fails_with, tells_scalars};
use kernel_base::{Answer, Exc};
use world_model::{separators_len, word_len};

// Above each number that may be answered, without its sign.
const LIMIT: u64 = 4_294_967_296;

fn behind_separators(input: &[u8]) -> &[u8]
    ensures { result.now ≡ inputs.behind_separators input.now }
{
    let count = separators_len(input);
    if count < input.len() {
        &input[count..]
    } else {
        &[]
    }
}

// The bytes up to the next separator.
fn word(bytes: &[u8]) -> &[u8]
    ensures { result.now ≡ take_while (λ b. not (inputs.is_separator b)) bytes.now }
{
    let count = word_len(bytes);
    if count < bytes.len() {
        &bytes[..count]
    } else {
        bytes
    }
}

fn is_digit(byte: u8) -> bool
    ensures { result ≡ inputs.is_digit byte }
{
    48 <= byte && byte <= 57
}

fn are_digits(bytes: &[u8]) -> bool
    ensures { result ≡ list_all inputs.is_digit bytes.now }
{
    bytes.iter().all(|byte| is_digit(*byte))
}

// One more digit behind a number that was read, up to the limit.
fn with_digit(read: u64, byte: u8) -> u64
    requires { read ≤ numbers.limit }
    ensures small { result ≤ numbers.limit }
    ensures is { numbers.IsClipped (10 * read + (byte - 48)) result }
{
    let next = 10 * read + u64::from(byte.saturating_sub(48));
    if next < LIMIT { next } else { LIMIT }
}

fn value_of(bytes: &[u8]) -> u64
    ensures { numbers.IsClipped (inputs.value_from 0 bytes.now) result }
{
    let mut read: u64 = 0;
    for byte in bytes {
        read = with_digit(read, *byte);
    }
    read
}

// The number that digits tell, up to the limit.
fn digits_value(bytes: &[u8]) -> Option<u64>
    ensures { numbers.AreClipped (inputs.digits_value bytes.now) result }
{
    if bytes.is_empty() || !are_digits(bytes) {
        return None;
    }
    Some(value_of(bytes))
}

fn positive(bytes: &[u8]) -> Option<i64>
    ensures { inputs.answer_for (option_map pos (inputs.digits_value bytes.now)) ≡ numbers.answer_of result }
{
    match digits_value(bytes) {
        Some(number) => {
            if number <= 2_147_483_647 {
                Some(number as i64)
            } else {
                None
            }
        }
        None => None,
    }
}

fn negative(bytes: &[u8]) -> Option<i64>
    ensures { inputs.answer_for (option_map (λ n. neg_ℤ (pos n)) (inputs.digits_value bytes.now)) ≡ numbers.answer_of result }
{
    match digits_value(bytes) {
        Some(number) => {
            if number <= 2_147_483_648 {
                Some(-(number as i64))
            } else {
                None
            }
        }
        None => None,
    }
}

// The number that a word is, where GET_INT may answer it.
fn number_of(word: &[u8]) -> Option<i64>
    ensures { inputs.answer_for (inputs.signed_value word.now) ≡ numbers.answer_of result }
{
    match word {
        [] => None,
        [first, digits @ ..] => {
            if *first == b'+' {
                positive(digits)
            } else if *first == b'-' {
                negative(digits)
            } else {
                positive(word)
            }
        }
    }
}

/// The number that GET_INT gives, or the exception that it raises.
pub fn next_number(input: &[u8]) -> Result<i64, Exc>
    ensures { inputs.get_answer input.now ≡ numbers.told_by result }
{
    let rest = behind_separators(input);
    if rest.is_empty() {
        return Err(Exc::Empty);
    }
    match number_of(word(rest)) {
        Some(number) => Ok(number),
        None => Err(Exc::Rangefail),
    }
}

fn tells(answer: &Answer, given: Result<i64, Exc>) -> bool
    ensures { IsTrue result ↔ (answer.now ≡ numbers.told_by given) }
{
    match given {
        Ok(number) => tells_scalars(answer, &[number]),
        Err(exception) => fails_with(answer, exception),
    }
}

/// Whether an answer is the one that GET_INT has to give.
pub fn gets(input: &[u8], answer: &Answer) -> bool
    ensures { IsTrue result ↔ (answer.now ≡ inputs.get_answer input.now) }
{
    tells(answer, next_number(input))
}
