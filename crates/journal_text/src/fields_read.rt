// The fields of a line, each guessed behind a blank, with the bytes that follow it.
ghost use Rattle.std.specs.Prelude.{◌≡◌, drop, take};
ghost use Rattle.world_model.specs.Input as inputs;
ghost use Rattle.journal_text.specs.Reading as reading;

use crate::unread::Unread;
use kernel_base::{Alternative, Exc, How, Place};
use world_model::word_len;

fn split(bytes: &[u8], len: usize) -> (&[u8], &[u8])
    ensures front { result.0.now ≡ take len bytes.now }
    ensures rest { result.1.now ≡ drop len bytes.now }
{
    if len < bytes.len() {
        bytes.split_at(len)
    } else {
        (bytes, &[])
    }
}

/// The bytes before the first separator, and the rest.
pub(crate) fn word_and_rest(bytes: &[u8]) -> (&[u8], &[u8])
    ensures word { result.0.now ≡ (reading.word_and_rest bytes.now).0 }
    ensures rest { result.1.now ≡ (reading.word_and_rest bytes.now).1 }
{
    split(bytes, word_len(bytes))
}

#[tactic(auto, unfolding(crate::specs::Reading::word_at))]
pub(crate) fn read_word(bytes: &[u8]) -> Result<(&[u8], &[u8]), Unread>
    ensures { reading.Gives (λ x. (x.0.now, x.1.now)) result (reading.word_at bytes.now) }
{
    match bytes {
        [b' ', rest @ ..] => {
            let (word, rest) = word_and_rest(rest);
            Ok((word, rest))
        }
        _ => Err(Unread::NoEvent),
    }
}

fn is_digit(byte: u8) -> bool
    ensures { result ≡ inputs.is_digit byte }
{
    b'0' <= byte && byte <= b'9'
}

// A number that was read, with one more digit.
fn next_value(most: u64, read: u64, byte: u8) -> Option<u64>
    ensures { result ≡ reading.next_value most read byte }
{
    if !is_digit(byte) {
        return None;
    }
    let next = 10 * u128::from(read) + u128::from(byte - b'0');
    if next <= u128::from(most) {
        Some(next as u64)
    } else {
        None
    }
}

// The number of a word, if it is not above a bound.
#[tactic(auto, unfolding(crate::specs::Reading::value_of))]
fn value_of(most: u64, word: &[u8]) -> Option<u64>
    ensures { result ≡ reading.value_of most word.now }
{
    let mut read: u64 = 0;
    for byte in word {
        read = next_value(most, read, *byte)?;
    }
    Some(read)
}

fn narrow_of(number: u64) -> Option<u32>
    ensures { result ≡ reading.narrow_of number }
{
    if number <= 4_294_967_295 {
        Some(number as u32)
    } else {
        None
    }
}

#[tactic(auto, unfolding(crate::specs::Reading::number_of))]
fn number_of(word: &[u8]) -> Option<u32>
    ensures { result ≡ reading.number_of word.now }
{
    narrow_of(value_of(4_294_967_295, word)?)
}

#[tactic(auto, unfolding(crate::specs::Reading::number_at))]
pub(crate) fn read_number(bytes: &[u8]) -> Result<(u32, &[u8]), Unread>
    ensures { reading.Gives (λ x. (x.0, x.1.now)) result (reading.number_at bytes.now) }
{
    let (word, rest) = read_word(bytes)?;
    match number_of(word) {
        Some(number) => Ok((number, rest)),
        None => Err(Unread::NoEvent),
    }
}

fn negative_of(size: u64) -> Option<i64>
    ensures { result ≡ reading.negative_of size }
{
    if 1 <= size && size <= 9_223_372_036_854_775_808 {
        Some(-((size - 1) as i64) - 1)
    } else {
        None
    }
}

#[tactic(auto, unfolding(crate::specs::Reading::scalar_of))]
fn scalar_of(word: &[u8]) -> Option<i64>
    ensures { result ≡ reading.scalar_of word.now }
{
    match word {
        [] => None,
        [b'-', digits @ ..] => negative_of(value_of(9_223_372_036_854_775_808, digits)?),
        _ => positive_of(value_of(9_223_372_036_854_775_807, word)?),
    }
}

fn positive_of(size: u64) -> Option<i64>
    ensures { result ≡ reading.positive_of size }
{
    if size <= 9_223_372_036_854_775_807 {
        Some(size as i64)
    } else {
        None
    }
}

#[tactic(auto, unfolding(crate::specs::Reading::scalar_at))]
pub(crate) fn read_scalar(bytes: &[u8]) -> Result<(i64, &[u8]), Unread>
    ensures { reading.Gives (λ x. (x.0, x.1.now)) result (reading.scalar_at bytes.now) }
{
    let (word, rest) = read_word(bytes)?;
    match scalar_of(word) {
        Some(scalar) => Ok((scalar, rest)),
        None => Err(Unread::NoEvent),
    }
}

#[tactic(auto, unfolding(crate::specs::Reading::flag_of))]
fn flag_of(word: &[u8]) -> Option<bool>
    ensures { result ≡ reading.flag_of word.now }
{
    match word {
        b"0" => Some(false),
        b"1" => Some(true),
        _ => None,
    }
}

#[tactic(auto, unfolding(crate::specs::Reading::flag_at))]
pub(crate) fn read_flag(bytes: &[u8]) -> Result<(bool, &[u8]), Unread>
    ensures { reading.Gives (λ x. (x.0, x.1.now)) result (reading.flag_at bytes.now) }
{
    let (word, rest) = read_word(bytes)?;
    match flag_of(word) {
        Some(flag) => Ok((flag, rest)),
        None => Err(Unread::NoEvent),
    }
}

#[tactic(auto, unfolding(crate::specs::Reading::optional_of))]
fn optional_of(word: &[u8]) -> Option<Option<u32>>
    ensures { result ≡ reading.optional_of word.now }
{
    match word {
        b"-" => Some(None),
        _ => Some(Some(number_of(word)?)),
    }
}

#[tactic(auto, unfolding(crate::specs::Reading::optional_at))]
pub(crate) fn read_optional(bytes: &[u8]) -> Result<(Option<u32>, &[u8]), Unread>
    ensures { reading.Gives (λ x. (x.0, x.1.now)) result (reading.optional_at bytes.now) }
{
    let (word, rest) = read_word(bytes)?;
    match optional_of(word) {
        Some(number) => Ok((number, rest)),
        None => Err(Unread::NoEvent),
    }
}

fn exception_with(number: u64) -> Option<Exc>
    ensures { result ≡ reading.exception_with number }
{
    match number {
        0 => Some(Exc::Overflow),
        1 => Some(Exc::Rangefail),
        2 => Some(Exc::Empty),
        3 => Some(Exc::Assertfail),
        4 => Some(Exc::Delayfail),
        5 => Some(Exc::Spacefail),
        6 => Some(Exc::Extinct),
        7..=4_294_967_302 => Some(Exc::User((number - 7) as u32)),
        _ => None,
    }
}

#[tactic(auto, unfolding(crate::specs::Reading::exception_of))]
fn exception_of(word: &[u8]) -> Option<Exc>
    ensures { result ≡ reading.exception_of word.now }
{
    exception_with(value_of(4_294_967_302, word)?)
}

#[tactic(auto, unfolding(crate::specs::Reading::exception_at))]
pub(crate) fn read_exception(bytes: &[u8]) -> Result<(Exc, &[u8]), Unread>
    ensures { reading.Gives (λ x. (x.0, x.1.now)) result (reading.exception_at bytes.now) }
{
    let (word, rest) = read_word(bytes)?;
    match exception_of(word) {
        Some(exception) => Ok((exception, rest)),
        None => Err(Unread::NoEvent),
    }
}

#[tactic(auto, unfolding(crate::specs::Reading::how_at))]
pub(crate) fn read_how(bytes: &[u8]) -> Result<(How, &[u8]), Unread>
    ensures { reading.Gives (λ x. (x.0, x.1.now)) result (reading.how_at bytes.now) }
{
    let (word, rest) = read_word(bytes)?;
    match word {
        b"normal" => Ok((How::Normal, rest)),
        b"stopped" => Ok((How::Stopped, rest)),
        b"raised" => {
            let (exception, rest) = read_exception(rest)?;
            Ok((How::Raised(exception), rest))
        }
        _ => Err(Unread::NoEvent),
    }
}

#[tactic(auto, unfolding(crate::specs::Reading::alternative_at))]
pub(crate) fn read_alternative(bytes: &[u8]) -> Result<(Alternative, &[u8]), Unread>
    ensures { reading.Gives (λ x. (x.0, x.1.now)) result (reading.alternative_at bytes.now) }
{
    let (thing, rest) = read_number(bytes)?;
    let (number, rest) = read_number(rest)?;
    Ok((Alternative { thing, number }, rest))
}

#[tactic(auto, unfolding(crate::specs::Reading::place_at))]
pub(crate) fn read_place(bytes: &[u8]) -> Result<(Place, &[u8]), Unread>
    ensures { reading.Gives (λ x. (x.0, x.1.now)) result (reading.place_at bytes.now) }
{
    let (location, rest) = read_number(bytes)?;
    let (first, rest) = read_number(rest)?;
    let (count, rest) = read_number(rest)?;
    let place = Place {
        location,
        first,
        count,
    };
    Ok((place, rest))
}
