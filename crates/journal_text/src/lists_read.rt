// The fields of a line that are lists.
ghost use Rattle.std.specs.Prelude.{◌≡◌};
ghost use Rattle.journal_text.specs.Reading as reading;

use crate::fields_read::{read_alternative, read_number, read_scalar, read_word};
use crate::unread::Unread;
use chill_base::{List, Scalars, Text};
use hex::FromHexError;
use kernel_base::Alternatives;
use std::alloc::Global;

fn many_scalars(alloc: Global, count: u32, bytes: &[u8]) -> Result<(Scalars, &[u8]), Unread>
    ensures { reading.Gives (λ x. (x.0, x.1.now)) result (reading.many_at reading.scalar_at count bytes.now) }
{
    let mut scalars = Vec::new(alloc);
    let mut rest = bytes;
    for _ in 0..count {
        let (scalar, after) = read_scalar(rest)?;
        scalars.push(scalar)?;
        rest = after;
    }
    Ok((List::from_vec(scalars), rest))
}

#[tactic(auto, unfolding(crate::specs::Reading::scalars_at))]
pub(crate) fn read_scalars(alloc: Global, bytes: &[u8]) -> Result<(Scalars, &[u8]), Unread>
    ensures { reading.Gives (λ x. (x.0, x.1.now)) result (reading.scalars_at bytes.now) }
{
    let (count, rest) = read_number(bytes)?;
    many_scalars(alloc, count, rest)
}

fn many_alternatives(
    alloc: Global,
    count: u32,
    bytes: &[u8],
) -> Result<(Alternatives, &[u8]), Unread>
    ensures { reading.Gives (λ x. (x.0, x.1.now)) result (reading.many_at reading.alternative_at count bytes.now) }
{
    let mut alternatives = Vec::new(alloc);
    let mut rest = bytes;
    for _ in 0..count {
        let (alternative, after) = read_alternative(rest)?;
        alternatives.push(alternative)?;
        rest = after;
    }
    Ok((List::from_vec(alternatives), rest))
}

#[tactic(auto, unfolding(crate::specs::Reading::alternatives_at))]
pub(crate) fn read_alternatives(
    alloc: Global,
    bytes: &[u8],
) -> Result<(Alternatives, &[u8]), Unread>
    ensures { reading.Gives (λ x. (x.0, x.1.now)) result (reading.alternatives_at bytes.now) }
{
    let (count, rest) = read_number(bytes)?;
    many_alternatives(alloc, count, rest)
}

// The bytes that pairs of hexadecimal digits tell.
#[tactic(auto, unfolding(crate::specs::Reading::hex_of))]
fn hex_of(alloc: Global, word: &[u8]) -> Result<Vec<u8>, Unread>
    ensures { reading.Gives (λ x. x.items) result (reading.hex_of word.now) }
{
    match hex::decode(alloc, word) {
        Ok(bytes) => Ok(bytes),
        Err(FromHexError::OutOfMemory) => Err(Unread::Memory),
        Err(_) => Err(Unread::NoEvent),
    }
}

#[tactic(auto, unfolding(crate::specs::Reading::bytes_at))]
pub(crate) fn read_bytes(alloc: Global, bytes: &[u8]) -> Result<(Text, &[u8]), Unread>
    ensures { reading.Gives (λ x. (x.0, x.1.now)) result (reading.bytes_at bytes.now) }
{
    let (word, rest) = read_word(bytes)?;
    match word {
        b"-" => Ok((Text::new(alloc), rest)),
        _ => {
            let told = hex_of(alloc, word)?;
            Ok((Text::from_vec(told), rest))
        }
    }
}
