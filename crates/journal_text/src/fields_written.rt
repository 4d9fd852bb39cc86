// The fields of a line, each written behind a blank.
ghost use Rattle.std.specs.Prelude.{◌≡◌, ◌++◌, ◌<◌, OnOk};
ghost use Rattle.std.specs.List.{flat_map};
ghost use Rattle.journal_text.specs.Journal as texts;
ghost use Rattle.code_types.specs.Exceptions.{exception_number};

use chill_base::Memory;
use itoa::Buffer;
use kernel_base::{Alternative, Exc, How, Place};

pub(crate) fn push_number(text: &mut Vec<u8>, number: u32) -> Result<(), Memory>
    ensures { OnOk result (text.new.items ≡ text.old.items ++ texts.number_text number) }
{
    let mut buffer = Buffer::new();
    text.push(b' ')?;
    text.extend_from_slice(buffer.format(number).as_bytes())?;
    Ok(())
}

fn push_scalar(text: &mut Vec<u8>, scalar: i64) -> Result<(), Memory>
    ensures { OnOk result (text.new.items ≡ text.old.items ++ texts.scalar_text scalar) }
{
    let mut buffer = Buffer::new();
    text.push(b' ')?;
    text.extend_from_slice(buffer.format(scalar).as_bytes())?;
    Ok(())
}

// How many of them there are.
fn push_count(text: &mut Vec<u8>, count: usize) -> Result<(), Memory>
    ensures { OnOk result (text.new.items ≡ text.old.items ++ texts.number_text count) }
{
    let mut buffer = Buffer::new();
    text.push(b' ')?;
    text.extend_from_slice(buffer.format(count).as_bytes())?;
    Ok(())
}

pub(crate) fn push_scalars(text: &mut Vec<u8>, scalars: &[i64]) -> Result<(), Memory>
    ensures { OnOk result (text.new.items ≡ text.old.items ++ texts.scalars_text scalars.now) }
{
    push_count(text, scalars.len())?;
    for scalar in scalars {
        push_scalar(text, *scalar)?;
    }
    Ok(())
}

fn push_alternative(text: &mut Vec<u8>, alternative: &Alternative) -> Result<(), Memory>
    ensures { OnOk result (text.new.items ≡ text.old.items ++ texts.alternative_text alternative.now) }
{
    push_number(text, alternative.thing)?;
    push_number(text, alternative.number)
}

pub(crate) fn push_alternatives(
    text: &mut Vec<u8>,
    alternatives: &[Alternative],
) -> Result<(), Memory>
    ensures { OnOk result (text.new.items ≡ text.old.items ++ texts.alternatives_text alternatives.now) }
{
    push_count(text, alternatives.len())?;
    for alternative in alternatives {
        push_alternative(text, alternative)?;
    }
    Ok(())
}

// A number, or `-` for none.
pub(crate) fn push_optional(text: &mut Vec<u8>, number: Option<u32>) -> Result<(), Memory>
    ensures { OnOk result (text.new.items ≡ text.old.items ++ texts.optional_text number) }
{
    match number {
        Some(number) => push_number(text, number),
        None => {
            text.extend_from_slice(b" -")?;
            Ok(())
        }
    }
}

pub(crate) fn push_flag(text: &mut Vec<u8>, flag: bool) -> Result<(), Memory>
    ensures { OnOk result (text.new.items ≡ text.old.items ++ texts.flag_text flag) }
{
    let field: &[u8] = if flag { b" 1" } else { b" 0" };
    text.extend_from_slice(field)?;
    Ok(())
}

fn hex_digit(value: u8) -> u8
    requires { value < 16 }
    ensures { result ≡ texts.hex_digit value }
{
    if value < 10 {
        b'0' + value
    } else {
        b'a' - 10 + value
    }
}

fn push_byte(text: &mut Vec<u8>, byte: u8) -> Result<(), Memory>
    ensures { OnOk result (text.new.items ≡ text.old.items ++ texts.byte_text byte) }
{
    text.push(hex_digit(byte / 16))?;
    text.push(hex_digit(byte % 16))?;
    Ok(())
}

fn push_digits(text: &mut Vec<u8>, bytes: &[u8]) -> Result<(), Memory>
    ensures { OnOk result (text.new.items ≡ text.old.items ++ flat_map texts.byte_text bytes.now) }
{
    for byte in bytes {
        push_byte(text, *byte)?;
    }
    Ok(())
}

// Two hexadecimal digits for each byte, or `-` for none.
pub(crate) fn push_bytes(text: &mut Vec<u8>, bytes: &[u8]) -> Result<(), Memory>
    ensures { OnOk result (text.new.items ≡ text.old.items ++ texts.bytes_text bytes.now) }
{
    if bytes.is_empty() {
        text.extend_from_slice(b" -")?;
        return Ok(());
    }
    text.push(b' ')?;
    push_digits(text, bytes)
}

fn exception_number(exception: Exc) -> u64
    ensures { result ≡ exception_number exception }
{
    match exception {
        Exc::Overflow => 0,
        Exc::Rangefail => 1,
        Exc::Empty => 2,
        Exc::Assertfail => 3,
        Exc::Delayfail => 4,
        Exc::Spacefail => 5,
        Exc::Extinct => 6,
        Exc::User(number) => 7 + u64::from(number),
    }
}

pub(crate) fn push_exception(text: &mut Vec<u8>, exception: Exc) -> Result<(), Memory>
    ensures { OnOk result (text.new.items ≡ text.old.items ++ texts.exception_text exception) }
{
    let mut buffer = Buffer::new();
    text.push(b' ')?;
    text.extend_from_slice(buffer.format(exception_number(exception)).as_bytes())?;
    Ok(())
}

pub(crate) fn push_how(text: &mut Vec<u8>, how: How) -> Result<(), Memory>
    ensures { OnOk result (text.new.items ≡ text.old.items ++ texts.how_text how) }
{
    match how {
        How::Normal => text.extend_from_slice(b" normal")?,
        How::Stopped => text.extend_from_slice(b" stopped")?,
        How::Raised(exception) => {
            text.extend_from_slice(b" raised")?;
            push_exception(text, exception)?;
        }
    }
    Ok(())
}

pub(crate) fn push_place(text: &mut Vec<u8>, place: Place) -> Result<(), Memory>
    ensures { OnOk result (text.new.items ≡ text.old.items ++ texts.place_text place) }
{
    push_number(text, place.location)?;
    push_number(text, place.first)?;
    push_number(text, place.count)
}
