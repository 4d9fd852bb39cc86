// The whole text, with its numbers.
ghost use Rattle.std.specs.Prelude.{◌≡◌, ◌++◌, IfOk, OnOk};
ghost use Rattle.std.specs.Fmt.{decimal};
ghost use Rattle.exchange_text.specs.Exchange.{exchange_of, line_of, lines_to, exchange_text};

use crate::parts::{exchange, opening, report};
use chill_base::{Memory, Text};
use std::alloc::Global;

/// The text with so many subscribers (our own choice): a program for any number up to 200.
pub fn make_text(alloc: Global, subscribers: u32) -> Result<Text, Memory>
    ensures { IfOk result (λ text. text ≡ exchange_text subscribers) }
{
    let mut text = Vec::new(alloc);
    push_exchange(alloc, &mut text, subscribers)?;
    push_lines(alloc, &mut text, subscribers)?;
    text.extend_from_slice(report())?;
    Ok(Text::from_vec(text))
}

// The trunks and the exchange.
fn push_exchange(alloc: Global, text: &mut Vec<u8>, subscribers: u32) -> Result<(), Memory>
    ensures { OnOk result (text.new.items ≡ text.old.items ++ exchange_of subscribers) }
{
    text.extend_from_slice(opening())?;
    push_number(alloc, text, subscribers)?;
    text.extend_from_slice(exchange())?;
    Ok(())
}

// The line of each subscriber, from 1 on.
fn push_lines(alloc: Global, text: &mut Vec<u8>, subscribers: u32) -> Result<(), Memory>
    ensures { OnOk result (text.new.items ≡ text.old.items ++ lines_to subscribers) }
{
    for k in 0..subscribers {
        push_line(alloc, text, k + 1)?;
    }
    Ok(())
}

fn push_line(alloc: Global, text: &mut Vec<u8>, number: u32) -> Result<(), Memory>
    ensures { OnOk result (text.new.items ≡ text.old.items ++ line_of number) }
{
    text.extend_from_slice(b"line_")?;
    push_number(alloc, text, number)?;
    text.extend_from_slice(b": MODULE SEIZE subscriber; START subscriber(")?;
    push_number(alloc, text, number)?;
    text.extend_from_slice(b"); END line_")?;
    push_number(alloc, text, number)?;
    text.extend_from_slice(b";\n")?;
    Ok(())
}

fn push_number(alloc: Global, text: &mut Vec<u8>, number: u32) -> Result<(), Memory>
    ensures { OnOk result (text.new.items ≡ text.old.items ++ decimal number) }
{
    let number = format!(in alloc; "{number}")?;
    text.extend_from_slice(number.as_bytes())?;
    Ok(())
}
