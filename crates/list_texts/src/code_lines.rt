// A code, a line for each instruction and each handler.
ghost use Rattle.std.specs.Prelude.{◌≡◌, ◌++◌, replicate, IfOk, OnOk};
ghost use Rattle.list_texts.specs.Code as lines;

use crate::instructions::{Operands, name_of, operands_of};
use chill_base::{Memory, Text};
use code_types::{Code, Handler, Instr};
use std::alloc::Global;

/// A code: the line `code`, each instruction with its address, name and operands, then each handler (our own choice).
pub fn code_text(alloc: Global, code: &Code) -> Result<Text, Memory>
    ensures { IfOk result (λ text. text ≡ lines.code_lines code.now) }
{
    let mut text = Vec::new(alloc);
    text.extend_from_slice(b"code\n")?;
    push_instructions(alloc, &mut text, code.instrs.as_slice())?;
    push_handlers(alloc, &mut text, code.handlers.as_slice())?;
    Ok(Text::from_vec(text))
}

fn push_instructions(alloc: Global, text: &mut Vec<u8>, instrs: &[Instr]) -> Result<(), Memory>
    ensures { OnOk result (text.new.items ≡ text.old.items ++ lines.instruction_lines 0 instrs.now) }
{
    for address in 0..instrs.len() {
        push_instruction(alloc, text, address, instrs[address])?;
    }
    Ok(())
}

fn push_instruction(
    alloc: Global,
    text: &mut Vec<u8>,
    address: usize,
    instr: Instr,
) -> Result<(), Memory>
    ensures { OnOk result (text.new.items ≡ text.old.items ++ lines.instruction_line address instr) }
{
    push_address(alloc, text, address)?;
    text.push(b' ')?;
    text.extend_from_slice(name_of(instr))?;
    push_operands(alloc, text, operands_of(instr))?;
    text.push(b'\n')?;
    Ok(())
}

// An address, right in five places.
fn push_address(alloc: Global, text: &mut Vec<u8>, address: usize) -> Result<(), Memory>
    ensures { OnOk result (text.new.items ≡ text.old.items ++ lines.address_text address) }
{
    let digits = format!(in alloc; "{address}")?;
    push_times(text, 5usize.saturating_sub(digits.len()), b' ')?;
    text.extend_from_slice(digits.as_bytes())?;
    Ok(())
}

// A byte so many times.
fn push_times(text: &mut Vec<u8>, count: usize, byte: u8) -> Result<(), Memory>
    ensures { OnOk result (text.new.items ≡ text.old.items ++ replicate count byte) }
{
    for _k in 0..count {
        text.push(byte)?;
    }
    Ok(())
}

fn push_operands(alloc: Global, text: &mut Vec<u8>, operands: Operands) -> Result<(), Memory>
    ensures { OnOk result (text.new.items ≡ text.old.items ++ lines.operands_text operands) }
{
    match operands {
        Operands::None => Ok(()),
        Operands::One(a) => push_numbers(alloc, text, &[a]),
        Operands::Two(a, b) => push_numbers(alloc, text, &[a, b]),
        Operands::Three(a, b, c) => push_numbers(alloc, text, &[a, b, c]),
        Operands::Four(a, b, c, d) => push_numbers(alloc, text, &[a, b, c, d]),
    }
}

fn push_numbers(alloc: Global, text: &mut Vec<u8>, numbers: &[i64]) -> Result<(), Memory>
    ensures { OnOk result (text.new.items ≡ text.old.items ++ lines.numbers_text numbers.now) }
{
    for number in numbers {
        push_number(alloc, text, *number)?;
    }
    Ok(())
}

fn push_number(alloc: Global, text: &mut Vec<u8>, number: i64) -> Result<(), Memory>
    ensures { OnOk result (text.new.items ≡ text.old.items ++ lines.number_text number) }
{
    let number = format!(in alloc; " {number}")?;
    text.extend_from_slice(number.as_bytes())?;
    Ok(())
}

fn push_handlers(alloc: Global, text: &mut Vec<u8>, handlers: &[Handler]) -> Result<(), Memory>
    ensures { OnOk result (text.new.items ≡ text.old.items ++ lines.handler_lines handlers.now) }
{
    for handler in handlers {
        push_handler(alloc, text, handler)?;
    }
    Ok(())
}

fn push_handler(alloc: Global, text: &mut Vec<u8>, handler: &Handler) -> Result<(), Memory>
    ensures { OnOk result (text.new.items ≡ text.old.items ++ lines.handler_line handler.now) }
{
    push_range(alloc, text, handler)?;
    push_exceptions(alloc, text, handler.names.as_slice())?;
    push_end(text, handler.otherwise)?;
    Ok(())
}

fn push_range(alloc: Global, text: &mut Vec<u8>, handler: &Handler) -> Result<(), Memory>
    ensures { OnOk result (text.new.items ≡ text.old.items ++ lines.range_text handler.now) }
{
    let (from, until) = (handler.from, handler.until);
    let (height, target) = (handler.height, handler.target);
    let range = format!(in alloc; "on {from} {until} {height} {target}")?;
    text.extend_from_slice(range.as_bytes())?;
    Ok(())
}

fn push_exceptions(alloc: Global, text: &mut Vec<u8>, names: &[u32]) -> Result<(), Memory>
    ensures { OnOk result (text.new.items ≡ text.old.items ++ lines.exceptions_text names.now) }
{
    for name in names {
        push_exception(alloc, text, *name)?;
    }
    Ok(())
}

fn push_exception(alloc: Global, text: &mut Vec<u8>, exception: u32) -> Result<(), Memory>
    ensures { OnOk result (text.new.items ≡ text.old.items ++ lines.exception_text exception) }
{
    let number = format!(in alloc; " {exception}")?;
    text.extend_from_slice(number.as_bytes())?;
    Ok(())
}

// The end of a handler's line.
fn push_end(text: &mut Vec<u8>, otherwise: bool) -> Result<(), Memory>
    ensures { OnOk result (text.new.items ≡ text.old.items ++ lines.end_text otherwise) }
{
    if otherwise {
        text.extend_from_slice(b" else\n")?;
    } else {
        text.push(b'\n')?;
    }
    Ok(())
}
