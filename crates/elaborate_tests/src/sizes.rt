// The sizes of texts.
use crate::size_rows::ROWS;
use chill_base::Memory;
use chill_lexer::lex;
use chill_parser::parse;
use std::alloc::Global;
use std::test::Fail;
use text_size::size_of_program;

// How long a text may be.
const LONGEST: usize = 80_000;

// The size of a text, or none where it isn't read.
fn size_of(alloc: Global, text: &[u8]) -> Option<u32> {
    if text.len() > LONGEST {
        return None;
    }
    let tokens = lex(alloc, text).ok()?;
    let tree = parse(alloc, tokens.as_slice()).ok()?;
    Some(size_of_program(&tree))
}

#[test]
fn sizes_are_those_of_the_text(rt: HostRuntime) -> Result<(), Fail> {
    for row in &ROWS {
        assert!(rt;
            size_of(rt.alloc(), row.text.as_bytes()) == Some(row.size),
            "{}",
            row.text
        );
    }
    Ok(())
}

// A module of so many equal actions.
fn repeated(alloc: Global, action: &[u8], count: u32) -> Result<Vec<u8>, Memory> {
    let mut text = Vec::new(alloc);
    text.extend_from_slice(b"M: MODULE ")?;
    for _ in 0..count {
        text.extend_from_slice(action)?;
    }
    text.extend_from_slice(b" END M;")?;
    Ok(text)
}

#[test]
fn the_greatest_program_is_just_small_enough(rt: HostRuntime) -> Result<(), Fail> {
    let text = repeated(rt.alloc(), b"PUT_INT(1);", 5_460)?;
    assert!(rt; size_of(rt.alloc(), &text) == Some(65_536));
    Ok(())
}
