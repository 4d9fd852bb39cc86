// The canonical text of texts, and of what was written.
use crate::canonical_rows::ROWS;
use chill_base::Text;
use chill_lexer::lex;
use std::alloc::Global;
use std::test::Fail;
use tree_print::print;

// How long a text may be here.
const LONGEST: usize = 1000;

// The canonical text of a text, or none where it has no tokens.
fn canonical(alloc: Global, text: &[u8]) -> Option<Text> {
    if text.len() > LONGEST {
        return None;
    }
    let tokens = lex(alloc, text).ok()?;
    print(alloc, tokens.as_slice()).ok()
}

// Whether the canonical text of a text is this one.
fn is_written(alloc: Global, text: &[u8], wanted: &[u8]) -> bool {
    match canonical(alloc, text) {
        Some(written) => written.as_slice() == wanted,
        None => false,
    }
}

#[test]
fn texts_are_written_so(rt: HostRuntime) -> Result<(), Fail> {
    for row in &ROWS {
        assert!(rt; is_written(rt.alloc(), row.text, row.canonical));
    }
    Ok(())
}

#[test]
fn what_was_written_is_written_again(rt: HostRuntime) -> Result<(), Fail> {
    for row in &ROWS {
        assert!(rt; is_written(rt.alloc(), row.canonical, row.canonical));
    }
    Ok(())
}
