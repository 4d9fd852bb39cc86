// Texts and their tokens, written down from the rules of the language by hand.
use chill_lexer::{LexRefusal, lex};
use chill_tree::{Sign, Token, TokenKind, Word};
use diagnostics::{Diagnostic, Rule};
use std::alloc::{AllocError, Global};
use std::test::Fail;

/// What a token is, as a table can hold it.
enum Kind {
    Reserved(Word),
    Name(&'static str),
    Whole(u64),
    Char(u8),
    Text(&'static [u8]),
    Sign(Sign),
}

/// A text, and its tokens at their lines and columns, or the first place where a byte begins none.
enum Row {
    Good(&'static [u8], &'static [(u32, u32, Kind)]),
    Bad(&'static [u8], u32, u32),
}

use Kind::{Char, Name, Reserved, Whole};
use Row::{Bad, Good};

const SEPARATORS: &[Row] = &[
    Good(b"", &[]),
    Good(b" \t\r\n", &[]),
    Good(b"a\tb", &[(1, 1, Name("a")), (1, 3, Name("b"))]),
    Good(b"a\rb", &[(1, 1, Name("a")), (1, 3, Name("b"))]),
    Good(b"a\r\n b", &[(1, 1, Name("a")), (2, 2, Name("b"))]),
];

fn separators(alloc: Global) -> bool {
    all_hold(alloc, SEPARATORS)
}

const NAMES_AND_RESERVED_WORDS: &[Row] = &[
    Good(b"a1_B", &[(1, 1, Name("a1_B"))]),
    Good(b"a__", &[(1, 1, Name("a__"))]),
    Good(
        b"DCL dcl Dcl",
        &[
            (1, 1, Reserved(Word::Dcl)),
            (1, 5, Reserved(Word::Dcl)),
            (1, 9, Name("Dcl")),
        ],
    ),
    Good(
        b"ANDIF andif AndIf",
        &[
            (1, 1, Reserved(Word::AndIf)),
            (1, 7, Reserved(Word::AndIf)),
            (1, 13, Name("AndIf")),
        ],
    ),
    Good(
        b"BEGINS INT end_",
        &[
            (1, 1, Name("BEGINS")),
            (1, 8, Name("INT")),
            (1, 12, Name("end_")),
        ],
    ),
    Good(
        b"a234567890123456789012345678901234567890123456789012345678901234",
        &[(
            1,
            1,
            Name("a234567890123456789012345678901234567890123456789012345678901234"),
        )],
    ),
    Bad(
        b"x a2345678901234567890123456789012345678901234567890123456789012345",
        1,
        3,
    ),
    Bad(b"_a", 1, 1),
];

fn names_and_reserved_words(alloc: Global) -> bool {
    all_hold(alloc, NAMES_AND_RESERVED_WORDS)
}

const WHOLE_LITERALS: &[Row] = &[
    Good(
        b"0 7 1_000 007",
        &[
            (1, 1, Whole(0)),
            (1, 3, Whole(7)),
            (1, 5, Whole(1000)),
            (1, 11, Whole(7)),
        ],
    ),
    Bad(b"1__0", 1, 2),
    Bad(b"1_", 1, 2),
    Bad(b"1_a", 1, 2),
    Good(b"12ab", &[(1, 1, Whole(12)), (1, 3, Name("ab"))]),
    Good(b"D'12", &[(1, 1, Whole(12))]),
    Good(b"d'1_2", &[(1, 1, Whole(12))]),
    Good(b"D '1'", &[(1, 1, Name("D")), (1, 3, Char(b'1'))]),
    Good(b"B'12", &[(1, 1, Whole(1)), (1, 4, Whole(2))]),
    Good(b"B'2'", &[(1, 1, Name("B")), (1, 2, Char(b'2'))]),
    Good(b"b'1_01", &[(1, 1, Whole(5))]),
    Good(b"H'ff h'Fa", &[(1, 1, Whole(255)), (1, 6, Whole(250))]),
    Good(b"H'FF_0g", &[(1, 1, Whole(4080)), (1, 7, Name("g"))]),
    Good(
        b"O'17 o'8'",
        &[(1, 1, Whole(15)), (1, 6, Name("o")), (1, 7, Char(b'8'))],
    ),
    Good(b"D'1'a'", &[(1, 1, Whole(1)), (1, 4, Char(b'a'))]),
    Good(b"AD'1'", &[(1, 1, Name("AD")), (1, 3, Char(b'1'))]),
    Good(b"X'1'", &[(1, 1, Name("X")), (1, 2, Char(b'1'))]),
    Bad(b"H'G", 1, 2),
    Bad(b"D'", 1, 2),
    Bad(b"H'_f", 1, 2),
    Bad(b"H'f_", 1, 4),
    Good(
        b"18446744073709551615",
        &[(1, 1, Whole(18446744073709551615))],
    ),
    Bad(b"18446744073709551616", 1, 1),
    Bad(b"99999999999999999999", 1, 1),
    Good(
        b"H'FFFF_FFFF_FFFF_FFFF",
        &[(1, 1, Whole(18446744073709551615))],
    ),
    Bad(b"H'1_0000_0000_0000_0000", 1, 1),
];

fn whole_literals(alloc: Global) -> bool {
    all_hold(alloc, WHOLE_LITERALS)
}

const CHARACTER_LITERALS: &[Row] = &[
    Good(
        b"'a' ' ' '^' '\"'",
        &[
            (1, 1, Char(b'a')),
            (1, 5, Char(b' ')),
            (1, 9, Char(b'^')),
            (1, 13, Char(b'"')),
        ],
    ),
    Good(b"''''", &[(1, 1, Char(b'\''))]),
    Good(b"''''''''", &[(1, 1, Char(b'\'')), (1, 5, Char(b'\''))]),
    Good(b"'a''b'", &[(1, 1, Char(b'a')), (1, 4, Char(b'b'))]),
    Good(b"'\xE9' '\r'", &[(1, 1, Char(0xE9)), (1, 5, Char(b'\r'))]),
    Bad(b"'", 1, 1),
    Bad(b"''", 1, 1),
    Bad(b"'''", 1, 1),
    Bad(b"'ab'", 1, 1),
    Bad(b"'\n'", 1, 1),
];

fn character_literals(alloc: Global) -> bool {
    all_hold(alloc, CHARACTER_LITERALS)
}

const TEXT_LITERALS: &[Row] = &[
    Good(
        b"\"\" \"a\"",
        &[(1, 1, Kind::Text(b"")), (1, 4, Kind::Text(b"a"))],
    ),
    Good(b"\"a\"\"b\"", &[(1, 1, Kind::Text(b"a\"b"))]),
    Good(
        b"\"\"\"a\" \"a\"\"\" \"\"\"\"",
        &[
            (1, 1, Kind::Text(b"\"a")),
            (1, 7, Kind::Text(b"a\"")),
            (1, 13, Kind::Text(b"\"")),
        ],
    ),
    Good(b"\"^--/*'\xFF\"", &[(1, 1, Kind::Text(b"^--/*'\xFF"))]),
    Bad(b"\"", 1, 1),
    Bad(b"\"a", 1, 1),
    Bad(b"\"a\n\"", 1, 1),
    Bad(b"\"a\"\"", 1, 4),
    Bad(b"\"\"\"", 1, 3),
    Bad(b"PUT_TEXT(\"abc\"\"def);\n", 1, 15),
    Bad(b"\"a\"\"b\"\"c\n\"", 1, 7),
];

fn text_literals(alloc: Global) -> bool {
    all_hold(alloc, TEXT_LITERALS)
}

const COMMENTS: &[Row] = &[
    Good(b"/* a */b", &[(1, 8, Name("b"))]),
    Good(b"/**/ /***/x", &[(1, 11, Name("x"))]),
    Good(b"/*/*/x", &[(1, 6, Name("x"))]),
    Good(b"a/* \n\n */b", &[(1, 1, Name("a")), (3, 4, Name("b"))]),
    Good(b"/* \xC3\xA9 */a", &[(1, 9, Name("a"))]),
    Good(
        b"/* */*/",
        &[
            (1, 6, Kind::Sign(Sign::Times)),
            (1, 7, Kind::Sign(Sign::Divide)),
        ],
    ),
    Good(b"--", &[]),
    Good(
        b"--\na -- \xFF '\nb---1",
        &[(2, 1, Name("a")), (3, 1, Name("b"))],
    ),
    Good(
        b"/* -- */a-- /*\nb",
        &[(1, 9, Name("a")), (2, 1, Name("b"))],
    ),
    Bad(b"/*/", 1, 1),
    Bad(b"a /* b *", 1, 3),
    Bad(b"-/*", 1, 2),
];

fn comments(alloc: Global) -> bool {
    all_hold(alloc, COMMENTS)
}

const SIGNS: &[Row] = &[
    Good(
        b"()[],;:.",
        &[
            (1, 1, Kind::Sign(Sign::Open)),
            (1, 2, Kind::Sign(Sign::Close)),
            (1, 3, Kind::Sign(Sign::OpenBracket)),
            (1, 4, Kind::Sign(Sign::CloseBracket)),
            (1, 5, Kind::Sign(Sign::Comma)),
            (1, 6, Kind::Sign(Sign::Semicolon)),
            (1, 7, Kind::Sign(Sign::Colon)),
            (1, 8, Kind::Sign(Sign::Dot)),
        ],
    ),
    Good(
        b"+ - * / = < >",
        &[
            (1, 1, Kind::Sign(Sign::Plus)),
            (1, 3, Kind::Sign(Sign::Minus)),
            (1, 5, Kind::Sign(Sign::Times)),
            (1, 7, Kind::Sign(Sign::Divide)),
            (1, 9, Kind::Sign(Sign::Equal)),
            (1, 11, Kind::Sign(Sign::Less)),
            (1, 13, Kind::Sign(Sign::Greater)),
        ],
    ),
    Good(
        b":=/=<=>==",
        &[
            (1, 1, Kind::Sign(Sign::Becomes)),
            (1, 3, Kind::Sign(Sign::NotEqual)),
            (1, 5, Kind::Sign(Sign::LessOrEqual)),
            (1, 7, Kind::Sign(Sign::GreaterOrEqual)),
            (1, 9, Kind::Sign(Sign::Equal)),
        ],
    ),
    Good(
        b"::=<>/-",
        &[
            (1, 1, Kind::Sign(Sign::Colon)),
            (1, 2, Kind::Sign(Sign::Becomes)),
            (1, 4, Kind::Sign(Sign::Less)),
            (1, 5, Kind::Sign(Sign::Greater)),
            (1, 6, Kind::Sign(Sign::Divide)),
            (1, 7, Kind::Sign(Sign::Minus)),
        ],
    ),
];

fn signs(alloc: Global) -> bool {
    all_hold(alloc, SIGNS)
}

const OTHER_BYTES: &[Row] = &[
    Bad(b"a ? ? b", 1, 3),
    Bad(b"a\n  {", 2, 3),
    Bad(b"\x80", 1, 1),
    Bad(b"a\xC3\xA9", 1, 2),
    Bad(b"\x00", 1, 1),
    Bad(b"\x0C", 1, 1),
];

fn other_bytes(alloc: Global) -> bool {
    all_hold(alloc, OTHER_BYTES)
}

const WORDS: &[&str] = &[
    "ALL",
    "AND",
    "ANDIF",
    "ARRAY",
    "ASSERT",
    "BEGIN",
    "BUFFER",
    "BY",
    "CALL",
    "CASE",
    "CAUSE",
    "CHARS",
    "CONTINUE",
    "DCL",
    "DELAY",
    "DO",
    "DOWN",
    "ELSE",
    "ELSIF",
    "END",
    "ESAC",
    "EVENT",
    "EVER",
    "EXCEPTIONS",
    "EXIT",
    "FI",
    "FOR",
    "GRANT",
    "IF",
    "IN",
    "INIT",
    "INOUT",
    "MOD",
    "MODULE",
    "NEWMODE",
    "NOPACK",
    "NOT",
    "OD",
    "OF",
    "ON",
    "OR",
    "ORIF",
    "OUT",
    "PACK",
    "POS",
    "POWERSET",
    "PRIORITY",
    "PROC",
    "PROCESS",
    "READ",
    "RECEIVE",
    "REGION",
    "REM",
    "RESULT",
    "RETURN",
    "RETURNS",
    "SEIZE",
    "SEND",
    "SET",
    "SIGNAL",
    "START",
    "STEP",
    "STOP",
    "STRUCT",
    "SYN",
    "SYNMODE",
    "THEN",
    "THIS",
    "TO",
    "WHILE",
    "XOR",
];

fn is_kind(kind: &TokenKind, wanted: &Kind) -> bool {
    match (kind, wanted) {
        (TokenKind::Word(word), Reserved(w)) => *word == *w,
        (TokenKind::Name(name), Name(n)) => name.as_slice() == n.as_bytes(),
        (TokenKind::Whole(number), Whole(n)) => *number == *n,
        (TokenKind::Char(byte), Char(b)) => *byte == *b,
        (TokenKind::Text(text), Kind::Text(t)) => text.as_text().as_slice() == *t,
        (TokenKind::Sign(sign), Kind::Sign(s)) => *sign == *s,
        _ => false,
    }
}

fn are_tokens(tokens: &[Token], wanted: &[(u32, u32, Kind)]) -> bool {
    if tokens.len() != wanted.len() {
        return false;
    }
    for i in 0..tokens.len() {
        let (line, column, kind) = &wanted[i];
        if tokens[i].at.line != *line
            || tokens[i].at.column != *column
            || !is_kind(&tokens[i].kind, kind)
        {
            return false;
        }
    }
    true
}

/// Whether the lexer answers what the row says.
fn holds(alloc: Global, row: &Row) -> bool {
    let text = match row {
        Good(text, _) | Bad(text, _, _) => *text,
    };
    if text.len() >= 1_000 {
        return false;
    }
    match lex(alloc, text) {
        Ok(tokens) => match row {
            Good(_, wanted) => are_tokens(tokens.as_slice(), wanted),
            Bad(_, _, _) => false,
        },
        Err(LexRefusal::Bad(told)) => match row {
            Good(_, _) => false,
            Bad(_, line, column) => is_no_token(&told, *line, *column),
        },
        Err(LexRefusal::Memory) => false,
    }
}

fn all_hold(alloc: Global, rows: &[Row]) -> bool {
    for row in rows {
        if !holds(alloc, row) {
            return false;
        }
    }
    true
}

fn is_no_token(told: &Diagnostic, line: u32, column: u32) -> bool {
    told.at.line == line
        && told.at.column == column
        && told.rule == Rule::T1
        && told.first.is_empty()
        && told.second.is_empty()
}

#[test]
fn texts_have_their_tokens(rt: HostRuntime) -> Result<(), Fail> {
    assert!(rt; separators(rt.alloc()));
    assert!(rt; names_and_reserved_words(rt.alloc()));
    assert!(rt; whole_literals(rt.alloc()));
    assert!(rt; character_literals(rt.alloc()));
    assert!(rt; text_literals(rt.alloc()));
    assert!(rt; comments(rt.alloc()));
    assert!(rt; signs(rt.alloc()));
    assert!(rt; other_bytes(rt.alloc()));
    Ok(())
}

/// What a text is, where it is one token.
fn only_token(alloc: Global, text: &[u8]) -> Option<TokenKind> {
    if text.len() >= 1_000 {
        return None;
    }
    let mut tokens = lex(alloc, text).ok()?.into_vec();
    if tokens.len() == 1 {
        Some(tokens.pop()?.kind)
    } else {
        None
    }
}

fn is_reserved(alloc: Global, text: &[u8], word: &str) -> bool {
    match only_token(alloc, text) {
        Some(TokenKind::Word(found)) => found.spelling() == word,
        Some(_other) => false,
        None => false,
    }
}

fn is_name(alloc: Global, text: &[u8]) -> bool {
    match only_token(alloc, text) {
        Some(TokenKind::Name(name)) => name.as_slice() == text,
        Some(_other) => false,
        None => false,
    }
}

fn is_text(alloc: Global, text: &[u8], length: usize) -> bool {
    match only_token(alloc, text) {
        Some(TokenKind::Text(value)) => value.as_text().len() == length,
        Some(_other) => false,
        None => false,
    }
}

#[test]
fn words_are_reserved_in_one_case(rt: HostRuntime) -> Result<(), Fail> {
    for word in WORDS {
        let mut lower = Vec::new(rt.alloc());
        let mut mixed = Vec::new(rt.alloc());
        for byte in word.as_bytes() {
            mixed.push(if mixed.is_empty() {
                *byte
            } else {
                byte.to_ascii_lowercase()
            })?;
            lower.push(byte.to_ascii_lowercase())?;
        }
        assert!(rt; is_reserved(rt.alloc(), word.as_bytes(), word), "{word}");
        assert!(rt; is_reserved(rt.alloc(), lower.as_slice(), word), "{word}");
        assert!(rt; is_name(rt.alloc(), mixed.as_slice()), "{word}");
    }
    Ok(())
}

/// A text literal of some bytes, or of as many `"`.
fn literal(alloc: Global, byte: &[u8], count: usize) -> Result<Vec<u8>, AllocError> {
    let mut text = Vec::new(alloc);
    text.push(b'"')?;
    for _ in 0..count {
        text.extend_from_slice(byte)?;
    }
    text.push(b'"')?;
    Ok(text)
}

#[test]
fn texts_stand_for_at_most_256_bytes(rt: HostRuntime) -> Result<(), Fail> {
    assert!(rt; is_text(rt.alloc(), literal(rt.alloc(), b"x", 256)?.as_slice(), 256));
    assert!(rt;
        is_text(
            rt.alloc(),
            literal(rt.alloc(), b"\"\"", 256)?.as_slice(),
            256
        )
    );
    assert!(rt; !is_text(rt.alloc(), literal(rt.alloc(), b"x", 257)?.as_slice(), 257));
    assert!(rt;
        !is_text(
            rt.alloc(),
            literal(rt.alloc(), b"\"\"", 257)?.as_slice(),
            257
        )
    );
    Ok(())
}

/// Whether a text begins with a name of so many bytes.
fn begins_with_name(alloc: Global, text: &[u8], size: usize) -> bool {
    if text.len() >= 1_000 || size > text.len() {
        return false;
    }
    let Ok(tokens) = lex(alloc, text) else {
        return false
    };
    match tokens.as_slice() {
        [first, ..] => match &first.kind {
            TokenKind::Name(name) => name.as_slice() == &text[..size],
            _ => false,
        },
        [] => false,
    }
}

/// Whether a name of so many bytes is read, alone and before signs.
fn is_read(alloc: Global, size: usize) -> Result<bool, AllocError> {
    let mut text = Vec::new(alloc);
    for i in 0..size {
        text.push(b'a' + (i % 26) as u8)?;
    }
    let alone = is_name(alloc, text.as_slice());
    text.extend_from_slice(b";;;;;;;;;;;;;;;;;;;;;;;;;;;;;;")?;
    Ok(alone && begins_with_name(alloc, text.as_slice(), size))
}

#[test]
fn names_have_at_most_64_bytes(rt: HostRuntime) -> Result<(), Fail> {
    for size in [1, 7, 12, 13, 14, 15, 16, 63, 64] {
        assert!(rt; is_read(rt.alloc(), size)?, "{size}");
    }
    assert!(rt; !is_read(rt.alloc(), 65)?);
    Ok(())
}
