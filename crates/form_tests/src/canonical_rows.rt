// Texts, and the canonical text of each, written by hand.

/// A text, and its canonical text.
pub struct Row {
    pub text: &'static [u8],
    pub canonical: &'static [u8],
}

pub const ROWS: [Row; 16] = [
    // No token.
    Row {
        text: b"",
        canonical: b"",
    },
    Row {
        text: b" \n-- only this\n",
        canonical: b"",
    },
    // A program.
    Row {
        text: b"M: MODULE PUT_INT(1 + 2); END M;",
        canonical: b"M : MODULE PUT_INT ( 1 + 2 ) ;\nEND M ;\n",
    },
    // Where no `;` is last, nothing stands behind the last token.
    Row {
        text: b"a;b",
        canonical: b"a ;\nb",
    },
    Row {
        text: b";;",
        canonical: b";\n;\n",
    },
    // Reserved words of either case, and names that are none.
    Row {
        text: b"dcl DCL Dcl andif end_ THIS",
        canonical: b"DCL DCL Dcl ANDIF end_ THIS",
    },
    // Whole literals of each base.
    Row {
        text: b"H'fF o'17 B'1_0_1 d'007 1_000 0",
        canonical: b"255 15 5 7 1000 0",
    },
    Row {
        text: b"H'FFFFFFFFFFFFFFFF 18446744073709551615",
        canonical: b"18446744073709551615 18446744073709551615",
    },
    // A letter of a base before a character literal is a name.
    Row {
        text: b"h 'f' H'F",
        canonical: b"h 'f' 15",
    },
    // Character literals, with the apostrophe, the quote and bytes from 128 on.
    Row {
        text: b"'a''''' '\"' ' ' '\xe9' '^'",
        canonical: b"'a' '''' '\"' ' ' '\xe9' '^'",
    },
    // Text literals, with quotes, and what is no comment in them.
    Row {
        text: b"\"\" \"a\"\"b\" \"\"\"\" \"--x /* y */\" \"it's ; \xff\"",
        canonical: b"\"\" \"a\"\"b\" \"\"\"\" \"--x /* y */\" \"it's ; \xff\"",
    },
    // Signs with nothing between them.
    Row {
        text: b"([a],b):c:=.d+-*e/=f=<<=>>=/g",
        canonical: b"( [ a ] , b ) : c := . d + - * e /= f = < <= > >= / g",
    },
    // Signs that would be one without the blank.
    Row {
        text: b"a : = b < = > = / = - - /",
        canonical: b"a : = b < = > = / = - - /",
    },
    // Comments are not kept.
    Row {
        text: b"a/* one; */b -- two;\nc/**/d",
        canonical: b"a b c d",
    },
    // Blanks, tabs and line feeds are one blank.
    Row {
        text: b"x \t:=\r\n\n  1 ; y:=2;",
        canonical: b"x := 1 ;\ny := 2 ;\n",
    },
    // The longest name.
    Row {
        text: b"a234567890123456789012345678901234567890123456789012345678901234;",
        canonical: b"a234567890123456789012345678901234567890123456789012345678901234 ;\n",
    },
];
