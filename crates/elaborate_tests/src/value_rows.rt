// Programs of values, and what their bodies do once they are elaborated.
use crate::printed::Printed;

/// Constants: each largest expression of constant form is one node with its class and value.
pub const CONSTANTS: &[Printed] = &[
    Printed {
        text: "M: MODULE PUT_INT(1 + 2 * 3); PUT_INT(-5); PUT_INT((4)); END M;",
        bodies: &["[module [PUT_INT 7:D INT; PUT_INT -5:D INT; PUT_INT 4:D INT]]"],
    },
    // A synonym has the class of its written mode, or of its value.
    Printed {
        text: "M: MODULE SYN k INT (0:9) = 4, n = 6; PUT_INT(k); PUT_INT(n); PUT_INT(k + n); END M;",
        bodies: &["[module [PUT_INT 4:V INT(0:9); PUT_INT 6:D INT; PUT_INT 10:V INT]]"],
    },
    // Of an expression with a part that is no constant the largest constant parts are one node each.
    Printed {
        text: "M: MODULE DCL x INT; x := (1 + 2) * x + (3 + 4); END M;",
        bodies: &[
            "[module [nothing; shared 0 := add(multiply(3:D INT, shared 0:V INT):V INT, 7:D INT):V INT in INT]]",
        ],
    },
    Printed {
        text: "M: MODULE DCL x INT; x := x + 3 + 4; END M;",
        bodies: &[
            "[module [nothing; shared 0 := add(add(shared 0:V INT, 3:D INT):V INT, 4:D INT):V INT in INT]]",
        ],
    },
    // An element is of its SET, with the name that has it; SUCC keeps the class, NUM is of INT.
    Printed {
        text: "M: MODULE NEWMODE colour = SET (red, green); DCL c colour := green; c := SUCC(red); PUT_INT(NUM(green)); END M;",
        bodies: &[
            "[module [declare shared 0 := 1:D NEWMODE 1 (SET 2 of 2) in 0..1; shared 0 := 1:D NEWMODE 1 (SET 2 of 2) in 0..1; PUT_INT 1:D INT]]",
        ],
    },
    Printed {
        text: "M: MODULE DCL i INSTANCE := NULL; DCL b BOOL := TRUE; DCL c CHAR := 'a'; END M;",
        bodies: &[
            "[module [declare shared 0 := 0:NULL; declare shared 1 := 1:D BOOL in 0..1; declare shared 2 := 97:D CHAR in 0..255]]",
        ],
    },
    Printed {
        text: "M: MODULE PUT_TEXT(\"ab\"); PUT_TEXT(\"\"); END M;",
        bodies: &["[module [PUT_TEXT (97 98):2 D CHARS(2); PUT_TEXT ():0 D CHARS(0)]]"],
    },
    // A comparison of constants, and a test of a constant that isn't in the member mode.
    Printed {
        text: "M: MODULE SYNMODE few = POWERSET INT (0:7); DCL b BOOL; b := 3 < 4; b := 9 IN few [1]; b := NOT TRUE; END M;",
        bodies: &[
            "[module [nothing; shared 0 := 1:D BOOL in 0..1; shared 0 := 0:D BOOL in 0..1; shared 0 := 0:D BOOL in 0..1]]",
        ],
    },
    // A tuple of constants with a mode's name is a constant, as are parts of it that have none.
    Printed {
        text: "M: MODULE SYNMODE row = ARRAY (1:2) STRUCT (a INT, b BOOL); DCL r row := row [[1, TRUE], [2, FALSE]]; END M;",
        bodies: &[
            "[module [declare shared 0 := (1 1 2 0):4 V SYNMODE 1 (ARRAY(INT(1:2)) STRUCT(a INT, b BOOL))]]",
        ],
    },
    // The members 1, 3, 4 and 5 are the bits 2, 8, 16 and 32.
    Printed {
        text: "M: MODULE SYNMODE few = POWERSET INT (0:7); DCL p few := few [1, 3:5]; PUT_INT(CARD(few [2, 7])); PUT_INT(MAX(few [2, 7])); END M;",
        bodies: &[
            "[module [declare shared 0 := 58:V SYNMODE 1 (POWERSET INT(0:7)); PUT_INT 2:D INT; PUT_INT 7:V INT(0:7)]]",
        ],
    },
    // UPPER, LOWER and SIZE are constants, and their argument isn't evaluated.
    Printed {
        text: "M: MODULE DCL a ARRAY (2:5) INT; DCL i INT; PUT_INT(UPPER(a)); PUT_INT(LOWER(a)); PUT_INT(SIZE(a)); PUT_INT(SIZE(a(i))); PUT_INT(UPPER(INT)); END M;",
        bodies: &[
            "[module [nothing; nothing; PUT_INT 5:D INT(2:5); PUT_INT 2:D INT(2:5); PUT_INT 4:D INT; PUT_INT 1:D INT; PUT_INT 2147483647:D INT]]",
        ],
    },
    // A part of a synonym is no constant.
    Printed {
        text: "M: MODULE SYNMODE row = ARRAY (1:3) INT; SYN k = row [4, 5, 6]; PUT_INT(k(2)); END M;",
        bodies: &[
            "[module [PUT_INT ((4 5 6):3 V SYNMODE 1 (ARRAY(INT(1:3)) INT))(2:D INT in 1..3):V INT]]",
        ],
    },
    // A tuple without a mode's name is no constant, but its parts are.
    Printed {
        text: "M: MODULE DCL a ARRAY (1:3) INT (0:9) := [1, 1 + 1, 3]; END M;",
        bodies: &[
            "[module [declare shared 0 := [1:D INT in 0..9, 2:D INT in 0..9, 3:D INT in 0..9]:3 V ARRAY(INT(1:3)) INT(0:9)]]",
        ],
    },
];

/// Operators and routines, each with the class of its result.
pub const OPERATORS: &[Printed] = &[
    Printed {
        text: "M: MODULE DCL x, y INT; x := x - y * 2 / y MOD 3 REM x; END M;",
        bodies: &[
            "[module [nothing; shared 0 := subtract(shared 0:V INT, remainder(modulo(divide(multiply(shared 1:V INT, 2:D INT):V INT, shared 1:V INT):V INT, 3:D INT):V INT, shared 0:V INT):V INT):V INT in INT]]",
        ],
    },
    Printed {
        text: "M: MODULE DCL x INT; x := -x + ABS(x); END M;",
        bodies: &[
            "[module [nothing; shared 0 := add(minus(shared 0:V INT):V INT, ABS(shared 0:V INT):V INT):V INT in INT]]",
        ],
    },
    // The class of a result is of the root, so a range and a name of INT don't stay; a NEWMODE does.
    Printed {
        text: "M: MODULE SYNMODE few = INT (0:7); NEWMODE metres = INT; DCL x few; DCL m metres; x := x + 1; m := m + 1; END M;",
        bodies: &[
            "[module [nothing; nothing; shared 0 := add(shared 0:V SYNMODE 1 (INT(0:7)), 1:D INT):V INT in 0..7; shared 1 := add(shared 1:V NEWMODE 2 (INT), 1:D INT):V NEWMODE 2 (INT) in INT]]",
        ],
    },
    Printed {
        text: "M: MODULE DCL b, c BOOL; b := b AND c OR b XOR c; b := NOT b ANDIF c ORIF b; END M;",
        bodies: &[
            "[module [nothing; shared 0 := xor(or(and(shared 0:V BOOL, shared 1:V BOOL):V BOOL, shared 0:V BOOL):V BOOL, shared 1:V BOOL):V BOOL in 0..1; shared 0 := orif(andif(not(shared 0:V BOOL):V BOOL, shared 1:V BOOL):V BOOL, shared 0:V BOOL):V BOOL in 0..1]]",
        ],
    },
    Printed {
        text: "M: MODULE DCL b BOOL; DCL x INT; b := x = 1; b := x /= 1; b := x < 1; b := x <= 1; b := x > 1; b := x >= 1; END M;",
        bodies: &[
            "[module [nothing; nothing; shared 0 := equal(shared 1:V INT, 1:D INT):D BOOL in 0..1; shared 0 := not equal(shared 1:V INT, 1:D INT):D BOOL in 0..1; shared 0 := less(shared 1:V INT, 1:D INT):D BOOL in 0..1; shared 0 := less or equal(shared 1:V INT, 1:D INT):D BOOL in 0..1; shared 0 := greater(shared 1:V INT, 1:D INT):D BOOL in 0..1; shared 0 := greater or equal(shared 1:V INT, 1:D INT):D BOOL in 0..1]]",
        ],
    },
    // Texts are compared as others are, by all of their scalars.
    Printed {
        text: "M: MODULE DCL t CHARS (2); ASSERT t <= \"ab\"; END M;",
        bodies: &[
            "[module [nothing; assert less or equal(shared 0 of 2:2 V CHARS(2), (97 98):2 D CHARS(2)):D BOOL]]",
        ],
    },
    Printed {
        text: "M: MODULE DCL s, t STRUCT (a INT, b BOOL); ASSERT s = t; END M;",
        bodies: &[
            "[module [nothing; assert equal(shared 0 of 2:2 V STRUCT(a INT, b BOOL), shared 1 of 2:2 V STRUCT(a INT, b BOOL)):D BOOL]]",
        ],
    },
    // The signs of numbers and of BOOL have other meanings on powersets.
    Printed {
        text: "M: MODULE DCL p, q POWERSET INT (2:7); p := p OR q; p := p AND q; p := p XOR q; p := p - q; p := NOT p; END M;",
        bodies: &[
            "[module [nothing; shared 0 := union(shared 0:V POWERSET INT(2:7), shared 1:V POWERSET INT(2:7)):V POWERSET INT(2:7); shared 0 := intersection(shared 0:V POWERSET INT(2:7), shared 1:V POWERSET INT(2:7)):V POWERSET INT(2:7); shared 0 := symmetric difference(shared 0:V POWERSET INT(2:7), shared 1:V POWERSET INT(2:7)):V POWERSET INT(2:7); shared 0 := difference(shared 0:V POWERSET INT(2:7), shared 1:V POWERSET INT(2:7)):V POWERSET INT(2:7); shared 0 := complement of 6(shared 0:V POWERSET INT(2:7)):V POWERSET INT(2:7)]]",
        ],
    },
    Printed {
        text: "M: MODULE DCL p, q POWERSET BOOL; ASSERT p <= q; ASSERT p < q; ASSERT p >= q; ASSERT p > q; ASSERT p = q; END M;",
        bodies: &[
            "[module [nothing; assert included(shared 0:V POWERSET BOOL, shared 1:V POWERSET BOOL):D BOOL; assert properly included(shared 0:V POWERSET BOOL, shared 1:V POWERSET BOOL):D BOOL; assert includes(shared 0:V POWERSET BOOL, shared 1:V POWERSET BOOL):D BOOL; assert properly includes(shared 0:V POWERSET BOOL, shared 1:V POWERSET BOOL):D BOOL; assert equal(shared 0:V POWERSET BOOL, shared 1:V POWERSET BOOL):D BOOL]]",
        ],
    },
    // Members are counted from the member mode's lower bound.
    Printed {
        text: "M: MODULE DCL p POWERSET INT (2:7); DCL x INT; ASSERT x IN p; x := CARD(p); x := MIN(p); x := MAX(p); END M;",
        bodies: &[
            "[module [nothing; nothing; assert member of 2..7(shared 1:V INT, shared 0:V POWERSET INT(2:7)):D BOOL; shared 1 := CARD(shared 0:V POWERSET INT(2:7)):D INT in INT; shared 1 := MIN from 2(shared 0:V POWERSET INT(2:7)):V INT(2:7) in INT; shared 1 := MAX from 2(shared 0:V POWERSET INT(2:7)):V INT(2:7) in INT]]",
        ],
    },
    // SUCC and PRED stay within the mode of their operand, and keep its class.
    Printed {
        text: "M: MODULE DCL r INT (2:6); DCL c CHAR; r := SUCC(r); r := PRED(r); c := SUCC(c); r := NUM(c); END M;",
        bodies: &[
            "[module [nothing; nothing; shared 0 := SUCC to 6(shared 0:V INT(2:6)):V INT(2:6) in 2..6; shared 0 := PRED to 2(shared 0:V INT(2:6)):V INT(2:6) in 2..6; shared 1 := SUCC to 255(shared 1:V CHAR):V CHAR in 0..255; shared 0 := NUM(shared 1:V CHAR):D INT in 2..6]]",
        ],
    },
];

/// Locations with their parts, tuples, and values that others give.
pub const PLACES: &[Printed] = &[
    // A field tells its first scalar, an element the bounds of its index; either tells how many scalars it has.
    Printed {
        text: "M: MODULE DCL a ARRAY (1:3) STRUCT (x INT, t CHARS (2)); DCL i INT; a(i).x := a(2).x; a(3) := a(i); PUT_TEXT(a(i).t); ASSERT a(i).t(1) = 'b'; END M;",
        bodies: &[
            "[module [nothing; nothing; shared 0(shared 1:V INT in 1..3)of3.0 := shared 0(2:D INT in 1..3)of3.0:V INT in INT; shared 0(3:D INT in 1..3)of3 of 3 := shared 0(shared 1:V INT in 1..3)of3 of 3:3 V STRUCT(x INT, t CHARS(2)); PUT_TEXT shared 0(shared 1:V INT in 1..3)of3.1of2 of 2:2 V CHARS(2); assert equal(shared 0(shared 1:V INT in 1..3)of3.1of2(1:D INT in 0..1):V CHAR, 98:D CHAR):D BOOL]]",
        ],
    },
    // The index of an index.
    Printed {
        text: "M: MODULE SYNMODE letter = CHAR ('a':'c'); DCL a ARRAY (BOOL) ARRAY (letter) BOOL; a(a(TRUE)('b'))('c') := FALSE; END M;",
        bodies: &[
            "[module [nothing; shared 0(shared 0(1:D BOOL in 0..1)of3(98:D CHAR in 97..99):V BOOL in 0..1)of3(99:D CHAR in 97..99) := 0:D BOOL in 0..1]]",
        ],
    },
    // A part of the result of a call.
    Printed {
        text: "M: MODULE f: PROC () RETURNS (STRUCT (x INT, y INT)); END f; PUT_INT(f().y); END M;",
        bodies: &[
            "[module [PUT_INT (call 1():2 V STRUCT(x INT, y INT)).1:V INT]]",
            "[]",
        ],
    },
    Printed {
        text: "M: MODULE DCL x INT; DCL p POWERSET INT (0:7); p := [x, 3:x]; p := []; END M;",
        bodies: &[
            "[module [nothing; nothing; shared 1 := members 0..7 [shared 0:V INT, 3:D INT to shared 0:V INT]:V POWERSET INT(0:7); shared 1 := members 0..7 []:V POWERSET INT(0:7)]]",
        ],
    },
    Printed {
        text: "M: MODULE DCL x INT; DCL a ARRAY (1:4) INT (0:9); DCL s STRUCT (n INT, b BOOL); a := [(*): x]; s := [x, TRUE]; END M;",
        bodies: &[
            "[module [nothing; nothing; nothing; shared 1 of 4 := [4 times shared 0:V INT in 0..9]:4 V ARRAY(INT(1:4)) INT(0:9); shared 2 of 2 := [shared 0:V INT in INT, 1:D BOOL in 0..1]:2 V STRUCT(n INT, b BOOL)]]",
        ],
    },
    // A tuple with the name of a mode is of that mode.
    Printed {
        text: "M: MODULE SYNMODE pair = STRUCT (m, n INT); DCL x INT; DCL s pair; s := pair [x, 2]; END M;",
        bodies: &[
            "[module [nothing; nothing; shared 1 of 2 := [shared 0:V INT in INT, 2:D INT in INT]:2 V SYNMODE 1 (STRUCT(m INT, n INT))]]",
        ],
    },
    Printed {
        text: "M: MODULE DCL i INSTANCE; DCL b BUFFER (2) CHAR; DCL c CHAR; p: PROCESS (k INT (0:5)); END p; i := THIS; i := START p(3); c := RECEIVE b; PUT_INT(GET_INT()); END M;",
        bodies: &[
            "[module [nothing; nothing; nothing; shared 0 := THIS:D INSTANCE; shared 0 := START 1(3:D INT in 0..5):D INSTANCE; shared 1 := RECEIVE 0:V CHAR in 0..255; PUT_INT GET_INT:V INT]]",
            "[]",
        ],
    },
    // What is read alone has its mode with READ.
    Printed {
        text: "M: MODULE DCL k READ INT (0:5) := 4; PUT_INT(k); END M;",
        bodies: &[
            "[module [declare shared 0 := 4:D INT in 0..5; PUT_INT shared 0:V READ INT(0:5)]]",
        ],
    },
];
