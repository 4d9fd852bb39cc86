// Texts and their sizes, by hand.

/// A text, and its size.
pub struct SizeRow {
    pub text: &'static str,
    pub size: u32,
}

pub static ROWS: [SizeRow; 28] = [
    SizeRow {
        text: "M: MODULE END M;",
        size: 16,
    },
    SizeRow {
        text: "M: MODULE PUT_INT(1); END M;",
        size: 28,
    },
    SizeRow {
        text: "M: MODULE PUT_INT(1 + 2); END M;",
        size: 36,
    },
    SizeRow {
        text: "M: MODULE ; END M;",
        size: 24,
    },
    SizeRow {
        text: "M: MODULE DCL n INT; n +:= 1; END M;",
        size: 32,
    },
    SizeRow {
        text: "M: MODULE DCL n INT := -5; END M;",
        size: 24,
    },
    SizeRow {
        text: "M: MODULE DCL n INT; n := ((n)); END M;",
        size: 32,
    },
    SizeRow {
        text: "M: MODULE DCL a ARRAY (1:3) INT; a(2) := 7; END M;",
        size: 48,
    },
    SizeRow {
        text: "M: MODULE DCL s STRUCT (x INT, y BOOL); s.x := 1; END M;",
        size: 36,
    },
    SizeRow {
        text: "M: MODULE f: PROC () RETURNS (INT); RETURN 1; END f; PUT_INT(f()); END M;",
        size: 60,
    },
    SizeRow {
        text: "M: MODULE f: PROC (); END f; f(); CALL f(); END M;",
        size: 48,
    },
    SizeRow {
        text: "M: MODULE DCL p POWERSET INT (0:7); p := [1, 3:5]; END M;",
        size: 52,
    },
    SizeRow {
        text: "M: MODULE DCL a ARRAY (1:3) INT; a := [(*): 0]; END M;",
        size: 44,
    },
    SizeRow {
        text: "M: MODULE SYNMODE m = ARRAY (1:3) INT; DCL a m; a := m [1, 2, 3]; END M;",
        size: 52,
    },
    SizeRow {
        text: "M: MODULE DCL x INT; CASE x OF (1, 2:3): ; (4): ; ELSE ; ESAC; END M;",
        size: 84,
    },
    SizeRow {
        text: "M: MODULE IF TRUE THEN ; ELSIF FALSE THEN ; ELSE ; FI; END M;",
        size: 56,
    },
    SizeRow {
        text: "M: MODULE DO FOR i := 1 BY 2 TO 9 WHILE TRUE; PUT_INT(i); OD; END M;",
        size: 52,
    },
    SizeRow {
        text: "M: MODULE DCL p POWERSET BOOL; DO FOR i IN p WHILE NOT i; OD; DO WHILE NOT TRUE; OD; l: DO FOR EVER; EXIT l; OD l; END M;",
        size: 68,
    },
    SizeRow {
        text: "M: MODULE ASSERT TRUE ON (ASSERTFAIL): ; (a, b): ; ELSE ; END; END ON (EMPTY): STOP; END M;",
        size: 84,
    },
    SizeRow {
        text: "M: MODULE DCL e, f EVENT (3); DCL i INSTANCE; DELAY CASE SET i PRIORITY 2; (e): ; (f): ; ESAC; DELAY e PRIORITY 1; CONTINUE f; END M;",
        size: 88,
    },
    SizeRow {
        text: "M: MODULE DCL b BUFFER (2) INT; DCL i INSTANCE; RECEIVE CASE SET i; (b IN v): PUT_INT(v); ELSE ; ESAC; END M;",
        size: 60,
    },
    SizeRow {
        text: "M: MODULE DCL b BUFFER INT; SIGNAL s = (INT, INT); SEND b (1) PRIORITY 3; SEND s (1, 2) TO THIS; END M;",
        size: 52,
    },
    SizeRow {
        text: "M: MODULE p: PROCESS (k INT); END p; DCL i INSTANCE; START p(1); i := START p(2); END M;",
        size: 64,
    },
    SizeRow {
        text: "M: MODULE DCL b BUFFER INT; PUT_INT(RECEIVE b); PUT_TEXT(\"ab\"); PUT_NL(); END M;",
        size: 48,
    },
    SizeRow {
        text: "M: MODULE SYN n = 3; DCL s STRUCT (a INT (0:255) POS (0, 0 : 7)); END M;",
        size: 40,
    },
    SizeRow {
        text: "M: MODULE DCL a ARRAY (0:3) INT (0:255) STEP (POS (0, 0, 8), 8); END M;",
        size: 48,
    },
    SizeRow {
        text: "M: MODULE f: PROC (a INT (0:7), b CHARS (3) OUT) RETURNS (INT (0:1)); RESULT 0; END f; SIGNAL s = (INT (0:3), CHARS (2)); END M;",
        size: 76,
    },
    SizeRow {
        text: "R: REGION GRANT f; f: PROC (); END f; END R; M: MODULE SEIZE f; f(); N: MODULE ; END N; END M;",
        size: 48,
    },
];
