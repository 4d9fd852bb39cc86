// Programs of statements, and what their bodies do once they are elaborated.
use crate::printed::Printed;

/// Actions that hold no others.
pub const SIMPLE: &[Printed] = &[
    Printed {
        text: "M: MODULE ; PUT_NL(); STOP; END M;",
        bodies: &["[module [nothing; PUT_NL; stop]]"],
    },
    // A declaration is a statement at its place; without a value it sets locals to the lowest one, and others to nothing.
    Printed {
        text: "M: MODULE DCL a, b INT := 3, c BOOL; BEGIN DCL d INT (2:4); DCL e, f CHARS (2); DCL g INT := 5; END; END M;",
        bodies: &[
            "[module [declare shared 0, shared 1 := 3:D INT in INT; nothing; begin [lowest local 0 := 2; lowest local 1, 2 := (32 32); declare local 3 := 5:D INT in INT]]]",
        ],
    },
    // Definitions of synonyms, modes, signals, events and buffers.
    Printed {
        text: "M: MODULE SYN k = 3; SYNMODE m = INT; NEWMODE n = INT; SIGNAL s; DCL e EVENT; DCL b BUFFER INT; END M;",
        bodies: &["[module [nothing; nothing]]"],
    },
    // An assignment with an operator, with the operator that its target's mode asks for.
    Printed {
        text: "M: MODULE DCL n INT (0:9); DCL p, q POWERSET BOOL; DCL b BOOL; DCL a ARRAY (1:2) INT; n +:= 3; p -:= q; p OR:= q; b AND:= b; a(n) MOD:= n; n *:= 2; n REM:= 2; n /:= 2; b XOR:= TRUE; END M;",
        bodies: &[
            "[module [nothing; nothing; nothing; nothing; shared 0 add := 3:D INT in 0..9; shared 1 difference := shared 2:V POWERSET BOOL; shared 1 union := shared 2:V POWERSET BOOL; shared 3 and := shared 3:V BOOL in 0..1; shared 4(shared 0:V INT(0:9) in 1..2) modulo := shared 0:V INT(0:9) in INT; shared 0 multiply := 2:D INT in 0..9; shared 0 remainder := 2:D INT in 0..9; shared 0 divide := 2:D INT in 0..9; shared 3 xor := 1:D BOOL in 0..1]]",
        ],
    },
    // Arguments: one that is copied in is tested against the parameter, one that is copied out against the location.
    Printed {
        text: "M: MODULE p: PROC (a INT (0:5), b BOOL OUT, c INT (0:9) INOUT, d CHARS (2)); END p; DCL x BOOL; DCL y INT; p(3, x, y, \"ab\"); CALL p(y, x, y, \"cd\"); END M;",
        bodies: &[
            "[module [nothing; nothing; call 1(3:D INT in 0..5, out shared 0 in 0..1, inout shared 1 taken in 0..9 in INT, (97 98):2 D CHARS(2)); call 1(shared 1:V INT in 0..5, out shared 0 in 0..1, inout shared 1 taken in 0..9 in INT, (99 100):2 D CHARS(2))]]",
            "[]",
        ],
    },
    // A part and a structure that are copied out.
    Printed {
        text: "M: MODULE p: PROC (a INT OUT, s STRUCT (m, n INT) INOUT); END p; DCL t STRUCT (m, n INT); DCL r ARRAY (1:2) INT (0:9); p(r(1), t); END M;",
        bodies: &[
            "[module [nothing; nothing; call 1(out shared 1(1:D INT in 1..2) in 0..9, inout shared 0 of 2)]]",
            "[]",
        ],
    },
    // Routines whose value is dropped.
    Printed {
        text: "M: MODULE DCL x INT; SUCC(x); ABS(x); NUM('a'); GET_INT(); SIZE(x); END M;",
        bodies: &[
            "[module [nothing; drop SUCC to 2147483647(shared 0:V INT); drop ABS(shared 0:V INT); drop NUM(97:D CHAR); drop GET_INT:V INT; drop 1:D INT]]",
        ],
    },
    // A call whose result is dropped.
    Printed {
        text: "M: MODULE f: PROC () RETURNS (INT (0:5)); RESULT 3; RETURN; RETURN 4; END f; f(); PUT_INT(f()); END M;",
        bodies: &[
            "[module [call 1(); PUT_INT call 1():V INT(0:5)]]",
            "[result 3:D INT in 0..5; return; return 4:D INT in 0..5]",
        ],
    },
    // The exceptions of the language have the numbers from 0, in upper and lower case; others follow from 7 as they appear.
    Printed {
        text: "M: MODULE CAUSE OVERFLOW; CAUSE rangefail; CAUSE EMPTY; CAUSE assertfail; CAUSE DELAYFAIL; CAUSE spacefail; CAUSE EXTINCT; CAUSE lost; CAUSE Overflow; CAUSE lost; END M;",
        bodies: &[
            "[module [cause 0; cause 1; cause 2; cause 3; cause 4; cause 5; cause 6; cause 7; cause 8; cause 7]]",
        ],
    },
    // A label encloses its handler; the innermost label is number 0, and statements without one don't count.
    Printed {
        text: "M: MODULE a: BEGIN b: DO FOR EVER; BEGIN EXIT b; END; EXIT a; OD; END ON ELSE EXIT a; END; END M;",
        bodies: &[
            "[module [labelled begin [labelled for ever [begin [exit 0]; exit 1]] on else [exit 0]]]",
        ],
    },
    // Of equal labels the innermost is meant.
    Printed {
        text: "M: MODULE a: IF TRUE THEN b: BEGIN a: CASE 1 OF (1): EXIT a; EXIT b; ESAC; END; FI; END M;",
        bodies: &[
            "[module [labelled if 1:D BOOL [labelled begin [labelled case 1:D INT (1..1) [exit 0; exit 1]]] else []]]",
        ],
    },
    Printed {
        text: "M: MODULE DCL e, f EVENT; DELAY f; DELAY e PRIORITY 5 + 1; CONTINUE f; END M;",
        bodies: &["[module [nothing; delay 1 priority 0; delay 0 priority 6; continue 1]]"],
    },
    Printed {
        text: "M: MODULE DCL b BUFFER INT (0:5); SIGNAL s = (INT, CHARS (2)), t; DCL i INSTANCE; SEND b (3) PRIORITY 7; SEND s (4, \"ab\") TO i; SEND t; SEND t TO THIS PRIORITY 2; END M;",
        bodies: &[
            "[module [nothing; nothing; send to buffer 0 (3:D INT in 0..5) priority 7; send signal 0 (4:D INT in INT, (97 98):2 D CHARS(2)) to shared 0:V INSTANCE priority 0; send signal 1 () priority 0; send signal 1 () to THIS:D INSTANCE priority 2]]",
        ],
    },
    Printed {
        text: "M: MODULE p: PROCESS (k INT, s STRUCT (m INT, b BOOL)); END p; START p(1, [2, TRUE]); END M;",
        bodies: &[
            "[module [START 1(1:D INT in INT, [2:D INT in INT, 1:D BOOL in 0..1]:2 V STRUCT(m INT, b BOOL))]]",
            "[]",
        ],
    },
];

/// Actions that hold others, and handlers.
pub const HOLDING: &[Printed] = &[
    Printed {
        text: "M: MODULE DCL b BOOL; IF b THEN ; ELSIF NOT b THEN STOP; ELSE PUT_NL(); FI; IF b THEN FI; END M;",
        bodies: &[
            "[module [nothing; if shared 0:V BOOL [nothing] if not(shared 0:V BOOL):V BOOL [stop] else [PUT_NL]; if shared 0:V BOOL [] else []]]",
        ],
    },
    Printed {
        text: "M: MODULE DCL x INT; CASE x OF (1, 3:5, 2 + 4): ; (-1): STOP; ELSE PUT_NL(); ESAC; CASE 'b' OF ('a':'c'): ESAC; END M;",
        bodies: &[
            "[module [nothing; case shared 0:V INT (1..1, 3..5, 6..6) [nothing] (-1..-1) [stop] else [PUT_NL]; case 98:D CHAR (97..99) []]]",
        ],
    },
    Printed {
        text: "M: MODULE DCL b BOOL; DO WHILE b; STOP; OD; DO FOR EVER; OD; END M;",
        bodies: &["[module [nothing; while shared 0:V BOOL [stop]; for ever []]]"],
    },
    // A counter has the root of its bounds, or the member mode of a powerset.
    Printed {
        text: "M: MODULE DCL r INT (0:7); DO FOR i := r BY 2 DOWN TO 1 WHILE i > 3; PUT_INT(i); OD; DO FOR c := 'a' TO 'c'; OD; END M;",
        bodies: &[
            "[module [nothing; for local 0 from shared 0:V INT(0:7) by 2:D INT down to 1:D INT while greater(local 0:V INT, 3:D INT):D BOOL [PUT_INT local 0:V INT]; for local 1 from 97:D CHAR to 99:D CHAR []]]",
        ],
    },
    Printed {
        text: "M: MODULE DCL p POWERSET INT (2:7); DO FOR i IN p WHILE i < 5; PUT_INT(i); OD; END M;",
        bodies: &[
            "[module [nothing; for local 0 in shared 0:V POWERSET INT(2:7) from 2 while less(local 0:V INT(2:7), 5:D INT):D BOOL [PUT_INT local 0:V INT(2:7)]]]",
        ],
    },
    Printed {
        text: "M: MODULE DCL e, f, g EVENT; DCL a ARRAY (1:2) INSTANCE; DELAY CASE SET a(2) PRIORITY 4; (g, e): ; (f): STOP; ESAC; DELAY CASE (e): ESAC; END M;",
        bodies: &[
            "[module [nothing; nothing; delay case priority 4 set shared 0(2:D INT in 1..2) (2, 0) [nothing] (1) [stop]; delay case priority 0 (0) []]]",
        ],
    },
    // What is received from a buffer goes to one local.
    Printed {
        text: "M: MODULE DCL b BUFFER INT; DCL c BUFFER STRUCT (m, n INT); DCL i INSTANCE; RECEIVE CASE SET i; (c IN s): PUT_INT(s.n); (b IN k): ; ELSE STOP; ESAC; END M;",
        bodies: &[
            "[module [nothing; nothing; nothing; receive buffers set shared 0 1 (0) [PUT_INT local 0.1:V INT] 0 (1) [nothing] else [stop]]]",
        ],
    },
    // The names that a signal is received by are locals that follow each other.
    Printed {
        text: "M: MODULE SIGNAL s = (INT, CHARS (3), BOOL), t; BEGIN DCL x INT; RECEIVE CASE (t): ; (s IN k, l, m): ASSERT m; PUT_TEXT(l); ESAC; END; END M;",
        bodies: &[
            "[module [begin [lowest local 0 := 0; receive signals 1 () [nothing] 0 (1, 2, 3) [assert local 3:V BOOL; PUT_TEXT local 2 of 3:3 V CHARS(3)]]]]",
        ],
    },
    // Handlers with several names, with ELSE, in one another, and behind modulions and bodies.
    Printed {
        text: "M: MODULE BEGIN CAUSE lost ON (lost): STOP; END; END ON (OVERFLOW, late): PUT_NL(); (EMPTY): ELSE ; END; END ON ELSE STOP; END M;",
        bodies: &[
            "[module [begin [cause 7 on (7) [stop]] on (0, 8) [PUT_NL] (2) [] else [nothing]] on else [stop]]",
        ],
    },
    Printed {
        text: "M: MODULE p: PROC (); CAUSE lost; END ON (lost): RETURN; END p; q: PROCESS (); END ON ELSE ; END q; END M;",
        bodies: &[
            "[module []]",
            "[cause 7] on (7) [return]",
            "[] on else [nothing]",
        ],
    },
    // Modules and regions stand at their places; a region without a value in a declaration does nothing.
    Printed {
        text: "M: MODULE PUT_INT(1); N: MODULE PUT_INT(2); END N; PUT_INT(3); R: REGION DCL x INT; DCL y BOOL := TRUE; END ON ELSE END R; S: REGION DCL z INT; END S; END M;",
        bodies: &[
            "[module [PUT_INT 1:D INT; module [PUT_INT 2:D INT]; PUT_INT 3:D INT; region 0 [nothing; declare shared 1 := 1:D BOOL in 0..1] on else []; nothing]]",
        ],
    },
    Printed {
        text: "R: REGION GRANT bump; DCL n INT := 0; bump: PROC (); n := n + 1; END bump; END R; M: MODULE SEIZE bump; bump(); END M;",
        bodies: &[
            "[region 0 [declare shared 0 := 0:D INT in INT]; module [call 1()]]",
            "[shared 0 := add(shared 0:V INT, 1:D INT):V INT in INT]",
        ],
    },
    // A procedure's own locals are numbered behind its parameters, block by block in the order of the text.
    Printed {
        text: "M: MODULE p: PROC (a, b INT); DCL c INT := a; BEGIN DCL d INT := b; c := d; END; DO FOR i := a TO c; use_it(i); OD; END p; use_it: PROC (k INT); END use_it; END M;",
        bodies: &[
            "[module []]",
            "[declare local 2 := local 0:V INT in INT; begin [declare local 3 := local 1:V INT in INT; local 2 := local 3:V INT in INT]; for local 4 from local 0:V INT to local 2:V INT [call 2(local 4:V INT in INT)]]",
            "[]",
        ],
    },
];
