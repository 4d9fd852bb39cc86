// Programs and the rows of what they define, with their numbers.
use crate::print_rows::Rows::{self, Bodies, Definitions, Locations, Meetings, Modulions, Whole};

/// A program, which of its rows are meant, and how they are written.
pub struct Numbered {
    pub text: &'static str,
    pub rows: Rows,
    pub printed: &'static str,
}

pub const ROWS: &[Numbered] = &[
    // Shared locations are numbered in the order of the text, over all modulions; events and buffers aren't among them.
    Numbered {
        text: "A: MODULE DCL x INT; DCL e EVENT; R: REGION DCL y, z CHARS (2); END R; DCL b BUFFER INT; DCL t BOOL; END A; B: MODULE BEGIN DCL l INT; END; DCL u CHAR; END B;",
        rows: Locations,
        printed: "1 x INT; 4 y CHARS(2) region 0; 5 z CHARS(2) region 0; 7 t BOOL; 10 u CHAR",
    },
    // The mode of a location, with names by the numbers of their definitions; a SET is that of its first element.
    Numbered {
        text: "M: MODULE SYNMODE few = INT (0:7); NEWMODE hue = SET (red, green); DCL a ARRAY (few) hue PACK; DCL s STRUCT (m INT, n few) PACK; DCL r READ few := 1; DCL c SET (one, two, three); DCL p POWERSET hue; END M;",
        rows: Locations,
        printed: "5 a ARRAY(SYNMODE 1 (INT(0:7))) NEWMODE 2 (SET 3 of 2) PACK; 6 s STRUCT(m INT, n SYNMODE 1 (INT(0:7))) PACK; 7 r READ SYNMODE 1 (INT(0:7)); 8 c SET 9 of 3; 12 p POWERSET NEWMODE 2 (SET 3 of 2)",
    },
    Numbered {
        text: "M: MODULE DCL s STRUCT (a INT (0:255) POS (0, 0:7), b BOOL POS (0, 8, 1)); DCL a ARRAY (0:3) INT (0:15) STEP (POS (0, 0:3), 8); END M;",
        rows: Locations,
        printed: "1 s STRUCT(a INT(0:255) POS(0, 0:7), b BOOL POS(0, 8:8)); 2 a ARRAY(INT(0:3)) INT(0:15) STEP(POS(0, 0:3), 8)",
    },
    // Events, buffers and signals have numbers of their own, each from 0.
    Numbered {
        text: "A: MODULE DCL e EVENT, b BUFFER INT, f EVENT (3); SIGNAL s, t = (INT, CHARS (2)) TO p; p: PROCESS (); END p; END A; B: MODULE DCL c BUFFER (0) STRUCT (m INT); DCL g EVENT (1000); SIGNAL u = (BOOL); END B;",
        rows: Meetings,
        printed: "events: 1 e; 3 f length 3; 9 g length 1000; buffers: 2 b of INT; 8 c length 0 of STRUCT(m INT); signals: 4 s (); 5 t (INT, CHARS(2)) to 1; 10 u (BOOL);",
    },
    // Bodies are numbered in the order of the text, the outermost process first, whichever modulion they stand in.
    Numbered {
        text: "A: MODULE p: PROC (); END p; R: REGION q: PROC (); END q; END R; s: PROCESS (); END s; END A; B: MODULE t: PROC (); END t; END B;",
        rows: Bodies,
        printed: "outermost OUTER []; procedure 1 p []; procedure 3 q region 0 []; process 4 s []; procedure 6 t []",
    },
    // Parameters, their ways, results, and the exceptions that are listed as they are written, repeats too.
    Numbered {
        text: "M: MODULE p: PROC (a INT, b, c BOOL OUT, d CHARS (2) INOUT) RETURNS (INT (0:5)) EXCEPTIONS (lost, OVERFLOW, lost, late); CAUSE late; END p; END M;",
        rows: Bodies,
        printed: "outermost OUTER []; procedure 1 p in out out inout returns INT(0:5) lists 7, 0, 7, 8 [0+1 a INT, 1+1 b BOOL, 2+1 c BOOL, 3+2 d CHARS(2)]",
    },
    // Only what a region grants is critical.
    Numbered {
        text: "R: REGION GRANT p; p: PROC (); END p; q: PROC (); END q; END R; S: REGION GRANT ALL; r: PROC (); END r; END S; M: MODULE GRANT t; t: PROC (); END t; END M;",
        rows: Bodies,
        printed: "outermost OUTER []; procedure 1 p region 0 critical []; procedure 2 q region 0 []; procedure 4 r region 1 critical []; procedure 6 t []",
    },
    // Locals are parameters, then declared names, counters and received names in the order of the text.
    Numbered {
        text: "M: MODULE SIGNAL s = (INT, CHARS (3)); DCL b BUFFER STRUCT (m, n INT); p: PROCESS (k INT, t CHARS (2)); DCL a ARRAY (1:2) INT; DO FOR i := 1 TO k; none(); OD; RECEIVE CASE (s IN x, y): ; ESAC; RECEIVE CASE (b IN v): BEGIN DCL z BOOL; END; ESAC; END ON ELSE BEGIN DCL w CHAR; END; END p; none: PROC (); END none; END M;",
        rows: Bodies,
        printed: "outermost OUTER []; process 3 p in in [0+1 k INT, 1+2 t CHARS(2), 3+2 a ARRAY(INT(1:2)) INT, 5+1 i INT, 6+1 x INT, 7+3 y CHARS(3), 10+2 v STRUCT(m INT, n INT), 12+1 z BOOL, 13+1 w CHAR]; procedure 13 none []",
    },
    // Blocks at the level of modulions are of the outermost process, in whichever modulion they stand.
    Numbered {
        text: "A: MODULE BEGIN DCL x INT; END; N: MODULE DO FOR i := 'a' TO 'b'; OD; END N; END A; B: MODULE BEGIN DCL y BOOL; END ON ELSE BEGIN DCL z CHAR; END; END; END B;",
        rows: Bodies,
        printed: "outermost OUTER [0+1 x INT, 1+1 i CHAR, 2+1 y BOOL, 3+1 z CHAR]",
    },
    // The innermost modulion or body that a definition stands in. Elements in a head are the modulion's.
    Numbered {
        text: "A: MODULE SYN k = 1; p: PROC (a SET (one, two)); DCL x INT; BEGIN DCL y INT; END; END p; N: MODULE SIGNAL s; q: PROCESS (); DO FOR i := 1 TO 2; OD; END q; END N; BEGIN DCL z INT; END; END A;",
        rows: Definitions,
        printed: "A; k in modulion 0; p in modulion 0; a in body 1; one in modulion 0; two in modulion 0; x in body 1; y in body 1; N in modulion 0; s in modulion 1; q in modulion 1; i in body 2; z in modulion 0",
    },
    // What a modulion uses of what is outside it, in the order of first uses, and the size of its text.
    Numbered {
        text: "A: MODULE GRANT k, p, m; SYN k = 1; SYNMODE m = INT; p: PROC (a m); END p; END A; B: MODULE SEIZE ALL; DCL x m; p(k); p(k); N: MODULE SEIZE p, x; p(x); END N; END B;",
        rows: Modulions,
        printed: "A size 20 uses (); B size 36 uses (2, 3, 1); N in 1 size 12 uses (3, 6)",
    },
    Numbered {
        text: "M: MODULE PUT_INT(1); END M;",
        rows: Whole,
        printed: "regions 0, exceptions, size 28",
    },
    // Exceptions are numbered as they first appear, behind EXCEPTIONS, CAUSE or ON; those of the language aren't among them.
    Numbered {
        text: "M: MODULE CAUSE b ON (a, c): CAUSE OVERFLOW; END; p: PROC () EXCEPTIONS (d, a, overflow, Overflow); END ON (e): END p; END ON (f, b): END M; R: REGION END ON (g): END R;",
        rows: Whole,
        printed: "regions 1, exceptions b a c d Overflow e f g, size 80",
    },
    // GET_INT is read where it stands, reached or not, in either spelling.
    Numbered {
        text: "M: MODULE p: PROC (); get_int(); END p; END M;",
        rows: Whole,
        printed: "regions 0, exceptions, reads input, size 40",
    },
    // A GET_INT of the program's own reads nothing.
    Numbered {
        text: "M: MODULE GET_INT: PROC () RETURNS (INT); RETURN 1; END GET_INT; PUT_INT(GET_INT()); END M;",
        rows: Whole,
        printed: "regions 0, exceptions, size 60",
    },
];
