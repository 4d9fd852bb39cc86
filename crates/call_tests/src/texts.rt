// Texts that several calls run.

/// It writes 3.
pub const SUM: &str = "M: MODULE PUT_INT(1 + 2); END M;";

/// It writes the number that is read.
pub const READING: &str = "M: MODULE PUT_INT(GET_INT()); END M;";

/// Two processes count to 1,000 in a region, and 2000 is written.
pub const SHARED_COUNTER: &str = "R: REGION GRANT bump, count; DCL n INT := 0;
bump: PROC (); n := n + 1; END bump;
count: PROC () RETURNS (INT); RETURN n; END count; END R;
M: MODULE SEIZE bump, count; SIGNAL home;
worker: PROCESS (); DO FOR i := 1 TO 1000; bump(); OD; SEND home; END worker;
START worker(); START worker();
DO FOR i := 1 TO 2; RECEIVE CASE (home): ESAC; OD;
PUT_INT(count()); END M;";
