// Workers bring whole texts to their ends.
ghost use Rattle.std.specs.Prelude.{◌≤◌};

use crate::texts::{UNITS, driven};
use exchange_text::make_text;
use held_passes::Meeting;
use kernel_base::Over;
use outside_ports::OpenGate;
use run_texts::output_text;
use serial_run::Driven;
use std::alloc::Global;
use std::sync::Wait;
use std::test::Fail;
use std::thread::Threads;

// Two processes count to 1,000 in a region.
const SHARED_COUNTER: &str = "R: REGION GRANT bump, count; DCL n INT := 0;
bump: PROC (); n := n + 1; END bump;
count: PROC () RETURNS (INT); RETURN n; END count; END R;
M: MODULE SEIZE bump, count; SIGNAL home;
worker: PROCESS (); DO FOR i := 1 TO 1000; bump(); OD; SEND home; END worker;
START worker(); START worker();
DO FOR i := 1 TO 2; RECEIVE CASE (home): ESAC; OD;
PUT_INT(count()); END M;";

// A process delays itself, and nobody is left to continue it.
const DELAYED: &str = "M: MODULE DCL e EVENT; CONTINUE e; DELAY e; END M;";

// Three processes are continued by priority, and then as they came.
const BY_PRIORITY: &str = "R: REGION GRANT park, sync, wake; SEIZE here; DCL e EVENT;
park: PROC (high BOOL); SEND here;
IF high THEN DELAY e PRIORITY 5; ELSE DELAY e; FI; END park;
sync: PROC (); END sync;
wake: PROC (); CONTINUE e; END wake; END R;
M: MODULE GRANT here; SEIZE park, sync, wake; SIGNAL here, done;
p: PROCESS (number INT, high BOOL); park(high); PUT_INT(number); SEND done; END p;
START p(1, FALSE); RECEIVE CASE (here): ESAC; sync();
START p(2, TRUE); RECEIVE CASE (here): ESAC; sync();
START p(3, TRUE); RECEIVE CASE (here): ESAC; sync();
DO FOR i := 1 TO 3; wake(); RECEIVE CASE (done): ESAC; OD; END M;";

// A process that delays itself frees the region that it locked last, and no other.
const OUTER_REGION_HELD: &str =
    "B: REGION GRANT sleep; DCL e EVENT; sleep: PROC (); DELAY e; END sleep; END B;
A: REGION GRANT hold, look; SEIZE sleep, inside;
hold: PROC (); SEND inside; sleep(); END hold; look: PROC (); END look; END A;
M: MODULE GRANT inside; SEIZE hold, look; SIGNAL inside;
p: PROCESS (); hold(); END p;
START p(); RECEIVE CASE (inside): ESAC; look(); END M;";

// A buffer gives the value of the highest priority first.
const FULL_BUFFER: &str =
    "M: MODULE DCL b BUFFER (2) INT; p: PROCESS (); SEND b (30); END p; SEND b (10); SEND b (20) PRIORITY 5; START p(); PUT_INT(RECEIVE b); PUT_INT(RECEIVE b); PUT_INT(RECEIVE b); END M;";

// As many processes as may live at once.
const AS_MANY_AS_MAY_LIVE: &str =
    "M: MODULE DCL e EVENT; DCL n INT; p: PROCESS (); DELAY e; END p; DO FOR EVER; START p(); n +:= 1; OD ON (SPACEFAIL): PUT_INT(n); END; END M;";

// A process that never ends.
const FOR_EVER: &str = "M: MODULE DO FOR EVER; OD; END M;";

// What an exchange with 20 subscribers writes.
const EXCHANGE: &str = "1 2\n2 3\n3 3\n4 3\n5 3\n6 3\n7 3\ntotal 83\n";

// Whether workers bring a text to this end, with this output.
fn is_served<R: Threads + Wait + Sync>(
    rt: &R,
    alloc: Global,
    text: &[u8],
    units: u64,
    output: &str,
    over: Over,
) -> bool {
    for workers in [2, 4, 16] {
        match driven(rt, alloc, text, units, workers, &OpenGate) {
            Some(driven) => {
                if driven.over != over || !puts(alloc, &driven, output) {
                    return false;
                }
            }
            None => return false,
        }
    }
    true
}

// Whether a run puts this output.
fn puts(alloc: Global, driven: &Driven, output: &str) -> bool {
    match output_text(alloc, driven.events.as_slice()) {
        Ok(text) => text.as_slice() == output.as_bytes(),
        Err(_) => false,
    }
}

// Whether workers bring the shared counter to its end where its two processes wait for each other at the gate, which needs a
// thread for each.
fn is_served_by_threads<R: Threads + Wait + Sync>(rt: &R, alloc: Global, workers: u32) -> bool
    requires { (2 ≤ workers) × (workers ≤ 16) }
{
    let gate = Meeting::new();
    match driven(rt, alloc, SHARED_COUNTER.as_bytes(), UNITS, workers, &gate) {
        Some(driven) => {
            gate.has_met() && driven.over == Over::AllEnded && puts(alloc, &driven, "2000")
        }
        None => false,
    }
}

#[test]
fn pool_serves(rt: HostRuntime) -> Result<(), Fail> {
    let alloc = rt.alloc();
    let rows = [
        (SHARED_COUNTER, UNITS, "2000", Over::AllEnded),
        (DELAYED, UNITS, "", Over::Still),
        (BY_PRIORITY, UNITS, "231", Over::AllEnded),
        (OUTER_REGION_HELD, UNITS, "", Over::Still),
        (FULL_BUFFER, UNITS, "201030", Over::AllEnded),
        (AS_MANY_AS_MAY_LIVE, UNITS, "999", Over::Still),
        (FOR_EVER, 500, "", Over::Spent),
    ];
    for (text, units, output, over) in rows {
        assert!(rt;
            is_served(&rt, alloc, text.as_bytes(), units, output, over),
            "{text}"
        );
    }
    for workers in [2, 4, 16] {
        assert!(rt;
            is_served_by_threads(&rt, alloc, workers),
            "{workers} workers"
        );
    }
    Ok(())
}

#[test]
fn pool_serves_an_exchange(rt: HostRuntime) -> Result<(), Fail> {
    let alloc = rt.alloc();
    let text = make_text(alloc, 20).ok().expect(&rt, "memory");
    assert!(rt; is_served(&rt, alloc, text.as_slice(), UNITS, EXCHANGE, Over::AllEnded));
    Ok(())
}
