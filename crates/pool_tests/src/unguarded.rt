// A counter that two processes share without a region: how much of it is lost hangs on who runs when, and the journal tells.
use crate::texts::{UNITS, driven};
use kernel_base::{Event, Over, Request};
use outside_ports::OpenGate;
use run_texts::output_text;
use std::test::Fail;

const UNGUARDED: &str = "M: MODULE DCL n INT := 0; SIGNAL home;
worker: PROCESS (); DO FOR i := 1 TO 1000; n := n + 1; OD; SEND home; END worker;
START worker(); START worker();
DO FOR i := 1 TO 2; RECEIVE CASE (home): ESAC; OD;
PUT_INT(n); END M;";

// The number that a journal writes last to a shared location of one number, or 0.
fn last_written(events: &[Event]) -> i64 {
    let mut last = 0;
    for event in events {
        if let Event::Did {
            request: Request::Write { scalars, .. },
            ..
        } = event
        {
            if let Some(value) = scalars.as_slice().first() {
                last = *value;
            }
        }
    }
    last
}

// The number that decimal digits tell.
fn number_of(digits: &[u8]) -> i64 {
    let mut number: i64 = 0;
    for digit in digits {
        let value = i64::from(digit.saturating_sub(b'0'));
        number = number.saturating_mul(10).saturating_add(value);
    }
    number
}

#[test]
fn an_unguarded_counter_comes_to_what_was_written_last(rt: HostRuntime) -> Result<(), Fail> {
    let alloc = rt.alloc();
    for workers in [2, 4, 16] {
        let driven = driven(&rt, alloc, UNGUARDED.as_bytes(), UNITS, workers, &OpenGate).expect(
            &rt, "a run",
        );
        let output = output_text(alloc, driven.events.as_slice())
            .ok()
            .expect(&rt, "memory");
        let told = number_of(output.as_slice());
        let written = last_written(driven.events.as_slice());
        let all_ended = driven.over == Over::AllEnded;
        assert!(rt; all_ended);
        assert_eq!(rt; told, written);
        assert!(rt; 2 <= told && told <= 2000);
    }
    Ok(())
}
