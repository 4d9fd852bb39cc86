// Outputs and reports of journals, by hand.
use crate::journals::{Step, events_of};
use crate::programs::named_program;
use Step::{
    Continues, Delays, Ends, Enters, Goes, Hears, Leaves, Puts, Receives, Runs, Sends, SendsTo,
    Signals, SignalsTo, Starts, StartsNone, WaitsToEnter, WaitsToReceive, WaitsToSend,
};
use chill_base::Memory;
use kernel_base::{Exc, How, Over};
use run_texts::{output_text, report_text};
use std::alloc::Global;
use std::test::Fail;

// A journal, how its run was over, and its report, for a program of the processes `p` and `q` with two exceptions.
struct Report(&'static [Step], Over, &'static str);

const NORMAL: How = How::Normal;

const ENDS: &[Report] = &[
    Report(&[], Over::Spent, "process 1 OUTER: active\nspent\n"),
    Report(&[Ends(1, NORMAL)], Over::AllEnded, ""),
    Report(&[Ends(1, How::Stopped)], Over::AllEnded, ""),
    Report(&[Ends(1, NORMAL)], Over::Spent, "spent\n"),
    Report(
        &[Ends(1, How::Raised(Exc::Overflow))],
        Over::AllEnded,
        "process 1 OUTER: exception OVERFLOW\n",
    ),
    Report(
        &[Ends(1, How::Raised(Exc::Rangefail))],
        Over::AllEnded,
        "process 1 OUTER: exception RANGEFAIL\n",
    ),
    Report(
        &[Ends(1, How::Raised(Exc::Empty))],
        Over::AllEnded,
        "process 1 OUTER: exception EMPTY\n",
    ),
    Report(
        &[Ends(1, How::Raised(Exc::Assertfail))],
        Over::AllEnded,
        "process 1 OUTER: exception ASSERTFAIL\n",
    ),
    Report(
        &[Ends(1, How::Raised(Exc::Delayfail))],
        Over::AllEnded,
        "process 1 OUTER: exception DELAYFAIL\n",
    ),
    Report(
        &[Ends(1, How::Raised(Exc::Spacefail))],
        Over::AllEnded,
        "process 1 OUTER: exception SPACEFAIL\n",
    ),
    Report(
        &[Ends(1, How::Raised(Exc::Extinct))],
        Over::AllEnded,
        "process 1 OUTER: exception EXTINCT\n",
    ),
    Report(
        &[Puts(1, "1"), Ends(1, How::Raised(Exc::User(1)))],
        Over::AllEnded,
        "process 1 OUTER: exception lost\n",
    ),
    Report(
        &[Ends(1, How::Raised(Exc::User(2)))],
        Over::AllEnded,
        "process 1 OUTER: exception \n",
    ),
    Report(
        &[Starts(1, 2, 2), Starts(1, 3, 3), Ends(1, NORMAL), Runs(2)],
        Over::Spent,
        "process 2 q: active\nprocess 3 : active\nspent\n",
    ),
    Report(
        &[
            Starts(1, 1, 2),
            Starts(1, 1, 3),
            Ends(3, How::Raised(Exc::Empty)),
            Ends(1, NORMAL),
            Ends(2, How::Raised(Exc::User(0))),
        ],
        Over::AllEnded,
        "process 2 p: exception busy\nprocess 3 p: exception EMPTY\n",
    ),
];

const WAITS: &[Report] = &[
    // The continuation comes before the delay.
    Report(
        &[Continues(1, None), Delays(1)],
        Over::Still,
        "process 1 OUTER: delayed\nstuck\n",
    ),
    // Of the regions 0 and 1, entered in the order 1, 0, the delay frees 0 alone.
    Report(
        &[
            Starts(1, 1, 2),
            Hears(1),
            Enters(2, 1),
            SignalsTo(2, 1),
            Enters(2, 0),
            Delays(2),
            Goes(1),
            WaitsToEnter(1, 1),
        ],
        Over::Still,
        "process 1 OUTER: suspended\nprocess 2 p: delayed\nstuck\n",
    ),
    // No more may be started, and all that were are delayed.
    Report(
        &[
            Starts(1, 1, 2),
            Delays(2),
            Starts(1, 1, 3),
            StartsNone(1),
            Puts(1, "2"),
            Ends(1, NORMAL),
            Delays(3),
        ],
        Over::Still,
        "process 2 p: delayed\nprocess 3 p: delayed\nstuck\n",
    ),
    Report(
        &[Runs(1), Runs(1)],
        Over::Spent,
        "process 1 OUTER: active\nspent\n",
    ),
    // Chosen with no region to lock again.
    Report(
        &[Starts(1, 1, 2), Delays(2), Continues(1, Some(2))],
        Over::Spent,
        "process 1 OUTER: active\nprocess 2 p: active\nspent\n",
    ),
    // Chosen, with the region to lock again that it freed.
    Report(
        &[
            Starts(1, 1, 2),
            Enters(2, 0),
            Delays(2),
            Enters(1, 0),
            Continues(1, Some(2)),
        ],
        Over::Spent,
        "process 1 OUTER: active\nprocess 2 p: suspended\nspent\n",
    ),
    // It has locked it again, and left it before it waits once more.
    Report(
        &[
            Starts(1, 1, 2),
            Enters(2, 0),
            Delays(2),
            Continues(1, Some(2)),
            Goes(2),
            Leaves(2, 0),
            Delays(2),
            Continues(1, Some(2)),
        ],
        Over::Spent,
        "process 1 OUTER: active\nprocess 2 p: active\nspent\n",
    ),
    // What was entered after a wait, and is still held.
    Report(
        &[
            Starts(1, 1, 2),
            Enters(1, 0),
            WaitsToEnter(2, 0),
            Leaves(1, 0),
            Goes(2),
            Hears(2),
            SignalsTo(1, 2),
        ],
        Over::Spent,
        "process 1 OUTER: active\nprocess 2 p: suspended\nspent\n",
    ),
];

const MESSAGES: &[Report] = &[
    Report(
        &[WaitsToReceive(1)],
        Over::Still,
        "process 1 OUTER: delayed\nstuck\n",
    ),
    Report(
        &[Hears(1)],
        Over::Still,
        "process 1 OUTER: delayed\nstuck\n",
    ),
    Report(
        &[Sends(1), Signals(1), WaitsToSend(1)],
        Over::Still,
        "process 1 OUTER: delayed\nstuck\n",
    ),
    // The sender's value took the place of the one received.
    Report(
        &[
            Starts(1, 1, 2),
            Sends(2),
            WaitsToSend(2),
            Receives(1, Some(2)),
            Ends(1, NORMAL),
        ],
        Over::Spent,
        "process 2 p: active\nspent\n",
    ),
    Report(
        &[
            Starts(1, 1, 2),
            WaitsToReceive(2),
            SendsTo(1, 2),
            Receives(1, None),
            Ends(1, NORMAL),
        ],
        Over::Spent,
        "process 2 p: active\nspent\n",
    ),
];

// Whether each journal has its report.
fn all_reported(alloc: Global, rows: &[Report]) -> Result<bool, Memory> {
    let program = named_program(alloc, &["OUTER", "p", "q"], &["busy", "lost"])?;
    for Report(steps, over, expected) in rows {
        let events = events_of(alloc, steps)?;
        let text = report_text(alloc, &program, events.as_slice(), *over)?;
        if text.as_slice() != expected.as_bytes() {
            return Ok(false);
        }
    }
    Ok(true)
}

#[test]
fn ends_are_reported(rt: HostRuntime) -> Result<(), Fail> {
    let reported = all_reported(rt.alloc(), ENDS)?;
    assert!(rt; reported);
    Ok(())
}

#[test]
fn waits_are_reported(rt: HostRuntime) -> Result<(), Fail> {
    let reported = all_reported(rt.alloc(), WAITS)?;
    assert!(rt; reported);
    Ok(())
}

#[test]
fn messages_are_reported(rt: HostRuntime) -> Result<(), Fail> {
    let reported = all_reported(rt.alloc(), MESSAGES)?;
    assert!(rt; reported);
    Ok(())
}

#[test]
fn puts_are_the_output(rt: HostRuntime) -> Result<(), Fail> {
    let steps = [
        Starts(1, 1, 2),
        Puts(1, "12"),
        Puts(2, "\n"),
        Puts(1, ""),
        Runs(1),
        Puts(1, "-3"),
        Ends(1, NORMAL),
    ];
    let events = events_of(rt.alloc(), &steps)?;
    let text = output_text(rt.alloc(), events.as_slice())?;
    assert_eq!(rt; text.as_slice(), b"12\n-3".as_slice());
    Ok(())
}
