// SEND and RECEIVE of signals.
use crate::stage::Step::{Did, Ends, Fetches, Goes, Waits};
use crate::stage::{Step, shows};
use crate::tables::Asked::{End, Enter, Leave, Put, ReceiveSignal, SendSignal, Start};
use crate::tables::Given::{Done, Fail, Got, Handed, Instance, Otherwise, Stored};
use crate::tables::{BOTH, FIRST, SECOND, THIRD};
use kernel_base::Exc::{Empty, Extinct};
use kernel_base::How::{Normal, Stopped};
use kernel_base::Over::AllEnded;
use std::test::Fail as Failure;

const TO_NOBODY: &[Step] = &[
    Did(1, SendSignal(0, Some(0), 0), Fail(Empty), None),
    Did(1, Put("a"), Done, None),
    Did(1, Start(1, &[]), Instance(2), None),
    Waits(1, ReceiveSignal(SECOND, false)),
    Did(2, Enter(0), Done, None),
    // The signal that was refused drew no number.
    Did(2, SendSignal(1, None, 0), Handed(1), None),
    Goes(1, Got(0, 1, &[], 2)),
    Fetches(1, Got(0, 1, &[], 2)),
    Waits(1, Enter(0)),
    Did(2, End(Stopped), Done, None),
    Goes(1, Done),
    Fetches(1, Done),
    Did(1, Leave(0), Done, None),
];

const TO_ONE_THAT_ENDED: &[Step] = &[
    Did(1, SendSignal(0, Some(2), 0), Fail(Extinct), None),
    Did(1, SendSignal(0, Some(3), 0), Fail(Extinct), None),
    Did(1, Put("b"), Done, None),
    Did(1, ReceiveSignal(FIRST, true), Otherwise, None),
    Did(1, Put("d"), Done, None),
    Did(1, End(Normal), Done, None),
    Ends(AllEnded),
];

#[test]
fn signals_to_nobody_are_refused_and_else_is_taken(rt: HostRuntime) -> Result<(), Failure> {
    shows(&rt, rt.alloc(), &[TO_NOBODY, TO_ONE_THAT_ENDED])
}

const TO_ONE: &[Step] = &[
    Did(1, Start(1, &[]), Instance(2), None),
    Did(1, Start(1, &[]), Instance(3), None),
    Waits(2, ReceiveSignal(FIRST, false)),
    Did(1, SendSignal(0, Some(3), 0), Stored, None),
    Did(3, SendSignal(0, Some(2), 0), Handed(2), None),
    Goes(2, Got(0, 2, &[], 3)),
    Fetches(2, Got(0, 2, &[], 3)),
    Did(2, ReceiveSignal(FIRST, true), Otherwise, None),
    Did(3, ReceiveSignal(FIRST, true), Got(0, 1, &[], 1), None),
];

#[test]
fn a_signal_to_an_instance_is_received_by_it_alone(rt: HostRuntime) -> Result<(), Failure> {
    shows(&rt, rt.alloc(), &[TO_ONE])
}

const TO_A_PROCESS: &[Step] = &[
    Did(1, Start(2, &[]), Instance(2), None),
    Did(1, Start(1, &[]), Instance(3), None),
    Waits(2, ReceiveSignal(THIRD, false)),
    Did(1, SendSignal(2, None, 0), Stored, None),
    Did(1, ReceiveSignal(THIRD, true), Otherwise, None),
    Did(3, ReceiveSignal(THIRD, false), Got(0, 1, &[], 1), None),
];

#[test]
fn a_signal_to_a_process_is_received_by_its_instances(rt: HostRuntime) -> Result<(), Failure> {
    shows(&rt, rt.alloc(), &[TO_A_PROCESS])
}

const PENDING: &[Step] = &[
    Did(1, SendSignal(0, None, 1), Stored, None),
    Did(1, SendSignal(1, None, 2), Stored, None),
    Did(1, SendSignal(0, None, 2), Stored, None),
    Did(1, ReceiveSignal(BOTH, false), Got(1, 2, &[], 1), None),
    Did(1, ReceiveSignal(BOTH, false), Got(0, 3, &[], 1), None),
    Did(1, ReceiveSignal(BOTH, false), Got(0, 1, &[], 1), None),
    Did(1, ReceiveSignal(BOTH, true), Otherwise, None),
];

#[test]
fn of_pending_signals_the_highest_priority_is_received_first(
    rt: HostRuntime,
) -> Result<(), Failure> {
    shows(&rt, rt.alloc(), &[PENDING])
}
