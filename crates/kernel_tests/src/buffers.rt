// SEND to and RECEIVE from buffers.
use crate::stage::Step::{Did, Ends, Fetches, FetchesNone, Goes, GoesOn, Waits};
use crate::stage::{Step, shows};
use crate::tables::Asked::{End, Put, ReceiveBuffer, SendBuffer, Start};
use crate::tables::Given::{Done, Got, Handed, Instance, Otherwise, Stored};
use crate::tables::{BOTH, FIRST, SECOND, THIRD};
use kernel_base::How::Normal;
use kernel_base::Over::AllEnded;
use std::test::Fail as Failure;

// The buffer of length 2 is full as instance 2 sends.
const FULL_BUFFER: &[Step] = &[
    Did(1, SendBuffer(0, &[10], 0), Stored, None),
    Did(1, SendBuffer(0, &[20], 5), Stored, None),
    Did(1, Start(1, &[]), Instance(2), None),
    Waits(2, SendBuffer(0, &[30], 0)),
    FetchesNone(2),
];

const REFILLED_BUFFER: &[Step] = &[
    Did(1, ReceiveBuffer(FIRST, false), Got(0, 2, &[20], 1), Some(2)),
    Goes(2, Stored),
    Fetches(2, Stored),
    Did(1, Put("20"), Done, None),
    Did(2, End(Normal), Done, None),
    Did(1, ReceiveBuffer(FIRST, false), Got(0, 1, &[10], 1), None),
    Did(1, Put("10"), Done, None),
    Did(1, ReceiveBuffer(FIRST, false), Got(0, 3, &[30], 2), None),
    Did(1, Put("30"), Done, None),
    GoesOn,
    Did(1, End(Normal), Done, None),
    Ends(AllEnded),
];

#[test]
fn a_full_buffer_is_refilled_by_the_sender_that_waits(rt: HostRuntime) -> Result<(), Failure> {
    shows(&rt, rt.alloc(), &[FULL_BUFFER, REFILLED_BUFFER])
}

// Two senders wait, and the one of the higher priority came later.
const TWO_SENDERS: &[Step] = &[
    Did(1, SendBuffer(0, &[10], 0), Stored, None),
    Did(1, SendBuffer(0, &[20], 0), Stored, None),
    Did(1, Start(1, &[]), Instance(2), None),
    Did(1, Start(1, &[]), Instance(3), None),
    Waits(2, SendBuffer(0, &[30], 0)),
    Waits(3, SendBuffer(0, &[40], 1)),
    Did(1, ReceiveBuffer(FIRST, false), Got(0, 1, &[10], 1), Some(3)),
    Goes(3, Stored),
    Did(1, ReceiveBuffer(FIRST, false), Got(0, 4, &[40], 3), Some(2)),
    Goes(2, Stored),
    Did(1, ReceiveBuffer(FIRST, false), Got(0, 2, &[20], 1), None),
];

#[test]
fn the_sender_of_the_highest_priority_refills(rt: HostRuntime) -> Result<(), Failure> {
    shows(&rt, rt.alloc(), &[TWO_SENDERS])
}

const RECEIVER_FIRST: &[Step] = &[
    Did(1, Start(1, &[]), Instance(2), None),
    Waits(1, ReceiveBuffer(SECOND, false)),
    Did(2, SendBuffer(1, &[7], 0), Handed(1), None),
    Goes(1, Got(0, 1, &[7], 2)),
    Fetches(1, Got(0, 1, &[7], 2)),
    Did(2, End(Normal), Done, None),
    Did(1, Put("7"), Done, None),
    Did(1, End(Normal), Done, None),
    Ends(AllEnded),
];

#[test]
fn a_buffer_of_length_zero_hands_to_the_receiver_that_waits(
    rt: HostRuntime,
) -> Result<(), Failure> {
    shows(&rt, rt.alloc(), &[RECEIVER_FIRST])
}

const SENDER_FIRST: &[Step] = &[
    Did(1, Start(1, &[]), Instance(2), None),
    Waits(2, SendBuffer(1, &[7], 0)),
    Did(1, ReceiveBuffer(SECOND, false), Got(0, 1, &[7], 2), Some(2)),
    Goes(2, Stored),
    Fetches(2, Stored),
    // Nothing was stored in its place.
    Did(1, ReceiveBuffer(SECOND, true), Otherwise, None),
];

#[test]
fn a_buffer_of_length_zero_takes_from_the_sender_that_waits(
    rt: HostRuntime,
) -> Result<(), Failure> {
    shows(&rt, rt.alloc(), &[SENDER_FIRST])
}

const TWO_BUFFERS: &[Step] = &[
    Did(1, Start(1, &[]), Instance(2), None),
    Did(1, SendBuffer(0, &[10], 3), Stored, None),
    Waits(2, SendBuffer(1, &[20], 4)),
    // The second alternative has the higher priority.
    Did(1, ReceiveBuffer(BOTH, false), Got(1, 2, &[20], 2), Some(2)),
    Goes(2, Stored),
    Did(1, ReceiveBuffer(BOTH, true), Got(0, 1, &[10], 1), None),
    Did(1, ReceiveBuffer(BOTH, true), Otherwise, None),
];

#[test]
fn a_receive_from_two_buffers_takes_the_highest_priority(rt: HostRuntime) -> Result<(), Failure> {
    shows(&rt, rt.alloc(), &[TWO_BUFFERS])
}

const NO_LENGTH: &[Step] = &[
    Did(1, SendBuffer(2, &[1, 2], 0), Stored, None),
    Did(1, SendBuffer(2, &[3, 4], 0), Stored, None),
    Did(1, SendBuffer(2, &[5, 6], 0), Stored, None),
    Did(1, ReceiveBuffer(THIRD, false), Got(0, 1, &[1, 2], 1), None),
    Did(1, ReceiveBuffer(THIRD, false), Got(0, 2, &[3, 4], 1), None),
];

#[test]
fn a_buffer_without_a_length_is_never_full(rt: HostRuntime) -> Result<(), Failure> {
    shows(&rt, rt.alloc(), &[NO_LENGTH])
}
