// Whether the numbers of what is sent and received are in range.
ghost use Rattle.std.specs.Prelude.{◌≡◌, None, map, option_map, slice_get};
ghost use Rattle.program_ranges.specs.Around.{is_count, local_count};
ghost use Rattle.program_ranges.specs.ExprRanges.{received_ranges};
ghost use Rattle.program_ranges.specs.Messages.{part_count, signal_part, parts_of, same_count, parts_received, begins_at, behind, locals_follow, parts_sent, sent_in_range, is_part};

use crate::around::{buffer_count, is_count};
use crate::exprs::{received_count, received_in_range, some_number};
use checked_program::{Body, Checked, Received, Sent};
use modes::number_of_scalars;

/// What a RECEIVE CASE receives from.
#[derive(Clone, Copy)]
pub(crate) enum Source {
    Buffers,
    Signals,
}

// How many scalars the part of this number has of what comes from a buffer or by a signal. What a buffer gives is one part.
fn part_count(source: Source, number: u32, part: usize, program: &Checked) -> Option<u32>
    ensures { result ≡ part_count source number part program.now }
{
    match source {
        Source::Buffers => {
            if part == 0 {
                buffer_count(number, program)
            } else {
                None
            }
        }
        Source::Signals => signal_part(number, part, program),
    }
}

// How many scalars the part of this number of a signal has.
fn signal_part(number: u32, part: usize, program: &Checked) -> Option<u32>
    ensures { result ≡ signal_part (slice_get program.now.signals number) part }
{
    match program.signals.as_slice().get(number as usize) {
        Some(row) => match row.parts.as_slice().get(part) {
            Some(mode) => Some(number_of_scalars(mode)),
            None => None,
        },
        None => None,
    }
}

// Whether so many parts come from the buffer or by the signal of this number.
fn has_parts(source: Source, number: u32, parts: usize, program: &Checked) -> bool
    ensures { result ≡ is_count (parts_of source number program.now) parts }
{
    match source {
        Source::Buffers => match program.buffers.as_slice().get(number as usize) {
            Some(_) => parts == 1,
            None => false,
        },
        Source::Signals => match program.signals.as_slice().get(number as usize) {
            Some(row) => parts == row.parts.len(),
            None => false,
        },
    }
}

/// Whether there is a local for each part of what comes from the buffer or by the signal of this number.
pub(crate) fn parts_received(
    source: Source,
    number: u32,
    received: &[u32],
    program: &Checked,
    body: &Body,
) -> bool
    ensures { result ≡ parts_received source number 0 received.now program.now body.now }
{
    for (part, local) in received.iter().enumerate() {
        if !same_count(
            local_count(*local, body),
            part_count(source, number, part, program),
        ) {
            return false;
        }
    }
    has_parts(source, number, received.len(), program)
}

// How many scalars the local of this number has, where it is there.
fn local_count(local: u32, body: &Body) -> Option<u32>
    ensures { result ≡ local_count (slice_get body.now.locals local) }
{
    match body.locals.as_slice().get(local as usize) {
        Some(row) => Some(row.count),
        None => None,
    }
}

// Whether both are there and equal.
fn same_count(one: Option<u32>, other: Option<u32>) -> bool
    ensures { result ≡ same_count one other }
{
    match one {
        Some(count) => is_count(other, count),
        None => false,
    }
}

/// Whether the locals follow each other.
pub(crate) fn locals_follow(locals: &[u32], body: &Body) -> bool
    ensures { result ≡ locals_follow None locals.now body.now }
{
    let mut first = None;
    for local in locals {
        if !begins_at(first, *local, body) {
            return false;
        }
        first = behind(*local, body);
    }
    true
}

// Whether the first scalar of a local is this one, where one is told.
fn begins_at(first: Option<u64>, local: u32, body: &Body) -> bool
    ensures { result ≡ begins_at first (slice_get body.now.locals local) }
{
    match first {
        Some(first) => match body.locals.as_slice().get(local as usize) {
            Some(row) => row.first as u64 == first,
            None => false,
        },
        None => true,
    }
}

// The number of the scalar behind a local.
fn behind(local: u32, body: &Body) -> Option<u64>
    ensures { result ≡ behind (slice_get body.now.locals local) }
{
    match body.locals.as_slice().get(local as usize) {
        Some(row) => Some(row.first as u64 + row.count as u64),
        None => None,
    }
}

/// Whether the numbers in what is sent are in range.
pub(crate) fn sent_in_range(sent: &Sent, program: &Checked, body: &Body) -> bool
    ensures { result ≡ sent_in_range sent.now program.now body.now }
{
    match sent {
        Sent::ToBuffer { buffer, value } => {
            received_in_range(value, program, body)
                && is_count(buffer_count(*buffer, program), received_count(value))
        }
        Sent::Signal {
            signal,
            parts,
            receiver,
        } => {
            parts_sent(*signal, parts.as_slice(), program, body)
                && some_number(receiver, program, body)
        }
    }
}

// Whether there is a value for each part of the signal of this number.
fn parts_sent(signal: u32, values: &[Received], program: &Checked, body: &Body) -> bool
    ensures { result ≡ parts_sent signal 0 (map received_ranges values.now) program.now body.now }
{
    for (part, value) in values.iter().enumerate() {
        if !is_part(signal, part, value, program, body) {
            return false;
        }
    }
    has_parts(Source::Signals, signal, values.len(), program)
}

// Whether a value is one for the part of this number of a signal.
fn is_part(signal: u32, part: usize, value: &Received, program: &Checked, body: &Body) -> bool
    ensures { result ≡ is_part signal part (received_ranges value.now) program.now body.now }
{
    received_in_range(value, program, body)
        && is_count(signal_part(signal, part, program), received_count(value))
}
