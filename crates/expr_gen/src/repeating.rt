// Scalars that are pushed, and copies of what stands on top.
#![tactic(auto, using(crate::proofs::Appending::keeping))]

ghost use Rattle.std.specs.Prelude.{◌≡◌, ◌+◌, ◌&&◌, nat_lt, pos, length, OnOk};
ghost use Rattle.code_scheme.specs.Pieces.{capped, run_code, run_ended, run_behind, are_same, scalars_code};
ghost use Rattle.expr_gen.specs.Copies.{copied, turn_code, turn_size, next_there};
ghost use Rattle.expr_gen.specs.Putting.{Appends, Keeps};
ghost use Rattle.expr_gen.specs.Puts.{PutsAll, PutsCopies, PutsTurn, PutsEnded};

use crate::building::{Draft, uncapped};
use crate::refusal::PartRefusal;
use code_types::Instr;

// A scalar, and how often it stands one behind the other.
#[derive(Clone, Copy)]
struct Run {
    scalar: i64,
    count: u32,
}

impl Run {
    // No scalar at all.
    fn none() -> Run
        ensures scalar { result.scalar ≡ pos 0 }
        ensures count { result.count ≡ 0 }
    {
        Run {
            scalar: 0,
            count: 0,
        }
    }

    // Whether a scalar goes on with the run.
    fn has(self, scalar: i64) -> bool
        ensures { result ≡ (nat_lt 0 self.count && are_same self.scalar scalar) }
    {
        self.count > 0 && self.scalar == scalar
    }

    // The run with its scalar once more, or a new one of another scalar.
    fn with(self, scalar: i64) -> Run
        ensures scalar { result.scalar ≡ scalar }
        ensures count { result.count ≡ capped (run_behind self.scalar self.count scalar) }
    {
        let count = if self.has(scalar) { self.count } else { 0 };
        Run {
            scalar,
            count: count.saturating_add(1),
        }
    }
}

/// Each of these scalars, in order. Of equal ones behind each other the first is pushed and the others are copied.
pub fn put_scalars(scalars: &[i64], draft: &mut Draft) -> Result<(), PartRefusal>
    ensures puts { OnOk result (PutsAll (scalars_code scalars.now) draft.old draft.new) }
    ensures keeps { Keeps draft.old.code draft.new.code }
{
    let mut run = Run::none();
    for scalar in scalars {
        put_ended(run, *scalar, draft)?;
        run = run.with(*scalar);
        uncapped(run.count)?;
    }
    put_run(run, draft)
}

// A run that a scalar ends: one of another scalar.
fn put_ended(run: Run, scalar: i64, draft: &mut Draft) -> Result<(), PartRefusal>
    ensures puts { OnOk result (PutsEnded run.scalar run.count scalar draft.old draft.new) }
    ensures keeps { Keeps draft.old.code draft.new.code }
{
    if run.has(scalar) {
        Ok(())
    } else {
        put_run(run, draft)
    }
}

// A scalar as often as it stands there.
fn put_run(run: Run, draft: &mut Draft) -> Result<(), PartRefusal>
    ensures puts { OnOk result (PutsAll (run_code run.scalar run.count) draft.old draft.new) }
    ensures keeps { Keeps draft.old.code draft.new.code }
{
    if run.count == 0 {
        return Ok(());
    }
    draft.put(Instr::Push(run.scalar))?;
    put_copies(run.count, 1, draft)
}

/// How many instructions push these scalars.
pub fn scalars_size(scalars: &[i64]) -> u32
    ensures { result ≡ capped (length (scalars_code scalars.now)) }
{
    let mut run = Run::none();
    let mut size = 0u32;
    for scalar in scalars {
        size = size.saturating_add(ended_size(run, *scalar));
        run = run.with(*scalar);
    }
    size.saturating_add(run_size(run))
}

// How many instructions a run has that a scalar ends.
fn ended_size(run: Run, scalar: i64) -> u32
    ensures { result ≡ length (run_ended run.scalar run.count scalar) }
{
    if run.has(scalar) { 0 } else { run_size(run) }
}

// How many instructions push a scalar as often as it stands there.
fn run_size(run: Run) -> u32
    ensures { result ≡ length (run_code run.scalar run.count) }
{
    if run.count == 0 {
        0
    } else {
        copies_size(run.count).saturating_add(1)
    }
}

/// Copies of the value on top, until there are so many of it. Each time as many are copied as are there, or as are
/// wanting.
pub fn put_copies(elements: u32, count: u32, draft: &mut Draft) -> Result<(), PartRefusal>
    ensures puts { OnOk result (PutsCopies elements count draft.old draft.new) }
    ensures keeps { Keeps draft.old.code draft.new.code }
{
    let mut there = 1u32;
    for _turn in 0..32u32 {
        put_turn(there, elements, count, draft)?;
        there = next_there(there, elements);
    }
    Ok(())
}

// One turn of copies of a value of so many scalars.
fn put_turn(there: u32, elements: u32, count: u32, draft: &mut Draft) -> Result<(), PartRefusal>
    ensures puts { OnOk result (PutsTurn there elements count draft.old draft.new) }
    ensures keeps { Keeps draft.old.code draft.new.code }
{
    if there >= elements {
        return Ok(());
    }
    let more = there.min(elements - there);
    draft.put(Instr::Copy(uncapped(more.saturating_mul(count))?))
}

// How many of a value are there behind a turn.
fn next_there(there: u32, elements: u32) -> u32
    ensures { result ≡ next_there there elements }
{
    if there < elements {
        there.saturating_add(there.min(elements - there))
    } else {
        there
    }
}

// How many instructions one turn has.
fn turn_size(there: u32, elements: u32) -> u32
    ensures { result ≡ turn_size there elements }
{
    if there < elements { 1 } else { 0 }
}

/// How many instructions copy a value until there are so many of it.
pub fn copies_size(elements: u32) -> u32
    ensures { result ≡ length (copied elements 0) }
{
    let mut there = 1u32;
    let mut size = 0u32;
    for _turn in 0..32u32 {
        size = size.saturating_add(turn_size(there, elements));
        there = next_there(there, elements);
    }
    size
}
