// Starts of processes, with the memory of all frames.
ghost use Rattle.std.specs.Prelude.{◌≡◌, ◌↔◌, ◌≤◌, All, IfOk, IsTrue, IsSomeAnd, length, slice_get, Some, vec_capacity, ◌∷◌, []};
ghost use Rattle.code_types.specs.State.{Running};
ghost use Rattle.machine_frames.specs.Frames.{frame_of};
ghost use Rattle.code_types.specs.Talk.{start_of};
ghost use Rattle.machine_steps.specs.Rooms.{HasRoom, HasRoomFor, IsRoomy};
ghost use Rattle.machine_steps.specs.Views.{state_of};

use crate::calls::begin;
use crate::process::{Doing, Process};
use chill_base::{Memory, Scalars};
use code_guard::Guarded;
use code_types::Code;
use machine_frames::Activation;
use std::alloc::Global;

// The most frames below the innermost one.
const MOST_BELOW: usize = 249;

/// The greatest height that the code's bodies have.
pub fn greatest_height(code: &Code) -> u32
    ensures { All (λ row. row.height ≤ result) code.now.bodies }
{
    let mut greatest = 0;
    for row in code.bodies.as_slice() {
        if greatest < row.height {
            greatest = row.height;
        }
    }
    greatest
}

// The greatest number of locals that the code's bodies have.
fn greatest_locals(code: &Code) -> u32
    ensures { All (λ row. row.locals ≤ result) code.now.bodies }
{
    let mut greatest = 0;
    for row in code.bodies.as_slice() {
        if greatest < row.locals {
            greatest = row.locals;
        }
    }
    greatest
}

// A frame that isn't in use, with room for so many numbers and locals.
fn free_frame(alloc: Global, height: usize, locals: usize) -> Result<Activation, Memory>
    ensures { IfOk result (HasRoom height locals) }
{
    let stack = Vec::with_capacity(alloc, height)?;
    let locals = Vec::with_capacity(alloc, locals)?;
    Ok(Activation {
        body: 0,
        place: 0,
        stack,
        locals,
    })
}

// So many frames that aren't in use.
fn free_frames(
    alloc: Global,
    count: usize,
    height: usize,
    locals: usize,
) -> Result<Vec<Activation>, Memory>
    ensures room { IfOk result (λ frames. All (HasRoom height locals) frames.items) }
    ensures count { IfOk result (λ frames. length frames.items ≡ count) }
    ensures unused { IfOk result (λ frames. count ≤ vec_capacity frames) }
{
    let mut frames = Vec::with_capacity(alloc, count)?;
    'places: for _ in 0..count {
        frames.push(free_frame(alloc, height, locals)?)?;
    }
    Ok(frames)
}

// The process of an innermost frame and the memory of the others.
fn process_of(
    alloc: Global,
    instance: u32,
    top: Activation,
    height: usize,
    locals: usize,
) -> Result<Process, Memory>
    requires { HasRoom height locals top }
    ensures state { IfOk result (λ p. state_of p ≡ record { instance = instance; frames = frame_of top ∷ []; regions = []; mode = Running }) }
    ensures room { IfOk result (IsRoomy height locals) }
    ensures running { IfOk result (λ p. p.doing ≡ Doing.Running) }
{
    let spare = free_frames(alloc, MOST_BELOW, height, locals)?;
    let below = Vec::with_capacity(alloc, MOST_BELOW)?;
    Ok(Process {
        instance,
        top,
        below,
        spare,
        regions: Vec::new(alloc),
        doing: Doing::Running,
    })
}

impl Process {
    /// Whether the process is a body of the code that has as many parameters as there are scalars.
    pub fn can_start(guarded: &Guarded, process: u32, scalars: &Scalars) -> bool
        ensures { IsTrue result ↔ IsSomeAnd (slice_get guarded.now.bodies process) (λ row. row.params ≡ length scalars.now) }
    {
        let code = guarded.code();
        (process as usize) < code.bodies.len()
            && code.bodies.at(process as usize).params as usize == scalars.len()
    }

    /// A process of the code at the first instruction of its body. It takes the memory of all 250 frames, each with room for
    /// the highest stack and the most locals of the code's bodies.
    pub fn start(
        alloc: Global,
        guarded: &Guarded,
        instance: u32,
        process: u32,
        scalars: Scalars,
    ) -> Result<Process, Memory>
        requires { IsSomeAnd (slice_get guarded.now.bodies process) (λ row. row.params ≡ length scalars) }
        ensures starts { IfOk result (λ p. start_of guarded.now instance process scalars ≡ Some (state_of p)) }
        ensures room { IfOk result (λ p. HasRoomFor guarded.now p) }
        ensures running { IfOk result (λ p. p.doing ≡ Doing.Running) }
    {
        let code = guarded.code();
        let height = greatest_height(code) as usize;
        let locals = greatest_locals(code) as usize;
        let mut top = free_frame(alloc, height, locals)?;
        begin(
            &mut top,
            process,
            code.bodies.at(process as usize),
            scalars.as_slice(),
        );
        process_of(alloc, instance, top, height, locals)
    }
}
