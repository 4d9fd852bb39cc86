// Calls.
ghost use Rattle.std.specs.Prelude.{◌≡◌, ◌<◌, ◌≤◌, IfSome, length, slice_get, Some, vec_capacity};
ghost use Rattle.code_types.specs.declared.instr.Instr.TheVariants.{Call};
ghost use Rattle.code_types.specs.Places.{params_of};
ghost use Rattle.code_types.specs.Steps.{new_frame};
ghost use Rattle.machine_frames.specs.Frames.{KeepsRoom, frame_of};
ghost use Rattle.machine_steps.specs.Asking.{HasFewSlots};
ghost use Rattle.machine_steps.specs.Rooms.{HasRoomFor, IsPushed, KeepsFrames, StaysRoomy};
ghost use Rattle.machine_steps.specs.Stepping.{IsMade, Steps};

use crate::process::{Doing, Process, Stepped};
use code_types::{BodyRow, Code};
use kernel_base::Exc;
use machine_frames::Activation;
use std::mem::replace;

// The most frames of a process.
const MOST_FRAMES: usize = 250;

/// Makes a frame begin a body, whose first locals are the arguments and whose others are 0.
pub fn begin(frame: &mut Activation, body: u32, row: &BodyRow, arguments: &[i64])
    requires fits { length arguments.now ≤ row.now.locals }
    requires room { row.now.locals ≤ vec_capacity frame.old.locals }
    ensures begins { frame_of frame.new ≡ new_frame body row.now arguments.now }
    ensures room { KeepsRoom frame.old frame.new }
{
    frame.body = body;
    frame.place = row.first as usize;
    frame.stack.clear();
    frame.locals.clear();
    frame.locals.extend_from_slice(arguments).unwrap();
    frame.locals.resize(row.locals as usize, 0).unwrap();
}

impl Process {
    /// Makes the tick of a call, or raises SPACEFAIL where there are frames enough.
    pub fn call(&mut self, code: &Code, callee: u32) -> Stepped
        requires running { self.old.doing ≡ Doing.Running }
        requires here { slice_get code.now.instrs self.old.top.place ≡ Some (Call callee) }
        requires found { params_of (slice_get code.now.bodies callee) ≤ length self.old.top.stack.items }
        ensures steps { Steps code.now self.old self.new result }
        ensures made { IsMade result }
        ensures memory { KeepsFrames self.old self.new }
        ensures few { HasFewSlots self.new.doing }
    {
        let few = self.below.len() + 1 < MOST_FRAMES;
        if few {
            self.doing = Doing::Called;
            Stepped::Ticks
        } else {
            self.doing = Doing::Raising(Exc::Spacefail);
            Stepped::GoesOn
        }
    }

    // Makes the frame of a call whose tick is made: its parameters leave the caller's stack. `frame` is one that isn't in
    // use.
    fn enter_with(&mut self, code: &Code, callee: u32, mut frame: Activation) -> Stepped
        requires called { self.old.doing ≡ Doing.Called }
        requires here { slice_get code.now.instrs self.old.top.place ≡ Some (Call callee) }
        requires there { callee < length code.now.bodies }
        requires found { params_of (slice_get code.now.bodies callee) ≤ length self.old.top.stack.items }
        requires holds { IfSome (slice_get code.now.bodies callee) (λ row. (row.params ≤ row.locals) × (row.locals ≤ vec_capacity frame.locals)) }
        requires room { length self.old.below.items < vec_capacity self.old.below }
        ensures steps { Steps code.now self.old self.new result }
        ensures made { IsMade result }
        ensures frames { IsPushed frame self.old self.new }
        ensures few { HasFewSlots self.new.doing }
    {
        let row = code.bodies.at(callee as usize);
        let height = self.top.stack.len() - row.params as usize;
        begin(&mut frame, callee, row, &self.top.stack[height..]);
        self.top.stack.truncate(height);
        let caller = replace(&mut self.top, frame);
        self.below.push(caller).unwrap();
        self.doing = Doing::Running;
        Stepped::GoesOn
    }

    /// Makes the frame of a call whose tick is made: its parameters leave the caller's stack.
    pub fn enter(&mut self, code: &Code, callee: u32) -> Stepped
        requires called { self.old.doing ≡ Doing.Called }
        requires here { slice_get code.now.instrs self.old.top.place ≡ Some (Call callee) }
        requires there { callee < length code.now.bodies }
        requires found { params_of (slice_get code.now.bodies callee) ≤ length self.old.top.stack.items }
        requires holds { IfSome (slice_get code.now.bodies callee) (λ row. row.params ≤ row.locals) }
        requires few { length self.old.below.items < 249 }
        requires room { HasRoomFor code.now self.old }
        ensures steps { Steps code.now self.old self.new result }
        ensures made { IsMade result }
        ensures memory { StaysRoomy self.old self.new }
        ensures few { HasFewSlots self.new.doing }
    {
        match self.spare.pop() {
            Some(frame) => self.enter_with(code, callee, frame),
            None => unreachable!(),
        }
    }
}
