// How a process comes to its end, and what leaves a frame.
ghost use Rattle.std.specs.Prelude.{◌≡◌, ◌+◌, ◌<◌, ◌≤◌, length, slice_get, None, Some, vec_capacity};
ghost use Rattle.code_types.specs.declared.instr.Instr.TheVariants.{Return};
ghost use Rattle.code_types.specs.Places.{results_of, taker};
ghost use Rattle.machine_steps.specs.Asking.{HasFewSlots};
ghost use Rattle.machine_steps.specs.Ending.{CanReturn, EndsBy, IsGoing};
ghost use Rattle.machine_steps.specs.Rooms.{KeepsFrames, StaysRoomy};
ghost use Rattle.machine_steps.specs.Stepping.{IsMade, Steps};

use crate::process::{Doing, Process, Stepped};
use crate::raising::is_named;
use code_types::Code;
use kernel_base::{Exc, How, Request};
use std::mem::replace;

impl Process {
    /// Asks to end.
    pub fn end(&mut self, how: How) -> Stepped
        requires { IsGoing self.old.doing }
        ensures ends { EndsBy how self.old self.new result }
        ensures memory { KeepsFrames self.old self.new }
        ensures few { HasFewSlots self.new.doing }
    {
        self.doing = Doing::Asking {
            request: Request::End { how },
            slots: Vec::new(*self.regions.allocator()),
        };
        Stepped::Asks(Request::End { how })
    }

    /// Raises the exception at the call of the frame, where its body lists it; elsewhere the process asks to end.
    pub fn unwind(&mut self, code: &Code, exception: Exc) -> Stepped
        requires raising { self.old.doing ≡ Doing.Raising exception }
        requires untaken { taker code.now.handlers self.old.top.place exception ≡ None }
        requires there { self.old.top.body < length code.now.bodies }
        requires room { length self.old.below.items + length self.old.spare.items ≤ vec_capacity self.old.spare }
        ensures steps { Steps code.now self.old self.new result }
        ensures made { IsMade result }
        ensures memory { StaysRoomy self.old self.new }
        ensures few { HasFewSlots self.new.doing }
    {
        let row = code.bodies.at(self.top.body as usize);
        if !is_named(row.listed.as_slice(), exception) {
            return self.end(How::Raised(exception));
        }
        match self.below.pop() {
            Some(caller) => {
                let left = replace(&mut self.top, caller);
                self.spare.push(left).unwrap();
                Stepped::GoesOn
            }
            None => self.end(How::Raised(exception)),
        }
    }

    /// Leaves the frame: its results go to the caller's stack, or the process asks to end.
    pub fn leave(&mut self, code: &Code, results: u32) -> Stepped
        requires running { self.old.doing ≡ Doing.Running }
        requires here { slice_get code.now.instrs self.old.top.place ≡ Some Return }
        requires count { results_of (slice_get code.now.bodies self.old.top.body) ≡ results }
        requires found { results ≤ length self.old.top.stack.items }
        requires room { CanReturn results self.old.below.items }
        requires spare { length self.old.below.items + length self.old.spare.items ≤ vec_capacity self.old.spare }
        ensures steps { Steps code.now self.old self.new result }
        ensures made { IsMade result }
        ensures memory { StaysRoomy self.old self.new }
        ensures few { HasFewSlots self.new.doing }
    {
        match self.below.pop() {
            Some(mut caller) => {
                let from = self.top.stack.len() - results as usize;
                caller
                    .stack
                    .extend_from_slice(&self.top.stack[from..])
                    .unwrap();
                caller.place += 1;
                let left = replace(&mut self.top, caller);
                self.spare.push(left).unwrap();
                Stepped::GoesOn
            }
            None => self.end(How::Normal),
        }
    }
}
