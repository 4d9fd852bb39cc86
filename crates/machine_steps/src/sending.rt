// Instructions that ask with a list of scalars.
ghost use Rattle.std.specs.Prelude.{◌≡◌, ◌+◌, ◌≤◌, length, slice_get, Some, true, false};
ghost use Rattle.code_types.specs.declared.instr.Instr.TheVariants.{Send, Signal, Start, Write};
ghost use Rattle.machine_steps.specs.Asking.{HasFewSlots};
ghost use Rattle.machine_steps.specs.Rooms.{HasLists, KeepsFrames, StaysUnlessAsked};
ghost use Rattle.machine_steps.specs.Stepping.{IsMade, Steps};

use crate::asking::first_at;
use crate::process::{Doing, Process, Stepped};
use crate::room::Room;
use code_types::Code;
use kernel_base::{Exc, Place, Request};
use machine_frames::numbers::thing_from;

impl Process {
    /// Asks to put scalars into a buffer.
    pub fn send(
        &mut self,
        code: &Code,
        buffer: u32,
        count: u32,
        priority: u32,
        room: &mut Room,
    ) -> Stepped
        requires running { self.old.doing ≡ Doing.Running }
        requires here { slice_get code.now.instrs self.old.top.place ≡ Some (Send buffer count priority) }
        requires found { count ≤ length self.old.top.stack.items }
        requires room { HasLists count room.old }
        ensures steps { Steps code.now self.old self.new result }
        ensures made { IsMade result }
        ensures memory { KeepsFrames self.old self.new }
        ensures few { HasFewSlots self.new.doing }
        ensures room { StaysUnlessAsked result room.old room.new }
    {
        let from = self.top.stack.len() - count as usize;
        let (scalars, copy) = room.scalar_lists(&self.top.stack[from..]);
        let request = Request::SendBuffer {
            buffer,
            scalars,
            priority,
        };
        let kept = Request::SendBuffer {
            buffer,
            scalars: copy,
            priority,
        };
        let slots = Vec::new(*self.regions.allocator());
        self.ask(count as usize, request, kept, slots)
    }

    /// Asks to start a process.
    pub fn start_process(
        &mut self,
        code: &Code,
        process: u32,
        count: u32,
        room: &mut Room,
    ) -> Stepped
        requires running { self.old.doing ≡ Doing.Running }
        requires here { slice_get code.now.instrs self.old.top.place ≡ Some (Start process count) }
        requires found { count ≤ length self.old.top.stack.items }
        requires room { HasLists count room.old }
        ensures steps { Steps code.now self.old self.new result }
        ensures made { IsMade result }
        ensures memory { KeepsFrames self.old self.new }
        ensures few { HasFewSlots self.new.doing }
        ensures room { StaysUnlessAsked result room.old room.new }
    {
        let from = self.top.stack.len() - count as usize;
        let (scalars, copy) = room.scalar_lists(&self.top.stack[from..]);
        let request = Request::Start { process, scalars };
        let kept = Request::Start {
            process,
            scalars: copy,
        };
        let slots = Vec::new(*self.regions.allocator());
        self.ask(count as usize, request, kept, slots)
    }

    /// Asks to write scalars to a shared location, or RANGEFAIL.
    pub fn write(
        &mut self,
        code: &Code,
        location: u32,
        first: u32,
        count: u32,
        room: &mut Room,
    ) -> Stepped
        requires running { self.old.doing ≡ Doing.Running }
        requires here { slice_get code.now.instrs self.old.top.place ≡ Some (Write location first count) }
        requires found { 1 + count ≤ length self.old.top.stack.items }
        requires room { HasLists count room.old }
        ensures steps { Steps code.now self.old self.new result }
        ensures made { IsMade result }
        ensures memory { KeepsFrames self.old self.new }
        ensures few { HasFewSlots self.new.doing }
        ensures room { StaysUnlessAsked result room.old room.new }
    {
        let offset = self.top.lowest(count as usize);
        match first_at(first, offset) {
            Some(at) => {
                let place = Place {
                    location,
                    first: at,
                    count,
                };
                let from = self.top.stack.len() - count as usize;
                let (scalars, copy) = room.scalar_lists(&self.top.stack[from..]);
                let request = Request::Write { place, scalars };
                let kept = Request::Write {
                    place,
                    scalars: copy,
                };
                let slots = Vec::new(*self.regions.allocator());
                self.ask(1 + count as usize, request, kept, slots)
            }
            None => self.throw(Exc::Rangefail),
        }
    }

    /// Asks to send a signal to whoever may receive it.
    pub fn send_to_any(
        &mut self,
        code: &Code,
        signal: u32,
        count: u32,
        priority: u32,
        room: &mut Room,
    ) -> Stepped
        requires running { self.old.doing ≡ Doing.Running }
        requires here { slice_get code.now.instrs self.old.top.place ≡ Some (Signal signal count false priority) }
        requires found { count ≤ length self.old.top.stack.items }
        requires room { HasLists count room.old }
        ensures steps { Steps code.now self.old self.new result }
        ensures made { IsMade result }
        ensures memory { KeepsFrames self.old self.new }
        ensures few { HasFewSlots self.new.doing }
        ensures room { StaysUnlessAsked result room.old room.new }
    {
        let from = self.top.stack.len() - count as usize;
        let (scalars, copy) = room.scalar_lists(&self.top.stack[from..]);
        let request = Request::SendSignal {
            signal,
            scalars,
            to: None,
            priority,
        };
        let kept = Request::SendSignal {
            signal,
            scalars: copy,
            to: None,
            priority,
        };
        let slots = Vec::new(*self.regions.allocator());
        self.ask(count as usize, request, kept, slots)
    }

    /// Asks to send a signal to an instance, or RANGEFAIL.
    pub fn send_to(
        &mut self,
        code: &Code,
        signal: u32,
        count: u32,
        priority: u32,
        room: &mut Room,
    ) -> Stepped
        requires running { self.old.doing ≡ Doing.Running }
        requires here { slice_get code.now.instrs self.old.top.place ≡ Some (Signal signal count true priority) }
        requires found { count + 1 ≤ length self.old.top.stack.items }
        requires room { HasLists count room.old }
        ensures steps { Steps code.now self.old self.new result }
        ensures made { IsMade result }
        ensures memory { KeepsFrames self.old self.new }
        ensures few { HasFewSlots self.new.doing }
        ensures room { StaysUnlessAsked result room.old room.new }
    {
        let receiver = self.top.one();
        match thing_from(receiver) {
            Some(to) => {
                let until = self.top.stack.len() - 1;
                let from = until - count as usize;
                let (scalars, copy) = room.scalar_lists(&self.top.stack[from..until]);
                let request = Request::SendSignal {
                    signal,
                    scalars,
                    to: Some(to),
                    priority,
                };
                let kept = Request::SendSignal {
                    signal,
                    scalars: copy,
                    to: Some(to),
                    priority,
                };
                let slots = Vec::new(*self.regions.allocator());
                self.ask(count as usize + 1, request, kept, slots)
            }
            None => self.throw(Exc::Rangefail),
        }
    }
}
