// Instructions that put bytes into the output.
ghost use Rattle.std.specs.Prelude.{◌≡◌, ◌≤◌, length, slice_get, Some};
ghost use Rattle.code_types.specs.declared.instr.Instr.TheVariants.{PutInt, PutLine, PutText};
ghost use Rattle.machine_steps.specs.Asking.{HasFewSlots};
ghost use Rattle.machine_steps.specs.Rooms.{HasLists, KeepsFrames, StaysUnlessAsked};
ghost use Rattle.machine_steps.specs.Stepping.{IsMade, Steps};

use crate::process::{Doing, Process, Stepped};
use crate::room::Room;
use code_types::Code;
use itoa::Buffer;
use kernel_base::{Exc, Request};

impl Process {
    /// Asks to put a line feed.
    pub fn put_line(&mut self, code: &Code, room: &mut Room) -> Stepped
        requires running { self.old.doing ≡ Doing.Running }
        requires here { slice_get code.now.instrs self.old.top.place ≡ Some PutLine }
        requires room { HasLists 0 room.old }
        ensures steps { Steps code.now self.old self.new result }
        ensures made { IsMade result }
        ensures memory { KeepsFrames self.old self.new }
        ensures few { HasFewSlots self.new.doing }
        ensures room { StaysUnlessAsked result room.old room.new }
    {
        let (bytes, copy) = room.byte_lists(b"\n");
        let slots = Vec::new(*self.regions.allocator());
        self.ask(
            0,
            Request::Put { bytes },
            Request::Put { bytes: copy },
            slots,
        )
    }

    /// Asks to put a number in decimal.
    pub fn put_number(&mut self, code: &Code, room: &mut Room) -> Stepped
        requires running { self.old.doing ≡ Doing.Running }
        requires here { slice_get code.now.instrs self.old.top.place ≡ Some PutInt }
        requires found { 1 ≤ length self.old.top.stack.items }
        requires room { HasLists 0 room.old }
        ensures steps { Steps code.now self.old self.new result }
        ensures made { IsMade result }
        ensures memory { KeepsFrames self.old self.new }
        ensures few { HasFewSlots self.new.doing }
        ensures room { StaysUnlessAsked result room.old room.new }
    {
        let number = self.top.one();
        let mut digits = Buffer::new();
        let (bytes, copy) = room.byte_lists(digits.format(number).as_bytes());
        let slots = Vec::new(*self.regions.allocator());
        self.ask(
            1,
            Request::Put { bytes },
            Request::Put { bytes: copy },
            slots,
        )
    }

    /// Asks to put bytes, or RANGEFAIL.
    pub fn put_text(&mut self, code: &Code, count: u32, room: &mut Room) -> Stepped
        requires running { self.old.doing ≡ Doing.Running }
        requires here { slice_get code.now.instrs self.old.top.place ≡ Some (PutText count) }
        requires found { count ≤ length self.old.top.stack.items }
        requires room { HasLists count room.old }
        ensures steps { Steps code.now self.old self.new result }
        ensures made { IsMade result }
        ensures memory { KeepsFrames self.old self.new }
        ensures few { HasFewSlots self.new.doing }
        ensures room { StaysUnlessAsked result room.old room.new }
    {
        let from = self.top.stack.len() - count as usize;
        match room.byte_lists_from(&self.top.stack[from..]) {
            Some((bytes, copy)) => {
                let slots = Vec::new(*self.regions.allocator());
                self.ask(
                    count as usize,
                    Request::Put { bytes },
                    Request::Put { bytes: copy },
                    slots,
                )
            }
            None => self.throw(Exc::Rangefail),
        }
    }
}
