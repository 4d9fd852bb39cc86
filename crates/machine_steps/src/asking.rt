// How a request is asked, and the instructions that ask one without a list. Where a list is asked the process keeps its own
// copy, for the answer.
ghost use Rattle.std.specs.Prelude.{◌≡◌, ◌^◌, ◌<◌, ◌≤◌, ◌+ℤ◌, length, map, pos, slice_get, Some};
ghost use Rattle.code_types.specs.declared.instr.Instr.TheVariants.{Continue, Finish, GetInt, Read, Stop};
ghost use Rattle.code_types.specs.Operands.{number_in};
ghost use Rattle.machine_steps.specs.Asking.{AsksNext, HasFewSlots};
ghost use Rattle.machine_steps.specs.Rooms.{KeepsFrames};
ghost use Rattle.machine_steps.specs.Stepping.{IsMade, Steps};
ghost use Rattle.machine_steps.specs.Views.{slot_of};

use crate::process::{Doing, Process, SlotEntry, Stepped};
use code_types::Code;
use kernel_base::{Exc, How, Place, Request};
use machine_frames::numbers::thing_from;

/// The scalar from which on an access reaches; none where that is no number of 32 bits.
pub fn first_at(first: u32, offset: i64) -> Option<u32>
    ensures { result ≡ number_in (pos first +ℤ offset) }
{
    match offset.checked_add(first as i64) {
        Some(at) => thing_from(at),
        None => None,
    }
}

impl Process {
    /// Takes so many numbers off the stack, and asks. `kept` is the process's copy of the request.
    pub fn ask(
        &mut self,
        found: usize,
        request: Request,
        kept: Request,
        slots: Vec<SlotEntry>,
    ) -> Stepped
        requires there { found ≤ length self.old.top.stack.items }
        requires same { kept ≡ request }
        requires few { length slots.items < 2 ^ 32 }
        ensures asks { AsksNext found request (map slot_of slots.items) self.old self.new result }
        ensures memory { KeepsFrames self.old self.new }
        ensures few { HasFewSlots self.new.doing }
    {
        let height = self.top.stack.len() - found;
        self.top.stack.truncate(height);
        self.doing = Doing::Asking {
            request: kept,
            slots,
        };
        Stepped::Asks(request)
    }

    /// Raises an exception where the frame stands.
    pub fn throw(&mut self, exception: Exc) -> Stepped
        ensures process { self.new ≡ record self.old { doing = Doing.Raising exception } }
        ensures stepped { result ≡ Stepped.GoesOn }
    {
        self.doing = Doing::Raising(exception);
        Stepped::GoesOn
    }

    /// Asks to let one process go on.
    pub fn continue_one(&mut self, code: &Code, event: u32) -> Stepped
        requires running { self.old.doing ≡ Doing.Running }
        requires here { slice_get code.now.instrs self.old.top.place ≡ Some (Continue event) }
        ensures steps { Steps code.now self.old self.new result }
        ensures made { IsMade result }
        ensures memory { KeepsFrames self.old self.new }
        ensures few { HasFewSlots self.new.doing }
    {
        let slots = Vec::new(*self.regions.allocator());
        self.ask(
            0,
            Request::Continue { event },
            Request::Continue { event },
            slots,
        )
    }

    /// Asks for the next number of the input.
    pub fn get_number(&mut self, code: &Code) -> Stepped
        requires running { self.old.doing ≡ Doing.Running }
        requires here { slice_get code.now.instrs self.old.top.place ≡ Some GetInt }
        ensures steps { Steps code.now self.old self.new result }
        ensures made { IsMade result }
        ensures memory { KeepsFrames self.old self.new }
        ensures few { HasFewSlots self.new.doing }
    {
        let slots = Vec::new(*self.regions.allocator());
        self.ask(0, Request::Get, Request::Get, slots)
    }

    /// Asks to end by STOP.
    pub fn stop(&mut self, code: &Code) -> Stepped
        requires running { self.old.doing ≡ Doing.Running }
        requires here { slice_get code.now.instrs self.old.top.place ≡ Some Stop }
        ensures steps { Steps code.now self.old self.new result }
        ensures made { IsMade result }
        ensures memory { KeepsFrames self.old self.new }
        ensures few { HasFewSlots self.new.doing }
    {
        let slots = Vec::new(*self.regions.allocator());
        self.ask(
            0,
            Request::End { how: How::Stopped },
            Request::End { how: How::Stopped },
            slots,
        )
    }

    /// Asks to end normally.
    pub fn finish(&mut self, code: &Code) -> Stepped
        requires running { self.old.doing ≡ Doing.Running }
        requires here { slice_get code.now.instrs self.old.top.place ≡ Some Finish }
        ensures steps { Steps code.now self.old self.new result }
        ensures made { IsMade result }
        ensures memory { KeepsFrames self.old self.new }
        ensures few { HasFewSlots self.new.doing }
    {
        let slots = Vec::new(*self.regions.allocator());
        self.ask(
            0,
            Request::End { how: How::Normal },
            Request::End { how: How::Normal },
            slots,
        )
    }

    /// Asks for scalars of a shared location, or RANGEFAIL.
    pub fn read(&mut self, code: &Code, location: u32, first: u32, count: u32) -> Stepped
        requires running { self.old.doing ≡ Doing.Running }
        requires here { slice_get code.now.instrs self.old.top.place ≡ Some (Read location first count) }
        requires found { 1 ≤ length self.old.top.stack.items }
        ensures steps { Steps code.now self.old self.new result }
        ensures made { IsMade result }
        ensures memory { KeepsFrames self.old self.new }
        ensures few { HasFewSlots self.new.doing }
    {
        let offset = self.top.one();
        match first_at(first, offset) {
            Some(at) => {
                let place = Place {
                    location,
                    first: at,
                    count,
                };
                let slots = Vec::new(*self.regions.allocator());
                self.ask(1, Request::Read { place }, Request::Read { place }, slots)
            }
            None => self.throw(Exc::Rangefail),
        }
    }
}
