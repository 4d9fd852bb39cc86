// Instructions that ask with a list of alternatives.
ghost use Rattle.std.specs.Prelude.{◌≡◌, ℕ, ◌*◌, ◌^◌, ◌<◌, ◌≤◌, IfNone, MatchOption, None, Some, length, map, slice_get};
ghost use Rattle.code_types.specs.declared.instr.Instr.TheVariants.{Delay, Hear, Take};
ghost use Rattle.code_types.specs.Operands.{topmost, triples_of};
ghost use Rattle.machine_steps.specs.Asking.{HasFewSlots};
ghost use Rattle.machine_steps.specs.Rooms.{HasLists, KeepsFrames, StaysUnlessAsked};
ghost use Rattle.machine_steps.specs.Stepping.{IsMade, Steps};
ghost use Rattle.machine_steps.specs.Views.{slot_of};

use crate::process::{Doing, Process, SlotEntry, Stepped};
use crate::room::Room;
use code_types::Code;
use kernel_base::{Alternatives, Exc, Request};

impl Process {
    /// Asks to wait for one of some events, or RANGEFAIL.
    pub fn delay(&mut self, code: &Code, count: u32, priority: u32, room: &mut Room) -> Stepped
        requires running { self.old.doing ≡ Doing.Running }
        requires here { slice_get code.now.instrs self.old.top.place ≡ Some (Delay count priority) }
        requires found { 2 * count ≤ length self.old.top.stack.items }
        requires room { HasLists count room.old }
        ensures steps { Steps code.now self.old self.new result }
        ensures made { IsMade result }
        ensures memory { KeepsFrames self.old self.new }
        ensures few { HasFewSlots self.new.doing }
        ensures room { StaysUnlessAsked result room.old room.new }
    {
        let pairs = count as usize;
        let from = self.top.stack.len() - 2 * pairs;
        match room.event_lists(&self.top.stack[from..], pairs) {
            Some((events, copy)) => {
                let request = Request::Delay { events, priority };
                let kept = Request::Delay {
                    events: copy,
                    priority,
                };
                let slots = Vec::new(*self.regions.allocator());
                self.ask(2 * pairs, request, kept, slots)
            }
            None => self.throw(Exc::Rangefail),
        }
    }

    // The alternatives that the topmost triples tell, twice, and their slots.
    fn triples(
        &self,
        count: u32,
        room: &mut Room,
    ) -> Option<(Alternatives, Alternatives, Vec<SlotEntry>)>
        requires found { 3 * count ≤ length self.now.top.stack.items }
        requires room { HasLists count room.old }
        ensures told { MatchOption result (triples_of (length self.now.top.locals.items) 0 (topmost (3 * count) self.now.top.stack.items) ≡ None) (λ told. (triples_of (length self.now.top.locals.items) 0 (topmost (3 * count) self.now.top.stack.items) ≡ Some (record { things = told.0; slots = map slot_of told.2.items })) × (told.1 ≡ told.0) × (length told.2.items < 2 ^ 32)) }
        ensures room { IfNone result ((most : ℕ) → HasLists most room.old → HasLists most room.new) }
    {
        let from = self.top.stack.len() - 3 * count as usize;
        room.thing_lists(self.top.locals.len(), &self.top.stack[from..], count)
    }

    /// Asks to take a value from one of some buffers, or RANGEFAIL.
    pub fn take_one(&mut self, code: &Code, count: u32, otherwise: bool, room: &mut Room) -> Stepped
        requires running { self.old.doing ≡ Doing.Running }
        requires here { slice_get code.now.instrs self.old.top.place ≡ Some (Take count otherwise) }
        requires found { 3 * count ≤ length self.old.top.stack.items }
        requires room { HasLists count room.old }
        ensures steps { Steps code.now self.old self.new result }
        ensures made { IsMade result }
        ensures memory { KeepsFrames self.old self.new }
        ensures few { HasFewSlots self.new.doing }
        ensures room { StaysUnlessAsked result room.old room.new }
    {
        match self.triples(count, room) {
            Some((buffers, copy, slots)) => {
                let request = Request::ReceiveBuffer { buffers, otherwise };
                let kept = Request::ReceiveBuffer {
                    buffers: copy,
                    otherwise,
                };
                self.ask(3 * count as usize, request, kept, slots)
            }
            None => self.throw(Exc::Rangefail),
        }
    }

    /// Asks to take one of some signals, or RANGEFAIL.
    pub fn hear(&mut self, code: &Code, count: u32, otherwise: bool, room: &mut Room) -> Stepped
        requires running { self.old.doing ≡ Doing.Running }
        requires here { slice_get code.now.instrs self.old.top.place ≡ Some (Hear count otherwise) }
        requires found { 3 * count ≤ length self.old.top.stack.items }
        requires room { HasLists count room.old }
        ensures steps { Steps code.now self.old self.new result }
        ensures made { IsMade result }
        ensures memory { KeepsFrames self.old self.new }
        ensures few { HasFewSlots self.new.doing }
        ensures room { StaysUnlessAsked result room.old room.new }
    {
        match self.triples(count, room) {
            Some((signals, copy, slots)) => {
                let request = Request::ReceiveSignal { signals, otherwise };
                let kept = Request::ReceiveSignal {
                    signals: copy,
                    otherwise,
                };
                self.ask(3 * count as usize, request, kept, slots)
            }
            None => self.throw(Exc::Rangefail),
        }
    }
}
