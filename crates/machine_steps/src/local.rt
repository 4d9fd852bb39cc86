// Instructions that stay in their frame.
ghost use Rattle.std.specs.Prelude.{◌≡◌, slice_get, Some};
ghost use Rattle.machine_frames.specs.Frames.{CanAct};
ghost use Rattle.machine_steps.specs.Asking.{HasFewSlots};
ghost use Rattle.machine_steps.specs.Rooms.{KeepsFrames};
ghost use Rattle.machine_steps.specs.Stepping.{Steps, WantsOnly};

use crate::process::{Doing, Process, Stepped};
use code_types::{Code, Instr};
use machine_frames::{Acted, act};

impl Process {
    /// Makes an instruction that stays in its frame. At one that asks more nothing is done.
    pub fn make_local(&mut self, code: &Code, instr: Instr) -> Stepped
        requires running { self.old.doing ≡ Doing.Running }
        requires here { slice_get code.now.instrs self.old.top.place ≡ Some instr }
        requires can { CanAct code.now instr self.old.top }
        ensures steps { Steps code.now self.old self.new result }
        ensures wants { WantsOnly instr result }
        ensures memory { KeepsFrames self.old self.new }
        ensures few { HasFewSlots self.new.doing }
    {
        match act(code, &mut self.top, instr) {
            Acted::GoesOn => Stepped::GoesOn,
            Acted::Ticks => Stepped::Ticks,
            Acted::Raises(exception) => {
                self.doing = Doing::Raising(exception);
                Stepped::GoesOn
            }
            Acted::Elsewhere => Stepped::Wants,
        }
    }
}
