// Instructions that ask something of the process itself.
ghost use Rattle.std.specs.Prelude.{◌≡◌, slice_get, Some};
ghost use Rattle.code_types.specs.declared.instr.Instr.TheVariants.{This};
ghost use Rattle.machine_frames.specs.Frames.{IsReady};
ghost use Rattle.machine_steps.specs.Asking.{HasFewSlots};
ghost use Rattle.machine_steps.specs.Rooms.{KeepsFrames};
ghost use Rattle.machine_steps.specs.Stepping.{IsMade, Steps};

use crate::process::{Doing, Process, Stepped};
use code_types::Code;

impl Process {
    /// Pushes the own instance.
    pub fn push_instance(&mut self, code: &Code) -> Stepped
        requires running { self.old.doing ≡ Doing.Running }
        requires here { slice_get code.now.instrs self.old.top.place ≡ Some This }
        requires ready { IsReady 0 1 self.old.top }
        ensures steps { Steps code.now self.old self.new result }
        ensures made { IsMade result }
        ensures memory { KeepsFrames self.old self.new }
        ensures few { HasFewSlots self.new.doing }
    {
        self.top.replace(0, self.instance as i64);
        Stepped::GoesOn
    }
}
