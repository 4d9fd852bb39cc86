// Regions that are entered and left.
ghost use Rattle.std.specs.Prelude.{◌≡◌, map, slice_get, Some};
ghost use Rattle.code_types.specs.Actions.{is_last_of, is_open};
ghost use Rattle.code_types.specs.declared.instr.Instr.TheVariants.{Enter, Leave};
ghost use Rattle.machine_frames.specs.Frames.{IsReady};
ghost use Rattle.machine_steps.specs.Asking.{HasFewSlots};
ghost use Rattle.machine_steps.specs.Rooms.{KeepsFrames};
ghost use Rattle.machine_steps.specs.Stepping.{IsMade, Steps};
ghost use Rattle.machine_steps.specs.Views.{region_of};

use crate::process::{Doing, Process, RegionEntry, Stepped};
use code_types::Code;
use kernel_base::Request;

// Whether the region is open.
fn is_open_in(region: u32, regions: &[RegionEntry]) -> bool
    ensures { result ≡ is_open region (map region_of regions.now) }
{
    for entry in regions {
        if entry.region == region {
            return true;
        }
    }
    false
}

// Whether the region is the one that was entered last, and this frame entered it.
fn is_last_in(region: u32, frame: usize, regions: &[RegionEntry]) -> bool
    ensures { result ≡ is_last_of region frame (map region_of regions.now) }
{
    if regions.is_empty() {
        return false;
    }
    let entry = regions[regions.len() - 1];
    entry.region == region && entry.frame == frame
}

impl Process {
    /// Asks to lock a region that isn't open.
    pub fn enter_region(&mut self, code: &Code, region: u32) -> Stepped
        requires running { self.old.doing ≡ Doing.Running }
        requires here { slice_get code.now.instrs self.old.top.place ≡ Some (Enter region) }
        requires ready { IsReady 0 0 self.old.top }
        ensures steps { Steps code.now self.old self.new result }
        ensures made { IsMade result }
        ensures memory { KeepsFrames self.old self.new }
        ensures few { HasFewSlots self.new.doing }
    {
        if is_open_in(region, &self.regions) {
            self.top.drop_numbers(0);
            return Stepped::GoesOn;
        }
        let slots = Vec::new(*self.regions.allocator());
        self.ask(
            0,
            Request::Enter { region },
            Request::Enter { region },
            slots,
        )
    }

    /// Asks to free the region that this frame entered last of all.
    pub fn leave_region(&mut self, code: &Code, region: u32) -> Stepped
        requires running { self.old.doing ≡ Doing.Running }
        requires here { slice_get code.now.instrs self.old.top.place ≡ Some (Leave region) }
        requires ready { IsReady 0 0 self.old.top }
        ensures steps { Steps code.now self.old self.new result }
        ensures made { IsMade result }
        ensures memory { KeepsFrames self.old self.new }
        ensures few { HasFewSlots self.new.doing }
    {
        if !is_last_in(region, self.below.len() + 1, &self.regions) {
            self.top.drop_numbers(0);
            return Stepped::GoesOn;
        }
        let slots = Vec::new(*self.regions.allocator());
        self.ask(
            0,
            Request::Leave { region },
            Request::Leave { region },
            slots,
        )
    }
}
