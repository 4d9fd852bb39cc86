// Counts how often each region was entered.
ghost use Rattle.std.specs.Prelude.{◌≡◌, ◌↔◌, ◌++◌, IfOk, OnOk, IsErr, IsErrOf, IsTrue, replicate};
ghost use Rattle.outside_ports.specs.Watcher.{Sees};
ghost use Rattle.watchers.specs.Counts.{entered as entered_region, is_past_table, region_counter, region_line};

use crate::text::append;
use chill_base::{Memory, Text};
use kernel_base::{Event, Request};
use outside_ports::{WatchFault, Watcher};
use std::alloc::Global;
use std::marker::Model;

// The regions in the table.
const REGIONS: usize = 4096;

/// How often each of 4,096 regions was entered, at once or after a wait (our own choice). A count stays at the end of its
/// type. An event that enters a region with a higher number is refused.
#[derive(Drop)]
pub struct RegionCounter {
    entries: Vec<u64>,
}

impl Model for RegionCounter {
    ghost use Rattle.std.specs.Prelude.{◌≡◌, ℕ, List, length};

    ghost Value = { List ℕ };

    ghost view = { λ c. c.entries.items };

    ghost invariant = { λ c. length c.entries.items ≡ 4096 };
}

impl RegionCounter {
    /// One that has seen no event. It takes the memory for its table.
    pub fn new(alloc: Global) -> Result<RegionCounter, Memory>
        ensures { IfOk result (λ counter. counter ≡ replicate 4096 0) }
    {
        let entries = vec![in alloc; 0; REGIONS]?;
        Ok(RegionCounter { entries })
    }
}

// The region that is entered, at once or after a wait.
fn entered(event: &Event) -> Option<u32>
    ensures { result ≡ entered_region event.now }
{
    match event {
        Event::Did {
            request: Request::Enter { region },
            ..
        }
        | Event::Waits {
            request: Request::Enter { region },
            ..
        } => Some(*region),
        _ => None,
    }
}

fn push_line(alloc: Global, text: &mut Vec<u8>, region: usize, entries: u64) -> Result<(), Memory>
    ensures { OnOk result (text.new.items ≡ text.old.items ++ region_line region entries) }
{
    if entries > 0 {
        let line = format!(in alloc; "region {region} entered {entries}\n")?;
        text.extend_from_slice(line.as_bytes())?;
    }
    Ok(())
}

impl Watcher for RegionCounter {
    ghost watching = { region_counter };

    // It takes no memory: it fails exactly where it refuses the event.
    fn see(&mut self, event: &Event) -> Result<(), WatchFault>
        ensures sees { Sees (region_counter self.old) event.now result (region_counter self.new) }
        ensures memory { IsErrOf result WatchFault.Memory → ⊥ }
        ensures refuses { IsErr result ↔ IsTrue (is_past_table (entered_region event.now)) }
    {
        let Some(region) = entered(event) else {
            return Ok(());
        };
        let region = region as usize;
        if region >= self.entries.len() {
            return Err(WatchFault::Refused);
        }
        self.entries[region] = self.entries[region].saturating_add(1);
        Ok(())
    }

    fn tell(&self, text: &mut Text) -> Result<(), Memory> {
        let alloc = text.allocator();
        let mut lines = Vec::new(alloc);
        for region in 0..self.entries.len() {
            push_line(alloc, &mut lines, region, self.entries[region])?;
        }
        append(text, &lines)
    }
}
