// Watchers are shown a journal, each the whole of it before the next one.
ghost use Rattle.std.specs.Prelude.{◌≡◌, ◌<◌, ◌^◌, ◌++◌, length, map, IfOk, OnOk, OnErr};
ghost use Rattle.std.specs.List.{flat_map};
ghost use Rattle.outside_ports.specs.Watcher.{Sees, told};
ghost use Rattle.watchers.specs.Shown.{IsShown, IsLeft, stayed, places};

use crate::text::append;
use chill_base::{Memory, Numbers, Text};
use kernel_base::Event;
use outside_ports::{WatchFault, Watcher};

/// Which watchers were dropped.
#[derive(Drop)]
pub struct Shown {
    /// Their places at entry, rising.
    pub dropped: Numbers,
}

/// Shows each watcher the events in order, and drops those that refuse one. The others keep their order. After want of
/// memory those that are left saw the first of the events, and the others refuse one.
#[tactic(auto, using(crate::proofs::Standing::untouched, crate::proofs::Standing::begin, crate::proofs::Standing::box_cut))]
pub fn show_all(boxes: &mut Vec<Box<dyn Watcher>>, events: &[Event]) -> Result<Shown, Memory>
    requires few { length boxes.old.items < 2 ^ 32 }
    ensures stayed { OnOk result (map (λ b. watching b) boxes.new.items ≡ stayed (map (λ b. watching b) boxes.old.items) events.now) }
    ensures dropped { IfOk result (λ shown. shown.dropped ≡ places (map (λ b. watching b) boxes.old.items) events.now) }
    ensures left { OnErr result (IsLeft events.now (map (λ b. watching b) boxes.old.items) (map (λ b. watching b) boxes.new.items)) }
{
    let count = boxes.len();
    let mut dropped = Vec::with_capacity(*boxes.allocator(), count)?;
    let mut at = 0;
    for place in 0..count {
        match show(&mut boxes[at], events) {
            Ok(()) => at += 1,
            Err(WatchFault::Refused) => {
                boxes.remove(at);
                dropped.push(place as u32).unwrap();
            }
            Err(WatchFault::Memory) => return Err(Memory),
        }
    }
    Ok(Shown {
        dropped: Numbers::from_vec(dropped),
    })
}

// Shows one watcher the events, up to one that it refuses.
fn show(watcher: &mut Box<dyn Watcher>, events: &[Event]) -> Result<(), WatchFault>
    ensures { IsShown (watching watcher.old) events.now result (watching watcher.new) }
{
    for event in events {
        see(watcher, event)?;
    }
    Ok(())
}

// A function of one box, since a loop's proof can't cite what a `dyn` value's method says.
fn see(watcher: &mut Box<dyn Watcher>, event: &Event) -> Result<(), WatchFault>
    ensures { Sees (watching watcher.old) event.now result (watching watcher.new) }
{
    watcher.see(event)
}

/// Appends the texts of watchers, in order. After want of memory the text is as before.
pub fn tell_all(boxes: &[Box<dyn Watcher>], text: &mut Text) -> Result<(), Memory>
    ensures told { OnOk result (text.new ≡ text.old ++ flat_map told (map (λ b. watching b) boxes.now)) }
    ensures kept { OnErr result (text.new ≡ text.old) }
{
    let mut all = Text::new(text.allocator());
    for watcher in boxes {
        tell(watcher, &mut all)?;
    }
    append(text, all.as_slice())
}

// As `see`.
fn tell(watcher: &Box<dyn Watcher>, text: &mut Text) -> Result<(), Memory>
    ensures { OnOk result (text.new ≡ text.old ++ told (watching watcher.now)) }
{
    watcher.tell(text)
}
