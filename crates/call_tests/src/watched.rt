// Calls whose journal is watched.
ghost use Rattle.std.specs.Prelude.{[], ◌∷◌, ◌-◌, ◌==◌, slice_index};

use crate::calls::{Watchers, call};
use crate::ports::{NONE, Ports};
use crate::texts::{SHARED_COUNTER, SUM};
use chill_base::{Memory, Text};
use kernel_base::Event;
use outside_ports::{OpenGate, WatchFault, Watcher};
use std::test::Fail;
use watchers::{EventCounter, RegionCounter};

/// Sees so many more events, refuses the one behind them, and tells nothing.
#[derive(Drop)]
struct Refusing {
    left: u32,
}

impl Watcher for Refusing {
    ghost watching = { λ w. record {
      state = w.left ∷ [];
      step = λ state event. (slice_index state 0 - 1) ∷ [];
      refuses = λ state event. slice_index state 0 == 0;
      text = λ state. [];
    } };

    fn see(&mut self, _: &Event) -> Result<(), WatchFault> {
        if self.left == 0 {
            return Err(WatchFault::Refused);
        }
        self.left -= 1;
        Ok(())
    }

    fn tell(&self, _: &mut Text) -> Result<(), Memory> {
        Ok(())
    }
}

#[test]
fn the_journal_of_a_shared_counter_is_watched(rt: HostRuntime) -> Result<(), Fail> {
    let alloc = rt.alloc();
    let mut ports = Ports::new(alloc, SHARED_COUNTER, b"", &NONE)?;
    let mut watchers: Watchers = Vec::new(alloc);
    let events: Box<dyn Watcher> = Box::new(alloc, EventCounter::new())?;
    watchers.push(events)?;
    let refusing: Box<dyn Watcher> = Box::new(alloc, Refusing { left: 2 })?;
    watchers.push(refusing)?;
    let regions: Box<dyn Watcher> = Box::new(alloc, RegionCounter::new(alloc)?)?;
    watchers.push(regions)?;
    let answered = call(
        &rt,
        alloc,
        "run f --watch",
        &mut ports,
        &OpenGate,
        &mut watchers,
    )?;
    assert_eq!(rt; answered.status, 0);
    assert_eq!(rt; answered.dropped.as_slice(), [1u32].as_slice());
    assert_eq!(rt; watchers.len(), 2);
    assert_eq!(rt; ports.out.taken(), b"2000".as_slice());
    assert!(rt; ports.err.taken().starts_with(b"did "));
    assert!(rt; ports.err.taken().ends_with(b"region 0 entered 2002\n"));
    Ok(())
}

#[test]
fn watchers_that_all_refuse_are_dropped(rt: HostRuntime) -> Result<(), Fail> {
    let alloc = rt.alloc();
    let mut ports = Ports::new(alloc, SHARED_COUNTER, b"", &NONE)?;
    let mut watchers: Watchers = Vec::new(alloc);
    let first: Box<dyn Watcher> = Box::new(alloc, Refusing { left: 0 })?;
    watchers.push(first)?;
    let second: Box<dyn Watcher> = Box::new(alloc, Refusing { left: 0 })?;
    watchers.push(second)?;
    let third: Box<dyn Watcher> = Box::new(alloc, Refusing { left: 0 })?;
    watchers.push(third)?;
    let answered = call(
        &rt,
        alloc,
        "run f --watch",
        &mut ports,
        &OpenGate,
        &mut watchers,
    )?;
    assert_eq!(rt; answered.status, 0);
    assert_eq!(rt; answered.dropped.as_slice(), [0u32, 1, 2].as_slice());
    assert!(rt; watchers.is_empty());
    assert!(rt; ports.took("2000", ""));
    Ok(())
}

#[test]
fn without_the_word_nobody_watches(rt: HostRuntime) -> Result<(), Fail> {
    let alloc = rt.alloc();
    let mut ports = Ports::new(alloc, SUM, b"", &NONE)?;
    let mut watchers: Watchers = Vec::new(alloc);
    let refusing: Box<dyn Watcher> = Box::new(alloc, Refusing { left: 0 })?;
    watchers.push(refusing)?;
    let answered = call(&rt, alloc, "run f", &mut ports, &OpenGate, &mut watchers)?;
    assert_eq!(rt; answered.status, 0);
    assert!(rt; answered.dropped.is_empty());
    assert_eq!(rt; watchers.len(), 1);
    assert!(rt; ports.took("3", ""));
    Ok(())
}
