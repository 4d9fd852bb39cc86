// Instances, regions, events and the journal.
use chill_base::{Item, List};
use event_queues::EventSets;
use instance_table::{Instances, Phase};
use journal_book::Journal;
use kernel_base::{Alternative, Alternatives, Event, How};
use region_kernel::Regions;
use std::alloc::Global;
use std::test::Fail;

#[test]
fn an_instance_is_started_and_ends(rt: HostRuntime) -> Result<(), Fail> {
    let mut table = Instances::new(rt.alloc())?;
    table.reserve(1)?;
    assert_eq!(rt; table.start(3), 2);
    assert_eq!(rt; table.process(2), Some(3));
    table.set_phase(1, Phase::Ended(How::Normal));
    assert_eq!(rt; table.live(), 1);
    assert_eq!(rt; table.actives(), 1);
    assert!(rt; table.phase(3).is_none());
    Ok(())
}

#[test]
fn a_region_goes_to_the_one_that_waits(rt: HostRuntime) -> Result<(), Fail> {
    let mut regions = Regions::new(rt.alloc(), 1)?;
    regions.reserve(4)?;
    assert!(rt; regions.lock(0, 1));
    assert!(rt; !regions.lock(0, 2));
    regions.wait(0, 2);
    assert_eq!(rt; regions.queue(0).len(), 1);
    assert_eq!(rt; regions.queue(0)[0], 2);
    assert_eq!(rt; regions.last_held(1), Some(0));
    assert_eq!(rt; regions.free(0), Some(2));
    assert_eq!(rt; regions.occupant(0), Some(2));
    Ok(())
}

#[test]
fn a_full_event_and_the_one_that_is_woken(rt: HostRuntime) -> Result<(), Fail> {
    let alloc = rt.alloc();
    let mut lengths = List::new(alloc);
    lengths.push(Some(1))?;
    let mut events = List::new(alloc);
    events.push(Alternative {
        thing: 0,
        number: 4,
    })?;
    let listed = events.copy()?;
    let mut sets = EventSets::new(alloc, &lengths)?;
    sets.reserve(1)?;
    sets.delay(2, events, 0);
    assert!(rt; sets.full(&listed));
    assert!(rt; sets.listed(2).is_some());
    let woken = sets.wake(0);
    assert!(rt;
        woken
            == Some(Alternative {
                thing: 2,
                number: 4
            })
    );
    assert!(rt; sets.listed(2).is_none());
    Ok(())
}

fn event_0(alloc: Global) -> Result<Alternatives, Fail> {
    let mut events = List::new(alloc);
    events.push(Alternative {
        thing: 0,
        number: 0,
    })?;
    Ok(events)
}

#[test]
fn the_higher_priority_waits_in_front(rt: HostRuntime) -> Result<(), Fail> {
    let alloc = rt.alloc();
    let mut lengths = List::new(alloc);
    lengths.push(None)?;
    let mut sets = EventSets::new(alloc, &lengths)?;
    sets.reserve(3)?;
    sets.delay(2, event_0(alloc)?, 0);
    sets.delay(3, event_0(alloc)?, 5);
    sets.delay(4, event_0(alloc)?, 5);
    let waiting = sets.waiting(0);
    assert_eq!(rt; waiting.len(), 3);
    assert_eq!(rt; waiting.at(0).who, 3);
    assert_eq!(rt; waiting.at(1).who, 4);
    assert_eq!(rt; waiting.at(2).who, 2);
    Ok(())
}

#[test]
fn a_journal_of_one_event(rt: HostRuntime) -> Result<(), Fail> {
    let mut journal = Journal::new(rt.alloc());
    journal.reserve(1)?;
    journal.append(Event::Runs { who: 1, ticks: 256 });
    assert_eq!(rt; journal.units(), 257);
    assert_eq!(rt; journal.events().len(), 1);
    assert_eq!(rt; journal.into_events().len(), 1);
    Ok(())
}
