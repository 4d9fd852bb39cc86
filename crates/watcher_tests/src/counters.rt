// The program's two watchers, one by one, with texts by hand.
use crate::events::{enters, journal, waits_to_enter};
use chill_base::Text;
use outside_ports::{WatchFault, Watcher};
use std::test::Fail;
use watchers::{EventCounter, RegionCounter};

#[test]
fn events_are_counted_by_their_kinds(rt: HostRuntime) -> Result<(), Fail> {
    let alloc = rt.alloc();
    let events = journal(alloc)?;
    let mut counter = EventCounter::new();
    for event in events.as_slice() {
        assert_eq!(rt; counter.see(event), Ok(()));
    }
    let mut text = Text::new(alloc);
    counter.tell(&mut text)?;
    assert_eq!(rt;
        text.as_slice(),
        b"did 2\nwaits 1\ngoes 1\nruns 1\n".as_slice()
    );
    Ok(())
}

#[test]
fn entries_are_counted_by_region(rt: HostRuntime) -> Result<(), Fail> {
    let alloc = rt.alloc();
    let events = journal(alloc)?;
    let mut counter = RegionCounter::new(alloc)?;
    for event in events.as_slice() {
        assert_eq!(rt; counter.see(event), Ok(()));
    }
    assert_eq!(rt; counter.see(&enters(3, 1)), Ok(()));
    let mut text = Text::new(alloc);
    counter.tell(&mut text)?;
    let wanted = b"region 0 entered 1\nregion 1 entered 2\n";
    assert_eq!(rt; text.as_slice(), wanted.as_slice());
    Ok(())
}

#[test]
fn a_region_past_the_table_is_refused(rt: HostRuntime) -> Result<(), Fail> {
    let alloc = rt.alloc();
    let mut counter = RegionCounter::new(alloc)?;
    assert_eq!(rt; counter.see(&enters(1, 4095)), Ok(()));
    assert_eq!(rt; counter.see(&enters(1, 4096)), Err(WatchFault::Refused));
    assert_eq!(rt;
        counter.see(&waits_to_enter(1, 4096)),
        Err(WatchFault::Refused)
    );
    let mut text = Text::new(alloc);
    counter.tell(&mut text)?;
    assert_eq!(rt; text.as_slice(), b"region 4095 entered 1\n".as_slice());
    Ok(())
}
