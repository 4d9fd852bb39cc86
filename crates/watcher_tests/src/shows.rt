// Watchers are shown a journal together.
use crate::events::journal;
use crate::fakes::{OutOfMemory, Refusing};
use chill_base::{Memory, Text};
use outside_ports::Watcher;
use std::test::Fail;
use watchers::{EventCounter, RegionCounter, show_all, tell_all};

#[test]
fn one_that_refuses_its_third_event_is_dropped(rt: HostRuntime) -> Result<(), Fail> {
    let alloc = rt.alloc();
    let events = journal(alloc)?;
    let first: Box<dyn Watcher> = Box::new(alloc, EventCounter::new())?;
    let second: Box<dyn Watcher> = Box::new(alloc, Refusing { left: 2 })?;
    let third: Box<dyn Watcher> = Box::new(alloc, RegionCounter::new(alloc)?)?;
    let mut boxes = Vec::new(alloc);
    boxes.push(first)?;
    boxes.push(second)?;
    boxes.push(third)?;
    let shown = show_all(&mut boxes, events.as_slice())?;
    assert_eq!(rt; shown.dropped.as_slice(), [1].as_slice());
    let mut text = Text::new(alloc);
    tell_all(&boxes, &mut text)?;
    let wanted = b"did 2\nwaits 1\ngoes 1\nruns 1\nregion 0 entered 1\nregion 1 entered 1\n";
    assert_eq!(rt; text.as_slice(), wanted.as_slice());
    Ok(())
}

#[test]
fn the_first_and_the_last_event_can_be_refused(rt: HostRuntime) -> Result<(), Fail> {
    let alloc = rt.alloc();
    let events = journal(alloc)?;
    let first: Box<dyn Watcher> = Box::new(alloc, Refusing { left: 0 })?;
    let second: Box<dyn Watcher> = Box::new(alloc, Refusing { left: 4 })?;
    let third: Box<dyn Watcher> = Box::new(alloc, Refusing { left: 5 })?;
    let mut boxes = Vec::new(alloc);
    boxes.push(first)?;
    boxes.push(second)?;
    boxes.push(third)?;
    let shown = show_all(&mut boxes, events.as_slice())?;
    assert_eq!(rt; shown.dropped.as_slice(), [0, 1].as_slice());
    let mut text = Text::new(alloc);
    tell_all(&boxes, &mut text)?;
    assert_eq!(rt; text.as_slice(), b"r".as_slice());
    Ok(())
}

#[test]
fn want_of_memory_is_handed_on(rt: HostRuntime) -> Result<(), Fail> {
    let alloc = rt.alloc();
    let events = journal(alloc)?;
    let first: Box<dyn Watcher> = Box::new(alloc, Refusing { left: 0 })?;
    let second: Box<dyn Watcher> = Box::new(alloc, EventCounter::new())?;
    let third: Box<dyn Watcher> = Box::new(alloc, OutOfMemory)?;
    let mut boxes = Vec::new(alloc);
    boxes.push(first)?;
    boxes.push(second)?;
    boxes.push(third)?;
    let answer = show_all(&mut boxes, events.as_slice());
    assert_eq!(rt; answer.err(), Some(Memory));
    let mut text = Text::new(alloc);
    tell_all(&boxes, &mut text)?;
    assert_eq!(rt;
        text.as_slice(),
        b"did 2\nwaits 1\ngoes 1\nruns 1\np".as_slice()
    );
    Ok(())
}
