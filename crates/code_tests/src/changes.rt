// The opening world of small facts, and what an event does to it.
use crate::tables::few_facts;
use kernel_base::{Answer, Event, Request};
use std::test::Fail;
use world_check::{have_few_members, opening_world};

#[test]
fn a_region_is_locked_by_the_one_who_enters_it(rt: HostRuntime) -> Result<(), Fail> {
    let alloc = rt.alloc();
    let mut facts = few_facts(alloc);
    facts.regions = 2;
    assert!(rt; have_few_members(&facts));
    let mut world = opening_world(alloc, &facts)?;
    assert_eq!(rt; world.occupants.len(), 2);
    assert_eq!(rt; world.phases.len(), 2);
    assert_eq!(rt; world.sends, 0);
    let event = Event::Did {
        who: 1,
        ticks: 0,
        request: Request::Enter { region: 1 },
        answer: Answer::Done,
        refill: None,
    };
    world.apply(&facts, &event)?;
    assert_eq!(rt; world.occupants.len(), 2);
    assert_eq!(rt; *world.occupants.at(1), Some(1));
    assert_eq!(rt; world.held.len(), 2);
    assert_eq!(rt; world.held.at(1).len(), 1);
    assert_eq!(rt; *world.held.at(1).at(0), 1);
    Ok(())
}
