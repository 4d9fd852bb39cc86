// Whose turn comes next.
use chill_base::Memory;
use kernel_base::{Event, Request};
use std::alloc::Global;

// A turn has so many ticks and requests.
const TURN: u32 = 256;

/// The places of the machines that can go, rising; the place from which the next one is looked for; and how many ticks and requests
/// the turn has had. Many processes may have been started, and may wait, while few can go: so these are asked first. A machine that
/// is answered at once keeps its turn, so that who is in a region leaves it before others come to it. No proof rests on this, since
/// all machines are asked where nobody on the list can go.
#[derive(Drop)]
pub struct Turns {
    pub ready: Vec<usize>,
    from: usize,
    had: u32,
}

impl Turns {
    /// The turns of a run before its first machine.
    pub fn new(alloc: Global) -> Turns {
        Turns {
            ready: Vec::new(alloc),
            from: 0,
            had: 0,
        }
    }

    /// Lists the places of new machines.
    pub fn add(&mut self, from: usize, until: usize) -> Result<(), Memory> {
        for place in from..until {
            self.insert(place)?;
        }
        Ok(())
    }

    /// The listed places from the one on from which the next machine is looked for.
    pub fn rest(&self) -> &[usize] {
        let first = self.ready.partition_point(|place| *place < self.from);
        &self.ready[first..]
    }

    /// Notes the events of a burst, those from a place on: who waits or has ended can't go, and who goes on can.
    pub fn note(&mut self, events: &[Event], from: usize) -> Result<(), Memory> {
        for at in from..events.len() {
            match &events[at] {
                Event::Waits { who, .. }
                | Event::Did {
                    who,
                    request: Request::End { .. },
                    ..
                } => {
                    self.had = TURN;
                    self.remove(place_of(*who));
                }
                Event::Goes { who, .. } => self.insert(place_of(*who))?,
                Event::Did { ticks, .. } => {
                    self.had = self.had.saturating_add(*ticks).saturating_add(1);
                }
                Event::Runs { .. } => self.had = TURN,
            }
        }
        Ok(())
    }

    /// Looks for the next machine from the one on that had the turn, or from the one behind it where its turn is over.
    pub fn go_on(&mut self, place: usize) {
        if self.had < TURN {
            self.from = place;
        } else {
            self.from = place.saturating_add(1);
            self.had = 0;
        }
    }

    fn insert(&mut self, place: usize) -> Result<(), Memory> {
        let at = self.ready.partition_point(move |other| *other < place);
        if self.ready.get(at) != Some(&place) {
            self.ready.insert(at, place)?;
        }
        Ok(())
    }

    fn remove(&mut self, place: usize) {
        let at = self.ready.partition_point(move |other| *other < place);
        if self.ready.get(at) == Some(&place) {
            self.ready.remove(at);
        }
    }
}

// Machines stand in the order of instances, which are counted from 1.
fn place_of(instance: u32) -> usize {
    (instance as usize).saturating_sub(1)
}
