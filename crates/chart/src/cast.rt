// The instances that a part of a journal speaks of, each with its column.
use chill_base::Memory;
use kernel_base::{Answer, Event, Request};
use std::alloc::Global;

// A picture has fewer columns than this, since a few instances stand in each of its events.
const MOST_COLUMNS: usize = 100_000;

/// The instances of a picture, in the order of their columns.
#[derive(Drop)]
pub(crate) struct Cast {
    pub instances: Vec<u32>,
}

impl Cast {
    /// The instances that events speak of.
    pub fn of(alloc: Global, events: &[Event]) -> Result<Cast, Memory> {
        let mut cast = Cast {
            instances: Vec::new(alloc),
        };
        for event in events {
            cast.add_all(event)?;
        }
        cast.instances.sort()?;
        Ok(cast)
    }

    fn add_all(&mut self, event: &Event) -> Result<(), Memory> {
        self.add(Some(who_of(event)))?;
        self.add(to_of(event))?;
        self.add(other_of(event))?;
        self.add(refill_of(event))
    }

    fn add(&mut self, instance: Option<u32>) -> Result<(), Memory> {
        match instance {
            Some(instance) => {
                if !self.instances.contains(&instance) {
                    self.instances.push(instance)?;
                }
                Ok(())
            }
            None => Ok(()),
        }
    }

    /// The column of an instance.
    pub fn column(&self, instance: u32) -> Option<u32> {
        for k in 0..self.instances.len() {
            if self.instances[k] == instance {
                return Some(k.min(MOST_COLUMNS) as u32);
            }
        }
        None
    }
}

/// Who did something.
pub(crate) fn who_of(event: &Event) -> u32 {
    match event {
        Event::Did { who, .. }
        | Event::Waits { who, .. }
        | Event::Goes { who, .. }
        | Event::Runs { who, .. } => *who,
    }
}

/// The instance to which what is sent is told to go.
fn to_of(event: &Event) -> Option<u32> {
    match event {
        Event::Did {
            request: Request::SendSignal { to, .. },
            ..
        } => *to,
        _ => None,
    }
}

fn refill_of(event: &Event) -> Option<u32> {
    match event {
        Event::Did { refill, .. } => *refill,
        _ => None,
    }
}

/// The other instance of which an answer tells.
pub(crate) fn other_of(event: &Event) -> Option<u32> {
    match event {
        Event::Did { answer, .. } | Event::Goes { answer, .. } => other_in(answer),
        Event::Waits { .. } | Event::Runs { .. } => None,
    }
}

fn other_in(answer: &Answer) -> Option<u32> {
    match answer {
        Answer::Instance(instance) | Answer::Handed(instance) => Some(*instance),
        Answer::Chose(chosen) => *chosen,
        Answer::Got { by, .. } | Answer::Woken { by, .. } => Some(*by),
        Answer::Value(_) | Answer::Done | Answer::Otherwise | Answer::Fail(_) | Answer::Stored =>
            None,
    }
}
