// Shared locations, events, buffers and signals.
use crate::refusal::ElaborationRefusal;
use crate::source::{Source, shared};
use crate::thing::Thing;
use checked_program::{BufferRow, EventRow, LocationRow, SignalRow};
use chill_base::List;
use chill_tree::tree::Name;
use mode_rules::{Meeting, Origin, meeting_of};
use modes::Mode;
use std::rc::Rc;

impl<'s, 'a, 'b> Source<'s, 'a, 'b> {
    /// The shared locations, without events and buffers.
    pub fn locations(&self) -> Result<List<LocationRow>, ElaborationRefusal> {
        let mut rows = List::new(self.alloc());
        let mut number = 0_u32;
        for thing in self.things {
            if let Thing::Shared(_) = *thing {
                rows.push(self.location(number)?)?;
            }
            number = number.saturating_add(1);
        }
        Ok(rows)
    }

    fn location(&self, definition: u32) -> Result<LocationRow, ElaborationRefusal> {
        let region = self.region_around(definition)?;
        let mode = shared(self.mode(definition)?)?;
        Ok(LocationRow {
            definition,
            name: self.name(definition)?,
            mode,
            region,
        })
    }

    /// The events.
    pub fn events(&self) -> Result<List<EventRow>, ElaborationRefusal> {
        let mut rows = List::new(self.alloc());
        let mut number = 0_u32;
        for thing in self.things {
            if let Thing::Event(_) = *thing {
                rows.push(self.event(number)?)?;
            }
            number = number.saturating_add(1);
        }
        Ok(rows)
    }

    fn event(&self, definition: u32) -> Result<EventRow, ElaborationRefusal> {
        let Some(Meeting::Event { length }) = meeting_of(self.mode(definition)?) else {
            return Err(ElaborationRefusal::Unsound);
        };
        Ok(EventRow {
            definition,
            name: self.name(definition)?,
            length,
        })
    }

    /// The buffers.
    pub fn buffers(&self) -> Result<List<BufferRow>, ElaborationRefusal> {
        let mut rows = List::new(self.alloc());
        let mut number = 0_u32;
        for thing in self.things {
            if let Thing::Buffer(_) = *thing {
                rows.push(self.buffer(number)?)?;
            }
            number = number.saturating_add(1);
        }
        Ok(rows)
    }

    fn buffer(&self, definition: u32) -> Result<BufferRow, ElaborationRefusal> {
        let Some(Meeting::Buffer { length, element }) = meeting_of(self.mode(definition)?) else {
            return Err(ElaborationRefusal::Unsound);
        };
        let element = shared(element)?;
        Ok(BufferRow {
            definition,
            name: self.name(definition)?,
            length,
            element,
        })
    }

    /// The signals.
    pub fn signals(&self) -> Result<List<SignalRow>, ElaborationRefusal> {
        let mut rows = List::new(self.alloc());
        let mut number = 0_u32;
        for thing in self.things {
            if let Thing::Signal(_) = *thing {
                rows.push(self.signal(number)?)?;
            }
            number = number.saturating_add(1);
        }
        Ok(rows)
    }

    fn signal(&self, definition: u32) -> Result<SignalRow, ElaborationRefusal> {
        let Some(Origin::Signal(own)) = self.walk.evaluation.origin(definition) else {
            return Err(ElaborationRefusal::Unsound);
        };
        let process = self.process_named(&own.process)?;
        let parts = self.parts(definition)?;
        Ok(SignalRow {
            definition,
            name: self.name(definition)?,
            parts,
            process,
        })
    }

    // The body of the process that a signal is for, where one is written.
    fn process_named(&self, name: &Option<Name>) -> Result<Option<u32>, ElaborationRefusal> {
        let Some(name) = name else {
            return Ok(None);
        };
        match self.walk.evaluation.used_at(name.at) {
            None => Err(ElaborationRefusal::Unsound),
            Some(definition) => match self.thing(definition) {
                Thing::Body(body) => Ok(Some(body)),
                _ => Err(ElaborationRefusal::Unsound),
            },
        }
    }

    // The modes of a signal's parts.
    fn parts(&self, definition: u32) -> Result<List<Rc<Mode>>, ElaborationRefusal> {
        let mut parts = List::new(self.alloc());
        let Some(entry) = self.walk.evaluation.entry(definition) else {
            return Err(ElaborationRefusal::Unsound);
        };
        for part in entry.parts.as_slice() {
            match part {
                None => return Err(ElaborationRefusal::Unsound),
                Some(mode) => parts.push(shared(mode)?)?,
            }
        }
        Ok(parts)
    }
}
