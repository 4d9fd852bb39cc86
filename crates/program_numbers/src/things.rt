// The number of each definition in the list that it stands in.
use crate::refusal::ElaborationRefusal;
use crate::thing::Thing;
use chill_base::{List, Memory, Numbers};
use chill_tree::tree::ModulionKind;
use expr_rules::Walk;
use mode_rules::{Meeting, Origin, meeting_of};
use names_model::Inside;
use std::alloc::Global;

// The number of the outermost process's body.
const OUTERMOST: u32 = 0;

/// What each definition of a text is, by its number.
pub type Things = List<Thing>;

/// What each definition of a program is.
pub fn things_of(walk: &Walk<'_, '_>) -> Result<Things, ElaborationRefusal> {
    let alloc = walk.evaluation.alloc;
    let mut found = List::new(alloc);
    let mut counts = Counts::none(alloc)?;
    let definitions = walk.evaluation.names.definitions.as_slice();
    for number in 0..walk.evaluation.defined.len() {
        let Some(own) = definitions.get(number) else {
            return Err(ElaborationRefusal::Unsound);
        };
        let around = body_around(own.inside, found.as_slice())?;
        let number = u32::try_from(number).unwrap_or(u32::MAX);
        let thing = match around {
            None => counts.outside(walk, number)?,
            Some(body) => counts.inside(walk, number, body)?,
        };
        found.push(thing)?;
    }
    Ok(found)
}

// The number of the body in which a definition stands that isn't directly in a modulion: the outermost process has the
// blocks of modules and regions.
fn body_around(inside: Inside, things: &[Thing]) -> Result<Option<u32>, ElaborationRefusal> {
    let around = match inside {
        Inside::Outermost | Inside::Modulion(_) => return Ok(None),
        Inside::Body(definition) | Inside::Block(definition) => things.get(definition as usize),
    };
    match around {
        Some(Thing::Body(body)) => Ok(Some(*body)),
        Some(Thing::Region(_)) | Some(Thing::Nothing) => Ok(Some(OUTERMOST)),
        Some(Thing::Shared(_))
        | Some(Thing::Local { .. })
        | Some(Thing::Event(_))
        | Some(Thing::Buffer(_))
        | Some(Thing::Signal(_))
        | None => Err(ElaborationRefusal::Unsound),
    }
}

// How many there are so far of each list.
struct Counts {
    shared: u32,
    events: u32,
    buffers: u32,
    signals: u32,
    regions: u32,
    // The locals of each body.
    locals: Numbers,
}

// Dropped by hand, so that whoever drops one makes one call.
impl Drop for Counts {
    fn drop(self) {
        let Counts {
            shared: _,
            events: _,
            buffers: _,
            signals: _,
            regions: _,
            locals,
        } = self;
        drop(locals);
    }
}

impl Counts {
    // The outermost process alone.
    fn none(alloc: Global) -> Result<Counts, Memory> {
        let mut locals = Numbers::new(alloc);
        locals.push(0_u32)?;
        Ok(Counts {
            shared: 0,
            events: 0,
            buffers: 0,
            signals: 0,
            regions: 0,
            locals,
        })
    }

    // What a definition is that stands directly in a modulion or at the outermost level.
    fn outside(&mut self, walk: &Walk<'_, '_>, number: u32) -> Result<Thing, ElaborationRefusal> {
        match walk.evaluation.origin(number) {
            Some(Origin::Modulion(own)) if own.kind == ModulionKind::Region => {
                Ok(Thing::Region(next(&mut self.regions)))
            }
            Some(Origin::Procedure(_)) | Some(Origin::Process(_)) => {
                let body = u32::try_from(self.locals.len()).unwrap_or(u32::MAX);
                self.locals.push(0)?;
                Ok(Thing::Body(body))
            }
            Some(Origin::Signal(_)) => Ok(Thing::Signal(next(&mut self.signals))),
            Some(Origin::Location { .. }) => self.location(walk, number),
            _ => Ok(Thing::Nothing),
        }
    }

    // What a location is that stands directly in a modulion.
    fn location(&mut self, walk: &Walk<'_, '_>, number: u32) -> Result<Thing, ElaborationRefusal> {
        let Some(mode) = walk.mode_of(number) else {
            return Err(ElaborationRefusal::Unsound);
        };
        Ok(match meeting_of(mode) {
            None => Thing::Shared(next(&mut self.shared)),
            Some(Meeting::Event { .. }) => Thing::Event(next(&mut self.events)),
            Some(Meeting::Buffer { .. }) => Thing::Buffer(next(&mut self.buffers)),
        })
    }

    // What a definition is that stands in a body.
    fn inside(
        &mut self,
        walk: &Walk<'_, '_>,
        number: u32,
        body: u32,
    ) -> Result<Thing, ElaborationRefusal> {
        match walk.evaluation.origin(number) {
            Some(Origin::Location { .. })
            | Some(Origin::Parameter { .. })
            | Some(Origin::Counter(_))
            | Some(Origin::Received { .. }) => {}
            _ => return Ok(Thing::Nothing),
        }
        match self.locals.room().get_mut(body as usize) {
            None => Err(ElaborationRefusal::Unsound),
            Some(count) => Ok(Thing::Local {
                body,
                number: next(count),
            }),
        }
    }
}

// The next number of a list.
fn next(count: &mut u32) -> u32 {
    let number = *count;
    *count = number.saturating_add(1);
    number
}
