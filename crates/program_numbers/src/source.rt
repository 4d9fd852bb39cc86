// What the lists of a program are made of.
use crate::refusal::ElaborationRefusal;
use crate::thing::Thing;
use chill_base::{Memory, Text};
use expr_rules::Walk;
use modes::Mode;
use names_model::{Definition, Inside};
use std::alloc::Global;
use std::rc::Rc;

/// What the lists of a program are made of: its definitions, whose modes the walk knows, and what each of them is.
#[derive(Clone, Copy)]
pub struct Source<'s, 'a, 'b> {
    pub walk: &'s Walk<'a, 'b>,
    pub things: &'s [Thing],
}

impl<'s, 'a, 'b> Source<'s, 'a, 'b> {
    /// Where the lists take memory.
    pub fn alloc(&self) -> Global {
        self.walk.evaluation.alloc
    }

    /// A definition, by its number.
    pub fn definition(&self, number: u32) -> Result<&'s Definition, ElaborationRefusal> {
        let definitions = self.walk.evaluation.names.definitions.as_slice();
        match definitions.get(number as usize) {
            None => Err(ElaborationRefusal::Unsound),
            Some(own) => Ok(own),
        }
    }

    /// The name of a definition.
    pub fn name(&self, number: u32) -> Result<Text, ElaborationRefusal> {
        let own = self.definition(number)?;
        Ok(text(self.alloc(), own.name.spelling.as_bytes())?)
    }

    /// The mode of a location, parameter, counter or received name.
    pub fn mode(&self, number: u32) -> Result<&'s Rc<Mode>, ElaborationRefusal> {
        match self.walk.mode_of(number) {
            None => Err(ElaborationRefusal::Unsound),
            Some(mode) => Ok(mode),
        }
    }

    /// What a definition is.
    pub fn thing(&self, number: u32) -> Thing {
        match self.things.get(number as usize) {
            None => Thing::Nothing,
            Some(thing) => *thing,
        }
    }

    /// The region that a definition stands directly in.
    pub fn region_around(&self, number: u32) -> Result<Option<u32>, ElaborationRefusal> {
        match self.definition(number)?.inside {
            Inside::Modulion(around) => match self.thing(around) {
                Thing::Region(region) => Ok(Some(region)),
                Thing::Nothing => Ok(None),
                Thing::Shared(_)
                | Thing::Local { .. }
                | Thing::Body(_)
                | Thing::Event(_)
                | Thing::Buffer(_)
                | Thing::Signal(_) => Err(ElaborationRefusal::Unsound),
            },
            Inside::Outermost | Inside::Body(_) | Inside::Block(_) => Ok(None),
        }
    }
}

/// The same mode once more.
pub fn shared(mode: &Rc<Mode>) -> Result<Rc<Mode>, Memory> {
    Ok(mode.clone()?)
}

/// A text of these bytes.
pub fn text(alloc: Global, bytes: &[u8]) -> Result<Text, Memory> {
    Ok(Text::from_vec(Vec::from_slice(alloc, bytes)?))
}
