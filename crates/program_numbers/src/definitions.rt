// The definitions of a text, and where they stand.
use crate::refusal::ElaborationRefusal;
use crate::source::Source;
use crate::thing::Thing;
use checked_program::{Definition, Inside};
use chill_base::{List, Numbers};
use mode_rules::{Origin, Predefined};
use names_model::Kind;

impl<'s, 'a, 'b> Source<'s, 'a, 'b> {
    /// The definitions, each with the innermost modulion or body that it stands in.
    pub fn definitions(&self) -> Result<List<Definition>, ElaborationRefusal> {
        let mut rows = List::new(self.alloc());
        let modulions = self.modulions_before()?;
        for number in 0..self.things.len() {
            let number = u32::try_from(number).unwrap_or(u32::MAX);
            let inside = self.inside(number, modulions.as_slice())?;
            let name = self.name(number)?;
            rows.push(Definition { name, inside })?;
        }
        Ok(rows)
    }

    // How many modulions are defined before each definition: for a modulion this is its own number.
    fn modulions_before(&self) -> Result<Numbers, ElaborationRefusal> {
        let mut counts = Numbers::new(self.alloc());
        let mut count = 0_u32;
        for number in 0..self.things.len() {
            counts.push(count)?;
            let number = u32::try_from(number).unwrap_or(u32::MAX);
            if self.definition(number)?.kind == Kind::Modulion {
                count = count.saturating_add(1);
            }
        }
        Ok(counts)
    }

    fn inside(&self, number: u32, modulions: &[u32]) -> Result<Inside, ElaborationRefusal> {
        let around = match self.definition(number)?.inside {
            names_model::Inside::Outermost => return Ok(Inside::Outermost),
            names_model::Inside::Modulion(around)
            | names_model::Inside::Body(around)
            | names_model::Inside::Block(around) => around,
        };
        if let Thing::Body(body) = self.thing(around) {
            return Ok(Inside::Body(body));
        }
        match modulions.get(around as usize) {
            None => Err(ElaborationRefusal::Unsound),
            Some(modulion) => Ok(Inside::Modulion(*modulion)),
        }
    }

    /// The number of regions.
    pub fn regions(&self) -> u32 {
        let mut count = 0_u32;
        for thing in self.things {
            if let Thing::Region(_) = *thing {
                count = count.saturating_add(1);
            }
        }
        count
    }

    /// Whether some name in the text stands for the predefined GET_INT.
    pub fn reads_input(&self) -> bool {
        for own in self.walk.evaluation.names.uses.as_slice() {
            if let Some(Origin::Predefined(Predefined::GetInt)) = self
                .walk
                .evaluation
                .origin(own.to)
            {
                return true;
            }
        }
        false
    }
}
